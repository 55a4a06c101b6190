//! Serving the connections of a listener.
ghost use Rattle.std.specs.Prelude.{List};
ghost use Rattle.http_session.specs.Exchanges.{Exchange};
ghost use Rattle.http_session.specs.Serving.{Converses, Drops, IsHeard, IsRefused, IsServed, Lingers, Refuses, ServesAll, all_messages};
ghost use Rattle.http_session.specs.Sides.{StandsOn};

use crate::answers::Answers;
use crate::connection::Connection;
use crate::lingering::drop_rest;
use crate::listener::Listener;
use crate::sessions::session;
use http_response::UNAVAILABLE;
use io_retries::{Sink, Source, Tries, write_all_with_retries};
use std::alloc::Global;
use std::time::Duration;

/// Why no more connections are served.
#[derive(Clone, Copy, Debug, PartialEq, Eq)]
pub enum ServeFault {
    /// No connection could be accepted, after so many were served.
    Accept(u64),
}

/// Serves so many connections of a listener, one after another: each is a session of its own. How one
/// ends, be it by a fault of its reader or its writer, ends no other.
///
/// Each read and each write waits for a client no longer than the patience: one that takes longer fails
/// and ends its session. A connection whose waiting cannot be bounded is closed.
///
/// A client that sends all that it has before it reads gets its answer: after a session, what the client
/// still sends is read and dropped, at most 16 MiB, before the connection is closed.
///
/// By the clause `told` the listener accepted that many connections and no other. Each had its session,
/// whose messages its bytes spell and whose answers it was given; or it was answered 503 because it could
/// not have a second handle, or closed because its waiting could not be bounded. The answerer stands for
/// what the messages of these sessions make of what it stood for, one session after the other.
///
/// # Errors
/// `Accept` if a connection cannot be accepted, with the number of those that were served. They keep their
/// answers.
pub fn serve<D: Answers, L: Listener>(
    alloc: Global,
    desk: &mut D,
    listener: &mut L,
    connections: u64,
    patience: Duration,
) -> Result<(), ServeFault>
    ensures before { D.is_clean desk.new → D.is_clean desk.old }
    ensures told { (sessions : List (List Exchange))
        × ServesAll L.Listener L.Stream.Connection L.Stream.Source L.Stream.Sink patience
        connections listener.old listener.new result sessions
        × StandsOn D.Answers desk.old desk.new (all_messages sessions) }
{
    for served in 0..connections {
        let Ok(stream) = listener.accept() else {
            return Err(ServeFault::Accept(served));
        };
        serve_connection(alloc, desk, listener, stream, patience);
    }
    Ok(())
}

// Serves one connection, which is read and written by two handles of it. If it cannot have a second one,
// its client is told by the one there is that nothing can be answered.
fn serve_connection<D: Answers, L: Listener>(
    alloc: Global,
    desk: &mut D,
    listener: &mut L,
    stream: L::Stream,
    patience: Duration,
)
    ensures before { D.is_clean desk.new → D.is_clean desk.old }
    ensures served { (exchanges : List Exchange)
        × IsServed L.Listener L.Stream.Connection L.Stream.Source L.Stream.Sink patience
        stream listener.old listener.new exchanges
        × StandsOn D.Answers desk.old desk.new exchanges }
{
    let mut stream = stream;
    match stream.bound_waiting(patience) {
        Ok(()) => match stream.second_handle() {
            Ok(writer) => answer(alloc, desk, listener, stream, writer),
            Err(_) => refuse(listener, stream),
        },
        Err(_) => listener.close(stream),
    }
}

// Answers the messages of a connection, which are read from one handle and answered on another.
fn answer<D: Answers, L: Listener>(
    alloc: Global,
    desk: &mut D,
    listener: &mut L,
    reader: L::Stream,
    writer: L::Stream,
)
    ensures before { D.is_clean desk.new → D.is_clean desk.old }
    ensures heard { (exchanges : List Exchange)
        × IsHeard L.Listener L.Stream.Connection L.Stream.Source L.Stream.Sink
        reader writer listener.old listener.new exchanges
        × StandsOn D.Answers desk.old desk.new exchanges }
{
    let mut reader = reader;
    let mut writer = writer;
    converse(alloc, desk, &mut reader, &mut writer);
    listener.close_both(reader, writer);
}

// Answers the messages of a connection, and awaits its end if they were answered.
fn converse<D: Answers, S: Connection + Source + Sink>(
    alloc: Global,
    desk: &mut D,
    reader: &mut S,
    writer: &mut S,
)
    ensures before { D.is_clean desk.new → D.is_clean desk.old }
    ensures converses { (exchanges : List Exchange)
        × Converses S.Connection S.Source S.Sink
        reader.old reader.new writer.old writer.new exchanges
        × StandsOn D.Answers desk.old desk.new exchanges }
{
    match session(alloc, desk, reader, writer) {
        Ok(_) => linger(reader),
        Err(_) => {}
    }
}

// Tells a client that nothing can be answered.
fn refuse<L: Listener>(listener: &mut L, stream: L::Stream)
    ensures { IsRefused L.Listener L.Stream.Connection L.Stream.Source L.Stream.Sink
        stream listener.old listener.new }
{
    let mut stream = stream;
    tell_unavailable(&mut stream);
    listener.close(stream);
}

fn tell_unavailable<S: Connection + Source + Sink>(stream: &mut S)
    ensures { Refuses S.Connection S.Source S.Sink stream.old stream.new }
{
    match write_all_with_retries(stream, UNAVAILABLE, &mut Tries::new()) {
        Ok(()) => linger(stream),
        Err(_) => {}
    }
}

// Awaits the end of a connection whose answers were written. If it were closed while bytes of its client
// are unread, it would be reset, and the client might lose the answer. So the client is told that no answer
// follows, and what it still sends is dropped first.
fn linger<S: Connection + Source>(stream: &mut S)
    ensures { Lingers S.Connection S.Source stream.old stream.new }
{
    match stream.end_writing() {
        Ok(()) => drop_after(stream),
        Err(_) => {}
    }
}

fn drop_after<S: Source>(stream: &mut S)
    ensures { Drops S.Source stream.old stream.new }
{
    let _ = drop_rest(stream, &mut Tries::new());
}
