//! Sessions.
ghost use Rattle.std.specs.Prelude.{◌≡◌, ◌<◌, length};
ghost use Rattle.io_retries.specs.Tries.{IsUnused};
ghost use Rattle.http_session.specs.Sides.{Faults, Flushes, Leaves, Runs, Turns};
ghost use Rattle.http_session.specs.Turns.{turn_of};

use crate::answers::Answers;
use crate::replying::{reply, reply_to_request, send_unavailable};
use http_message::{Arrival, MAX_FIELDS, MAX_MESSAGES, Message, Unread, read_message};
use httparse::spans::{EMPTY_HEADER_SPAN, HeaderSpan};
use io_retries::{Sink, Source, Tries};
use std::alloc::Global;

/// How a session ended.
#[derive(Clone, Copy, PartialEq, Eq, Debug)]
pub enum Ended {
    /// The input ended between messages, or the connection was to close.
    Closed,
    /// The input ended inside a message.
    Cut,
    /// The session had all its messages.
    Full,
}

/// What a session failed at.
#[derive(Clone, Copy, PartialEq, Eq, Debug)]
pub enum SessionFault {
    /// A read failed.
    Read,
    /// A write failed.
    Write,
}

/// What a turn tells, from what the reply told.
fn turn_of(told: Result<bool, SessionFault>, is_last: bool) -> Result<Option<Ended>, SessionFault>
    ensures { result ≡ turn_of told is_last }
{
    match told {
        Ok(true) => Ok(None),
        Ok(false) => {
            if is_last {
                Ok(Some(Ended::Full))
            } else {
                Ok(Some(Ended::Closed))
            }
        }
        Err(fault) => Err(fault),
    }
}

/// Reads a message and answers it, or tells how the session ends.
fn turn<D: Answers, R: Source, W: Sink>(
    alloc: Global,
    desk: &mut D,
    reader: &mut R,
    writer: &mut W,
    tries: &mut Tries,
    unread: &mut Unread,
    fields: &mut [HeaderSpan],
    is_last: bool,
) -> Result<Option<Ended>, SessionFault>
    requires { length fields.old ≡ MAX_FIELDS }
    ensures before { D.is_clean desk.new → D.is_clean desk.old }
    ensures turned { Turns D.Answers R.Source W.Sink is_last desk.old desk.new
        reader.old reader.new writer.old writer.new unread.old unread.new result }
    ensures flushed { Flushes W.Sink result writer.old writer.new }
    ensures fault { Faults R.Source W.Sink result reader.new writer.new tries.new }
{
    match read_message(alloc, reader, tries, unread, fields) {
        Arrival::Fault => Err(SessionFault::Read),
        Arrival::NoRoom => match send_unavailable(writer, tries) {
            Ok(()) => Ok(Some(Ended::Closed)),
            Err(fault) => Err(fault),
        },
        Arrival::End => Ok(Some(Ended::Closed)),
        Arrival::Cut => Ok(Some(Ended::Cut)),
        Arrival::BadHead => {
            let told = reply(alloc, desk, writer, tries, Message::BadHead);
            turn_of(told, is_last)
        }
        Arrival::Request(head, framing, body) => {
            let size = body.len();
            let told = reply_to_request(
                alloc,
                desk,
                writer,
                tries,
                unread.bytes(),
                fields,
                &head,
                framing,
                body,
                is_last,
            );
            unread.skip(head.len);
            unread.skip(size);
            turn_of(told, is_last)
        }
    }
}

/// Answers the messages that a reader's bytes spell, in their order, to a writer.
///
/// At most 1,000 messages are answered. A message that the answerer cannot answer, and one for whose body
/// there is no room, is answered by the constant text with status 503, and the session ends. An interrupted
/// read or write is tried again, at most 1,000 times in the session. No more is kept than one head, one
/// body, and one answer. Each answer is flushed once it is written.
///
/// # Errors
/// `Read` or `Write` only if a read of this reader or a write of this writer failed: the clause `left`.
pub fn session<D: Answers, R: Source, W: Sink>(
    alloc: Global,
    desk: &mut D,
    reader: &mut R,
    writer: &mut W,
) -> Result<Ended, SessionFault>
    ensures before { D.is_clean desk.new → D.is_clean desk.old }
    ensures ran { Runs D.Answers R.Source W.Sink desk.old desk.new
        reader.old reader.new writer.old writer.new result }
    ensures left { Leaves R.Source W.Sink result reader.new writer.old writer.new }
{
    session_with_tries(alloc, desk, reader, writer, &mut Tries::new())
}

/// Does the same with tries of the caller, who then knows how many are left. They have to be those of a new run.
///
/// # Errors
/// Those of `session`. By the clause `fault` a call that was interrupted is reported only if no try was left.
pub fn session_with_tries<D: Answers, R: Source, W: Sink>(
    alloc: Global,
    desk: &mut D,
    reader: &mut R,
    writer: &mut W,
    tries: &mut Tries,
) -> Result<Ended, SessionFault>
    requires unused { IsUnused tries.old }
    ensures before { D.is_clean desk.new → D.is_clean desk.old }
    ensures ran { Runs D.Answers R.Source W.Sink desk.old desk.new
        reader.old reader.new writer.old writer.new result }
    ensures flushed { Flushes W.Sink result writer.old writer.new }
    ensures fault { Faults R.Source W.Sink result reader.new writer.new tries.new }
{
    let mut unread = Unread::new();
    let mut fields = [EMPTY_HEADER_SPAN; MAX_FIELDS];
    for count in 0..MAX_MESSAGES {
        let is_last = count + 1 == MAX_MESSAGES;
        match turn(
            alloc,
            desk,
            reader,
            writer,
            tries,
            &mut unread,
            &mut fields,
            is_last,
        ) {
            Ok(None) => {}
            Ok(Some(ended)) => return Ok(ended),
            Err(fault) => return Err(fault),
        }
    }
    Ok(Ended::Full)
}
