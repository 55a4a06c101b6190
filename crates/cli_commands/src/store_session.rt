//! Messages of HTTP/1.1 are answered by the desk of a store.
ghost use Rattle.cli_commands.specs.StoreRuns.{StoreAnswers};

use crate::message_session::status_of_session;
use crate::output::print_unavailable;
use crate::status::Status;
use desk_calls::Desk;
use desk_http::HttpDesk;
use desk_store::Store;
use http_routes::Routes;
use http_session::session;
use io_retries::{Sink, Source, Tries};
use std::alloc::Global;

/// Answers the messages that a reader's bytes spell, in one session, by the desk of a store. Returns the
/// store.
///
/// The command ends as `answer_messages` says. By the clauses each answer is the text of its message after
/// those before it, for every history that the store represented. If the returned store is clean, it represents
/// that history with these messages and no other.
pub fn answer_by_store<S: Store + Drop, R: Source, W: Sink>(
    alloc: Global,
    store: S,
    reader: &mut R,
    writer: &mut W,
) -> (Status, S)
    ensures { StoreAnswers S.Store store R.Source reader.old reader.new
        W.Sink writer.old writer.new result }
{
    let Ok(routes) = Routes::new(alloc) else {
        return (print_unavailable(writer, Tries::new()), store);
    };
    let mut desk = HttpDesk::new(alloc, Desk::new(store), routes);
    let status = status_of_session(session(alloc, &mut desk, reader, writer));
    (status, desk.into_desk().into_store())
}
