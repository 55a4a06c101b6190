//! The bytes of the answer to a message.
ghost use Rattle.http_message.specs.Message.{message_value};
ghost use Rattle.desk_http.specs.Promises.{MessageGoes, MessageReplies, MessageLeaves};

use crate::made_calls::carry_out;
use crate::print::answer_fault;
use crate::verdict::verdict_of;
use desk_calls::Desk;
use desk_store::Store;
use http_message::{Message, closes};
use http_routes::Routes;
use http_session::Unavailable;
use json::Scratch;
use std::alloc::Global;

/// Answers a message by the one call of the desk that it makes. Returns the bytes of the answer, from its
/// status line to the end of its body.
///
/// The error `Unavailable` means that memory was refused or the store could not act. The store then holds the
/// same book as before, and the message may be sent again.
///
/// By the clause `goes` the bytes are those of the definitions, for every history over bytes whose book the
/// store holds, and the store then holds the book of the history with this message. By `replies` a company's
/// answer follows from its own part of the history and its message alone. By `left` a crash leaves the state
/// before the message or after it, and the state after it if the message was answered and wrote; a read,
/// answered or not, changes nothing that a crash may leave.
///
/// The caller passes the routes and the memory in which a body is read, as an `HttpDesk` does, so that neither is made
/// for a message.
pub fn answer<S: Store>(
    alloc: Global,
    desk: &mut Desk<S>,
    routes: &Routes,
    scratch: &mut Scratch,
    message: Message<'_>,
) -> Result<Vec<u8>, Unavailable>
    ensures before { S.is_clean desk.new → S.is_clean desk.old }
    ensures goes { MessageGoes S.Store desk.old desk.new (message_value message.entry) result }
    ensures replies { MessageReplies S.Store desk.old desk.new
        (message_value message.entry) result }
    ensures left { MessageLeaves S.Store desk.old desk.new (message_value message.entry) result }
{
    desk_book::book_tells();
    http_history::one_meaning();
    http_history::own_text();
    http_history::calls_are_history();
    let closes = closes(&message);
    match verdict_of(alloc, desk, routes, scratch, message) {
        Ok(Ok(call)) => carry_out(alloc, desk, call, closes),
        Ok(Err(fault)) => answer_fault(alloc, fault, closes),
        Err(_) => Err(Unavailable),
    }
}
