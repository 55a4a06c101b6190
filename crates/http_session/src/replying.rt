//! Answering one message.
ghost use Rattle.std.specs.Prelude.{◌≡◌};
ghost use Rattle.httparse.specs.Spans.{IsRequestWithin};
ghost use Rattle.http_message.specs.Start.{framing_at};
ghost use Rattle.http_response.specs.Response.{unavailable_text};
ghost use Rattle.http_session.specs.Sides.{Flushes, Replies, RepliesAt, WriterFaults};
ghost use Rattle.http_session.specs.Turns.{Sends};

use crate::answers::Answers;
use crate::sessions::SessionFault;
use http_message::{Framing, Message, closes, request_at};
use http_response::UNAVAILABLE;
use httparse::spans::{HeaderSpan, RequestSpans};
use io_retries::{Sink, Tries, write_all_with_retries};
use std::alloc::Global;

/// Writes all the bytes.
fn send<W: Sink>(writer: &mut W, tries: &mut Tries, bytes: &[u8]) -> Result<(), SessionFault>
    ensures sends { Sends result (W.contents writer.old) (W.contents writer.new) bytes.now }
    ensures flushed { Flushes W.Sink result writer.old writer.new }
    ensures fault { WriterFaults W.Sink result writer.new tries.new }
{
    match write_all_with_retries(writer, bytes, tries) {
        Ok(()) => Ok(()),
        Err(_) => Err(SessionFault::Write),
    }
}

/// Writes the constant text for being out of memory.
pub(crate) fn send_unavailable<W: Sink>(
    writer: &mut W,
    tries: &mut Tries,
) -> Result<(), SessionFault>
    ensures sends { Sends result (W.contents writer.old) (W.contents writer.new) unavailable_text }
    ensures flushed { Flushes W.Sink result writer.old writer.new }
    ensures fault { WriterFaults W.Sink result writer.new tries.new }
{
    send(writer, tries, UNAVAILABLE)
}

/// Answers a message, and tells whether the session goes on.
pub(crate) fn reply<D: Answers, W: Sink>(
    alloc: Global,
    desk: &mut D,
    writer: &mut W,
    tries: &mut Tries,
    message: Message<'_>,
) -> Result<bool, SessionFault>
    ensures before { D.is_clean desk.new → D.is_clean desk.old }
    ensures replied { Replies D.Answers W.Sink desk.old desk.new
        writer.old writer.new message.entry result }
    ensures flushed { Flushes W.Sink result writer.old writer.new }
    ensures fault { WriterFaults W.Sink result writer.new tries.new }
{
    let closes = closes(&message);
    match desk.answer(alloc, message) {
        Ok(bytes) => match send(writer, tries, &bytes) {
            Ok(()) => Ok(!closes),
            Err(fault) => Err(fault),
        },
        Err(_) => match send_unavailable(writer, tries) {
            Ok(()) => Ok(false),
            Err(fault) => Err(fault),
        },
    }
}

/// Answers the request at the start of the bytes, which has this body.
pub(crate) fn reply_to_request<D: Answers, W: Sink>(
    alloc: Global,
    desk: &mut D,
    writer: &mut W,
    tries: &mut Tries,
    bytes: &[u8],
    fields: &[HeaderSpan],
    head: &RequestSpans,
    framing: Framing,
    body: Vec<u8>,
    is_last: bool,
) -> Result<bool, SessionFault>
    requires within { IsRequestWithin bytes.now fields.now head.now }
    requires framed { framing ≡ framing_at bytes.now fields.now head.now }
    ensures before { D.is_clean desk.new → D.is_clean desk.old }
    ensures replied { RepliesAt D.Answers W.Sink desk.old desk.new
        writer.old writer.new bytes.now fields.now head.now body is_last result }
    ensures flushed { Flushes W.Sink result writer.old writer.new }
    ensures fault { WriterFaults W.Sink result writer.new tries.new }
{
    let request = request_at(bytes, fields, head, framing, body, is_last);
    reply(alloc, desk, writer, tries, Message::Asked(request))
}
