//! The bytes of answers.
ghost use Rattle.std.specs.Prelude.{◌≡◌, ◌≤◌, [], true, false, IfOk, IsOk, OnErr, Err, vec_capacity};
ghost use Rattle.http_answers.specs.Answers.{answer_body, is_command, FitsRoom};
ghost use Rattle.http_answers.specs.Statuses.{status_of, content_of};
ghost use Rattle.http_history.specs.Texts.{fault_text};
ghost use Rattle.desk_http.specs.MadeCalls.{IsResponse};

use desk_history::{Answer, Outcome};
use http::StatusCode;
use http_answers::{
    BODY_ROOM, CallKind, MessageFault, content_of, is_command, message_fault_text, status_of,
    write_answer,
};
use http_response::{Content, ROOM, Response, print_response, put_response, wrap_response};
use http_session::Unavailable;
use std::alloc::{AllocError, Global};

/// Returns the bytes of the answer to a call of this kind. The answer to an accepted command is printed into
/// room that was taken before the call: only the answer to a read or a refusal takes memory.
pub(crate) fn print_answer(
    alloc: Global,
    body: Vec<u8>,
    out: Vec<u8>,
    kind: CallKind,
    closes: bool,
    answer: Answer,
) -> Result<Vec<u8>, AllocError>
    requires body { body.items ≡ [] }
    requires body_room { BODY_ROOM ≤ vec_capacity body }
    requires out { out.items ≡ [] }
    requires out_room { ROOM ≤ vec_capacity out }
    ensures text { IfOk result
        (IsResponse (status_of kind answer) (content_of answer) closes answer) }
    ensures memory { OnErr result (is_command answer ≡ false) }
{
    let status = status_of(kind, &answer);
    let content = content_of(&answer);
    if is_command(&answer) {
        print_command(alloc, body, out, status, content, closes, answer)
    } else {
        let body = read_body(alloc, body, answer)?;
        wrap_response(alloc, body, status, content, closes)
    }
}

// The answer to an accepted command, in the room that was taken before the call.
fn print_command(
    alloc: Global,
    mut body: Vec<u8>,
    mut out: Vec<u8>,
    status: StatusCode,
    content: Content,
    closes: bool,
    answer: Answer,
) -> Result<Vec<u8>, AllocError>
    requires command { is_command answer ≡ true }
    requires body { body.items ≡ [] }
    requires body_room { BODY_ROOM ≤ vec_capacity body }
    requires out { out.items ≡ [] }
    requires out_room { ROOM ≤ vec_capacity out }
    ensures text { IfOk result (IsResponse status content closes answer) }
    ensures memory { IsOk result }
{
    write_answer(alloc, &mut body, answer)?;
    let response = Response {
        status,
        content,
        closes,
        body: &body,
    };
    put_response(&mut out, &response);
    Ok(out)
}

// The body of what was looked up or refused. The text of a file is its own body, and no copy is made of
// it; the rows of other answers are let go as they are written.
fn read_body(alloc: Global, mut body: Vec<u8>, answer: Answer) -> Result<Vec<u8>, AllocError>
    requires body { body.items ≡ [] }
    requires room { BODY_ROOM ≤ vec_capacity body }
    ensures { IfOk result (λ bytes. FitsRoom answer → bytes.items ≡ answer_body answer) }
{
    match answer {
        Answer::Done(Outcome::File(Some(text))) => Ok(text.into_vec()),
        answer => {
            write_answer(alloc, &mut body, answer)?;
            Ok(body)
        }
    }
}

/// Returns the bytes of the answer to a message that makes no call.
pub(crate) fn answer_fault(
    alloc: Global,
    fault: MessageFault,
    closes: bool,
) -> Result<Vec<u8>, Unavailable>
    ensures { IfOk result (λ bytes. bytes.items ≡ fault_text closes (Err fault)) }
{
    match print_fault(alloc, fault, closes) {
        Ok(bytes) => Ok(bytes),
        Err(_) => Err(Unavailable),
    }
}

#[tactic(auto, unfolding(http_history::specs::Texts::fault_text))]
fn print_fault(alloc: Global, fault: MessageFault, closes: bool) -> Result<Vec<u8>, AllocError>
    ensures { IfOk result (λ bytes. bytes.items ≡ fault_text closes (Err fault)) }
{
    let body = message_fault_text(alloc, fault)?;
    print_response(
        alloc,
        &Response {
            status: fault.status(),
            content: Content::Json,
            closes,
            body: &body,
        },
    )
}
