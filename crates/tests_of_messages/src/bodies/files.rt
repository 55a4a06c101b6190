//! Files that a cut made.
use super::{body_of, list};
use desk_history::{Answer, Call, Outcome};
use http::StatusCode;
use http_answers::{CallKind, content_of, kind_of_call, status_of};
use http_response::Content;
use std::alloc::Global;
use std::process::Abort;

/// The answer to who looked a file up has this form, status and body.
fn looks_up(
    rt: &(impl Abort + Alloc<A = Global>),
    answer: Answer,
    content: Content,
    status: StatusCode,
    body: &[u8],
) {
    assert!(rt; content_of(&answer) == content);
    assert!(rt; status_of(CallKind::LooksUp, &answer) == status);
    assert!(rt; body_of(rt, answer).as_slice() == body);
}

#[test]
fn a_file_is_its_text(rt: HostRuntime) {
    let file = list(&rt, b"101 061000146\n\"9\n");
    let answer = Answer::Done(Outcome::File(Some(file)));
    let body = b">101 061000146\n\"9\n";
    looks_up(&rt, answer, Content::PlainText, StatusCode::OK, body);
}

#[test]
fn no_file(rt: HostRuntime) {
    let answer = Answer::Done(Outcome::File(None));
    let body = b">{\"error\":\"NoFile\"}";
    looks_up(&rt, answer, Content::Json, StatusCode::NOT_FOUND, body);
}

#[test]
fn what_is_created(rt: HostRuntime) {
    let answer = Answer::Done(Outcome::Holidays(1));
    assert!(rt; kind_of_call(&Call::Cut) == CallKind::Other);
    assert!(rt; status_of(CallKind::Other, &answer) == StatusCode::OK);
    assert!(rt; status_of(CallKind::Creates, &answer) == StatusCode::CREATED);
}
