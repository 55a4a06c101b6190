//! Messages and answers as bytes.
use super::scripts::{Answer, Exchange};
use itoa::Buffer;
use std::alloc::Global;
use std::process::Abort;

/// The answer of a desk whose store failed.
pub(super) const UNAVAILABLE: &[u8] =
    b"HTTP/1.1 503 Service Unavailable\r\nContent-Type: application/json\r\nContent-Length: 23\r\nConnection: close\r\n\r\n{\"error\":\"Unavailable\"}";

pub(crate) fn add(rt: &impl Abort, out: &mut Vec<u8>, bytes: &[u8]) {
    out.extend_from_slice(bytes).ok().expect(rt, "memory");
}

fn add_texts(rt: &impl Abort, out: &mut Vec<u8>, texts: &[&str]) {
    for text in texts {
        add(rt, out, text.as_bytes());
    }
}

/// Adds the bytes of the messages, one after another.
pub(crate) fn add_requests(rt: &impl Abort, out: &mut Vec<u8>, messages: &[Exchange]) {
    for message in messages {
        let mut digits = Buffer::new();
        let texts = [
            message.asks,
            " HTTP/1.1\r\nX-Desk-Key: ",
            message.key,
            "\r\nContent-Length: ",
            digits.format(message.body.len()),
            "\r\n\r\n",
            message.body,
        ];
        add_texts(rt, out, &texts);
    }
}

fn add_answer(rt: &impl Abort, out: &mut Vec<u8>, answer: Answer) {
    let (status, body) = answer;
    let mut digits = Buffer::new();
    let texts = [
        "HTTP/1.1 ",
        status,
        "\r\nContent-Type: application/json\r\nContent-Length: ",
        digits.format(body.len()),
        "\r\nConnection: keep-alive\r\n\r\n",
        body,
    ];
    add_texts(rt, out, &texts);
}

/// Adds the bytes that have to answer the messages.
pub(crate) fn add_answers(rt: &impl Abort, out: &mut Vec<u8>, messages: &[Exchange]) {
    for message in messages {
        add_answer(rt, out, message.answer);
    }
}

/// Adds the bytes that have to answer the messages where each was done before.
pub(super) fn add_second_answers(rt: &impl Abort, out: &mut Vec<u8>, messages: &[Exchange]) {
    for message in messages {
        add_answer(rt, out, message.again);
    }
}

/// Returns the number of messages with the expected answers. After those the session wrote nothing,
/// or that the store failed.
pub(super) fn count_answers(
    rt: &(impl Abort + Alloc<A = Global>),
    messages: &[Exchange],
    told: &[u8],
) -> usize {
    let mut wanted = Vec::new(rt.alloc());
    for (number, message) in messages.iter().enumerate() {
        let before = wanted.len();
        add_answer(rt, &mut wanted, message.answer);
        if !told.starts_with(&wanted) {
            let rest = told.get(before..).unwrap_or(told);
            assert!(rt; rest.is_empty() || rest == UNAVAILABLE, "message {number}");
            return number;
        }
    }
    assert!(rt; told.len() == wanted.len());
    messages.len()
}
