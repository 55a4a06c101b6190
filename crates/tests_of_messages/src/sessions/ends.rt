//! The ends of sessions.
use crate::sessions::readers::Pieces;
use crate::sessions::texts::{
    ABC, BAD_HEAD, EMPTY, EMPTY_CLOSE, GET, POST_ABC, UNAVAILABLE, ends, ends_over_pieces, front,
    join_texts, many, runs, sink,
};
use http_session::Ended;
use std::alloc::Global;
use std::process::Abort;

const PART_OF_HEAD: &[u8] = b"GET / HTTP/1.1";

const LINES: &[u8] = b"\r\n\n\r\n";

const PART_OF_BODY: &[u8] = b"POST /ops/returns HTTP/1.1\r\nContent-Length: 5\r\n\r\nabc";

const BAD_GET: &[u8] = b"GET /\x01 HTTP/1.1\r\n\r\n";

/// The texts of sessions, how each session ends, and its answers.
const CASES: &[(&[&[u8]], Ended, &[&[u8]])] = &[
    (&[], Ended::Closed, &[]),
    (&[PART_OF_HEAD], Ended::Cut, &[]),
    (&[LINES], Ended::Cut, &[]),
    (&[GET], Ended::Closed, &[EMPTY]),
    (&[GET, LINES], Ended::Cut, &[EMPTY]),
    (&[GET, PART_OF_BODY], Ended::Cut, &[EMPTY]),
    (&[GET, GET], Ended::Closed, &[EMPTY, EMPTY]),
    (&[LINES, GET, LINES, GET], Ended::Closed, &[EMPTY, EMPTY]),
    (
        &[POST_ABC, POST_ABC, GET, POST_ABC],
        Ended::Closed,
        &[ABC, ABC, EMPTY, ABC],
    ),
    (&[GET, BAD_GET, GET], Ended::Closed, &[EMPTY, BAD_HEAD]),
];

#[test]
fn ends_as_the_input_does(rt: HostRuntime) {
    for &(texts, end, answers) in CASES {
        ends(&rt, texts, end, answers);
    }
}

/// Checks that a session over this many messages ends like this, and writes 999 answers and this
/// one.
fn ends_after(rt: &(impl Abort + Alloc<A = Global>), count: usize, end: Ended, last: &[u8]) {
    let bytes = many(rt, GET, count);
    let answers = many(rt, EMPTY, 999);
    ends_over_pieces(rt, &[&bytes], usize::MAX, end, &[&answers, last]);
}

/// A session takes 1,000 messages, and announces the end with the last; the next one is not read.
#[test]
fn is_full_with_the_thousandth(rt: HostRuntime) {
    ends_after(&rt, 999, Ended::Closed, b"");
    ends_after(&rt, 1_000, Ended::Full, EMPTY_CLOSE);
    ends_after(&rt, 1_001, Ended::Full, EMPTY_CLOSE);
}

/// An answerer that cannot answer makes the session write the constant text and end.
#[test]
fn ends_with_the_unavailable_text(rt: HostRuntime) {
    let bytes = join_texts(&rt, &[GET, GET, GET]);
    let written = join_texts(&rt, &[EMPTY, UNAVAILABLE]);
    let mut desk = front(&rt);
    desk.left = 1;
    let reader = Pieces::new(&bytes, 9);
    runs(&rt, desk, reader, sink(&rt), Ok(Ended::Closed), &written);
}
