//! Heads at their limits.
use crate::sessions::texts::{BAD_HEAD, EMPTY, GET, add, ends_over_pieces, join_texts, many};
use http_session::Ended;
use std::alloc::Global;
use std::process::Abort;

/// Returns a GET with this beginning whose head has this many bytes.
fn head_of(rt: &(impl Abort + Alloc<A = Global>), start: &[u8], size: usize) -> Vec<u8> {
    let mut head = join_texts(rt, &[start, b"GET /ops/settlement HTTP/1.1\r\nA: "]);
    for _ in head.len() + 4..size {
        add(rt, &mut head, b"x");
    }
    add(rt, &mut head, b"\r\n\r\n");
    head
}

/// Checks the end if a read gives one byte, many or all.
fn ends_by_reads(
    rt: &(impl Abort + Alloc<A = Global>),
    texts: &[&[u8]],
    end: Ended,
    answers: &[&[u8]],
) {
    for most in [1, 4_000, usize::MAX] {
        ends_over_pieces(rt, texts, most, end, answers);
    }
}

/// A beginning, a size, and what is written for a head of these and a GET.
const SIZES: &[(&[u8], usize, &[&[u8]])] = &[
    (b"", 16_384, &[EMPTY, EMPTY]),
    (b"", 16_385, &[BAD_HEAD]),
    (b"\r\n\n\r\n", 16_384, &[EMPTY, EMPTY]),
    (b"\r\n\n\r\n", 16_385, &[BAD_HEAD]),
];

/// A head has at most 16,384 bytes, with the empty lines before it.
#[test]
fn takes_heads_to_their_size(rt: HostRuntime) {
    for &(start, size, answers) in SIZES {
        let head = head_of(&rt, start, size);
        assert!(rt; head.len() == size);
        ends_by_reads(&rt, &[&head, GET], Ended::Closed, answers);
    }
}

/// A byte, how many of it are sent, how the session ends, and what it writes.
const ENDLESS: &[(&[u8], usize, Ended, &[u8])] = &[
    (b"G", 16_383, Ended::Cut, b""),
    (b"G", 16_385, Ended::Closed, BAD_HEAD),
    (b"\n", 16_383, Ended::Cut, b""),
    (b"\n", 16_385, Ended::Closed, BAD_HEAD),
];

/// 16,384 bytes without a whole head are a bad head; one less that end are cut.
#[test]
fn tells_heads_without_an_end(rt: HostRuntime) {
    for &(byte, count, end, answer) in ENDLESS {
        ends_by_reads(&rt, &[&many(&rt, byte, count)], end, &[answer]);
    }
}

/// A head has at most 32 fields.
#[test]
fn takes_heads_of_thirty_two_fields(rt: HostRuntime) {
    for (count, answer) in [(32, EMPTY), (33, BAD_HEAD)] {
        let fields = many(&rt, b"A: b\r\n", count);
        let texts: [&[u8]; 3] = [b"GET /ops/settlement HTTP/1.1\r\n", &fields, b"\r\n"];
        ends_by_reads(&rt, &texts, Ended::Closed, &[answer]);
    }
}

const NOT_ASCII: &[(&[u8], &[u8])] = &[
    (b"GET /c/X/rates HTTP/1.1\r\nA: \xff\xfe\r\n\r\n", EMPTY),
    (b"GET /c/\xc3\xa9/rates HTTP/1.1\r\n\r\n", EMPTY),
    (b"GET /c/\xff/rates HTTP/1.1\r\n\r\n", BAD_HEAD),
];

/// Values and bodies may have bytes over 127, and a target may if it is UTF-8.
#[test]
fn takes_bytes_that_are_not_ascii(rt: HostRuntime) {
    for &(bytes, answer) in NOT_ASCII {
        ends_over_pieces(&rt, &[bytes], usize::MAX, Ended::Closed, &[answer]);
    }
}
