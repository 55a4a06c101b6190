//! Lengths of bodies in heads.
use crate::sessions::texts::{
    ABC, BAD_HEAD, EMPTY, GET, LENGTH_REQUIRED, TOO_LARGE, ends, ends_over_pieces, many,
};
use http_session::Ended;

/// The answers to a POST with these fields, then the bytes `abc`, then a GET.
const LENGTHS: &[(&[u8], &[&[u8]])] = &[
    (b"Content-Length: 3\r\n", &[ABC, EMPTY]),
    (b"content-LENGTH:   3  \r\n", &[ABC, EMPTY]),
    (
        b"Content-Length: 00000000000000000000003\r\n",
        &[ABC, EMPTY],
    ),
    (b"Content-Length: +5\r\n", &[BAD_HEAD]),
    (b"Content-Length:\r\n", &[BAD_HEAD]),
    (b"Content-Length: 5, 5\r\n", &[BAD_HEAD]),
    (b"Content-Length: 3x\r\n", &[BAD_HEAD]),
    (b"Content-Length: -3\r\n", &[BAD_HEAD]),
    (b"Content-Length: 3\r\nContent-Length: 3\r\n", &[BAD_HEAD]),
    (b"Content-Length: 3\r\ncontent-length: x\r\n", &[BAD_HEAD]),
    (b"", &[LENGTH_REQUIRED]),
    (b"Transfer-Encoding: chunked\r\n", &[LENGTH_REQUIRED]),
    (
        b"Transfer-Encoding: chunked\r\nContent-Length: 3\r\n",
        &[LENGTH_REQUIRED],
    ),
    (
        b"Transfer-Encoding:\r\nContent-Length: 4194305\r\n",
        &[LENGTH_REQUIRED],
    ),
    (
        b"Transfer-Encoding: chunked\r\nContent-Length: x\r\n",
        &[BAD_HEAD],
    ),
    (b"Content-Length: 4194305\r\n", &[TOO_LARGE]),
    (b"Content-Length: 99999999999999999999\r\n", &[TOO_LARGE]),
    (b"Content-Length: 18446744073709551619\r\n", &[TOO_LARGE]),
];

#[test]
fn reads_bodies_by_their_lengths(rt: HostRuntime) {
    for &(fields, answers) in LENGTHS {
        let texts: [&[u8]; 4] = [b"POST /ops/returns HTTP/1.1\r\n", fields, b"\r\nabc", GET];
        ends(&rt, &texts, Ended::Closed, answers);
    }
}

/// The answers to these messages, and then a GET.
const GETS: &[(&[u8], &[&[u8]])] = &[
    (b"GET /ops/settlement HTTP/1.1\r\n\r\n", &[EMPTY, EMPTY]),
    (
        b"GET /ops/settlement HTTP/1.1\r\nContent-Length: 3\r\n\r\nabc",
        &[ABC, EMPTY],
    ),
    (
        b"GET /ops/settlement HTTP/1.1\r\nContent-Length: 4194305\r\n\r\nabc",
        &[TOO_LARGE],
    ),
    (
        b"GET /ops/settlement HTTP/1.1\r\nTransfer-Encoding: chunked\r\n\r\n",
        &[LENGTH_REQUIRED],
    ),
];

/// Another method than POST has no body where it has no length; a GET's body is read.
#[test]
fn reads_bodies_of_every_method(rt: HostRuntime) {
    for &(text, answers) in GETS {
        ends_over_pieces(&rt, &[text, GET], usize::MAX, Ended::Closed, answers);
    }
}

/// A body of 4,194,304 bytes is read whole.
#[test]
fn reads_the_longest_body(rt: HostRuntime) {
    let body = many(&rt, b"xxxxxxxxxxxxxxxx", 262_144);
    assert!(rt; body.len() == 4_194_304);
    let texts: [&[u8]; 3] = [
        b"POST /ops/returns HTTP/1.1\r\nContent-Length: 4194304\r\n\r\n",
        &body,
        GET,
    ];
    let answers: [&[u8]; 3] = [
        b"HTTP/1.1 200 OK\r\nContent-Type: application/json\r\nContent-Length: 4194304\r\nConnection: keep-alive\r\n\r\n",
        &body,
        EMPTY,
    ];
    ends_over_pieces(&rt, &texts, 10_000, Ended::Closed, &answers);
}
