//! When the connection ends.
use crate::sessions::texts::{EMPTY, EMPTY_CLOSE, GET, ends_over_pieces};
use http_session::Ended;

const STAYS: &[&[u8]] = &[EMPTY, EMPTY];

const CLOSES: &[&[u8]] = &[EMPTY_CLOSE];

/// The answers to a GET with these fields, and then another.
const CASES: &[(&[u8], &[&[u8]])] = &[
    (b"HTTP/1.1\r\n", STAYS),
    (b"HTTP/1.0\r\n", CLOSES),
    (b"HTTP/1.0\r\nConnection: keep-alive\r\n", CLOSES),
    (b"HTTP/1.1\r\nConnection: close\r\n", CLOSES),
    (b"HTTP/1.1\r\nconnection:CLOSE \r\n", CLOSES),
    (b"HTTP/1.1\r\nConnection: close, x\r\n", STAYS),
    (b"HTTP/1.1\r\nConnection: closed\r\n", STAYS),
    (b"HTTP/1.1\r\nConnection:\r\n", STAYS),
    (
        b"HTTP/1.1\r\nConnection: keep-alive\r\nConnection: close\r\n",
        STAYS,
    ),
    (
        b"HTTP/1.1\r\nConnection: close\r\nConnection: keep-alive\r\n",
        CLOSES,
    ),
    (b"HTTP/1.1\r\nExpect: 100-continue\r\n", STAYS),
    (b"HTTP/1.1\r\nExpect: x\r\nExpect:\r\n", STAYS),
];

#[test]
fn ends_if_a_message_asks_for_it(rt: HostRuntime) {
    for &(head, answers) in CASES {
        let texts: [&[u8]; 4] = [b"GET /ops/suspense?close ", head, b"\r\n", GET];
        ends_over_pieces(&rt, &texts, usize::MAX, Ended::Closed, answers);
    }
}
