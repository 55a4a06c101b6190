//! Messages and answers as bytes, and sessions over them.
use crate::samples::{Exchange, Script, new_lists, new_tables};
use desk_core::{Desk, Store};
use desk_http::HttpDesk;
use http_routes::Routes;
use http_session::{Ended, session};
use itoa::Buffer;
use std::alloc::Global;
use std::process::Abort;

pub(crate) const UNAVAILABLE: &[u8] =
    b"HTTP/1.1 503 Service Unavailable\r\nContent-Type: application/json\r\nContent-Length: 23\r\nConnection: close\r\n\r\n{\"error\":\"Unavailable\"}";

pub(crate) const LENGTH_REQUIRED: &[u8] =
    b"HTTP/1.1 411 Length Required\r\nContent-Type: application/json\r\nContent-Length: 26\r\nConnection: close\r\n\r\n{\"error\":\"LengthRequired\"}";

// The word with this number; empty where there are fewer.
fn word(line: &str, number: usize) -> &str {
    line.split(' ').nth(number).unwrap_or("")
}

fn key_of(caller: &str) -> &str {
    match caller {
        "desk" => "operator-key",
        "MILL01" => "mill-street-key",
        "BAKE01" => "bakery-key",
        other => other,
    }
}

fn add(rt: &impl Abort, out: &mut Vec<u8>, text: &str) {
    out.extend_from_slice(text.as_bytes())
        .ok()
        .expect(rt, "memory");
}

/// Appends the message: `CALLER METHOD PATH`, and its body.
pub(crate) fn add_request(rt: &impl Abort, out: &mut Vec<u8>, asks: &str, body: &str) {
    let mut digits = Buffer::new();
    add(rt, out, word(asks, 1));
    add(rt, out, " ");
    add(rt, out, word(asks, 2));
    add(rt, out, " HTTP/1.1\r\nX-Desk-Key: ");
    add(rt, out, key_of(word(asks, 0)));
    add(rt, out, "\r\nContent-Length: ");
    add(rt, out, digits.format(body.len()));
    add(rt, out, "\r\n\r\n");
    add(rt, out, body);
}

/// Appends the answer to it.
pub(crate) fn add_response(
    rt: &impl Abort,
    out: &mut Vec<u8>,
    asks: &str,
    status: &str,
    body: &str,
) {
    let mut digits = Buffer::new();
    let is_file = asks.contains("/ops/files/") && status == "200 OK";
    add(rt, out, "HTTP/1.1 ");
    add(rt, out, status);
    add(rt, out, "\r\nContent-Type: ");
    add(
        rt,
        out,
        if is_file {
            "text/plain"
        } else {
            "application/json"
        },
    );
    add(rt, out, "\r\nContent-Length: ");
    add(rt, out, digits.format(body.len()));
    add(rt, out, "\r\nConnection: keep-alive\r\n\r\n");
    add(rt, out, body);
}

/// A desk over the store that answers messages.
pub(crate) fn http_desk<S>(rt: &(impl Abort + Alloc<A = Global>), store: S) -> HttpDesk<S> {
    let routes = Routes::new(rt.alloc()).ok().expect(rt, "memory");
    HttpDesk::new(rt.alloc(), Desk::new(store), routes)
}

/// The bytes that a session writes which has these bytes to read.
pub(crate) fn run<S: Store>(
    rt: &(impl Abort + Alloc<A = Global>),
    desk: &mut HttpDesk<S>,
    input: &[u8],
) -> Vec<u8> {
    let mut reader = input;
    let mut out = Vec::new(rt.alloc());
    let ended = session(rt.alloc(), desk, &mut reader, &mut out);
    assert!(rt; ended == Ok(Ended::Closed));
    out
}

/// Sends the messages in one session, and checks each answer.
pub(crate) fn follow<S: Store>(
    rt: &(impl Abort + Alloc<A = Global>),
    desk: &mut HttpDesk<S>,
    name: &str,
    exchanges: &[(&str, &str, &str, &str)],
) {
    let mut input = Vec::new(rt.alloc());
    let mut wanted = Vec::new(rt.alloc());
    for (asks, body, status, answer) in exchanges {
        add_request(rt, &mut input, asks, body);
        add_response(rt, &mut wanted, asks, status, answer);
    }
    let out = run(rt, desk, &input);
    assert!(rt; out.as_slice() == wanted.as_slice(), "{name}");
}

/// Does so over lists and over tables, each the store of a new desk of the sample bank.
pub(crate) fn holds(rt: &(impl Abort + Alloc<A = Global>), name: &str, exchanges: &[Exchange]) {
    follow(rt, &mut http_desk(rt, new_lists(rt)), name, exchanges);
    follow(rt, &mut http_desk(rt, new_tables(rt)), name, exchanges);
}

/// Does so with each of these scripts.
pub(crate) fn all_hold(rt: &(impl Abort + Alloc<A = Global>), scripts: &[Script]) {
    for (name, exchanges) in scripts {
        holds(rt, name, exchanges);
    }
}
