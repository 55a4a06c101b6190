//! The bytes that sessions must write, and runs of sessions.
use crate::sessions::front::Front;
use crate::sessions::readers::Pieces;
use crate::sessions::writers::Sink;
use http_routes::Routes;
use http_session::{Ended, SessionFault, session};
use std::alloc::Global;
use std::process::Abort;

pub const UNAVAILABLE: &[u8] =
    b"HTTP/1.1 503 Service Unavailable\r\nContent-Type: application/json\r\nContent-Length: 23\r\nConnection: close\r\n\r\n{\"error\":\"Unavailable\"}";

pub const BAD_HEAD: &[u8] =
    b"HTTP/1.1 400 Bad Request\r\nContent-Type: application/json\r\nContent-Length: 19\r\nConnection: close\r\n\r\n{\"error\":\"BadHead\"}";

pub const LENGTH_REQUIRED: &[u8] =
    b"HTTP/1.1 411 Length Required\r\nContent-Type: application/json\r\nContent-Length: 26\r\nConnection: close\r\n\r\n{\"error\":\"LengthRequired\"}";

pub const TOO_LARGE: &[u8] =
    b"HTTP/1.1 413 Payload Too Large\r\nContent-Type: application/json\r\nContent-Length: 20\r\nConnection: close\r\n\r\n{\"error\":\"TooLarge\"}";

pub const NOT_FOUND: &[u8] =
    b"HTTP/1.1 404 Not Found\r\nContent-Type: application/json\r\nContent-Length: 20\r\nConnection: keep-alive\r\n\r\n{\"error\":\"NotFound\"}";

pub const BAD_METHOD: &[u8] =
    b"HTTP/1.1 405 Method Not Allowed\r\nContent-Type: application/json\r\nContent-Length: 21\r\nConnection: keep-alive\r\n\r\n{\"error\":\"BadMethod\"}";

/// The answer to a message without a body.
pub const EMPTY: &[u8] =
    b"HTTP/1.1 200 OK\r\nContent-Type: application/json\r\nContent-Length: 0\r\nConnection: keep-alive\r\n\r\n";

/// The same where the connection is to close.
pub const EMPTY_CLOSE: &[u8] =
    b"HTTP/1.1 200 OK\r\nContent-Type: application/json\r\nContent-Length: 0\r\nConnection: close\r\n\r\n";

/// The answer to a message with the body `abc`.
pub const ABC: &[u8] =
    b"HTTP/1.1 200 OK\r\nContent-Type: application/json\r\nContent-Length: 3\r\nConnection: keep-alive\r\n\r\nabc";

/// A GET of a route, 41 bytes.
pub const GET: &[u8] = b"GET /c/MILL01/rates HTTP/1.1\r\nA: b c d\r\n\r\n";

/// A POST with the body `abc`.
pub const POST_ABC: &[u8] = b"POST /ops/returns HTTP/1.1\r\nContent-Length: 3\r\n\r\nabc";

pub fn add(rt: &impl Abort, out: &mut Vec<u8>, bytes: &[u8]) {
    out.extend_from_slice(bytes).expect(rt, "memory");
}

/// Joins the texts, one after another.
pub fn join_texts(rt: &(impl Abort + Alloc<A = Global>), texts: &[&[u8]]) -> Vec<u8> {
    let mut out = Vec::new(rt.alloc());
    for text in texts {
        add(rt, &mut out, text);
    }
    out
}

/// Returns the text, repeated this many times.
pub fn many(rt: &(impl Abort + Alloc<A = Global>), text: &[u8], count: usize) -> Vec<u8> {
    let mut out = Vec::new(rt.alloc());
    for _ in 0..count {
        add(rt, &mut out, text);
    }
    out
}

pub fn front(rt: &(impl Abort + Alloc<A = Global>)) -> Front {
    Front {
        routes: Routes::new(rt.alloc()).expect(rt, "memory"),
        left: usize::MAX,
    }
}

pub fn sink(rt: &(impl Abort + Alloc<A = Global>)) -> Sink {
    Sink {
        taken: Vec::new(rt.alloc()),
        most: usize::MAX,
        room: usize::MAX,
        interruptions: 0,
        flush_interruptions: 0,
        good_flushes: u32::MAX,
    }
}

/// A session with this desk, reader and writer ends so, and the writer took these bytes.
pub fn runs(
    rt: &(impl Abort + Alloc<A = Global>),
    mut desk: Front,
    mut reader: Pieces<'_>,
    mut writer: Sink,
    end: Result<Ended, SessionFault>,
    written: &[u8],
) {
    let (text, _) = reader.bytes.split_at(reader.bytes.len().min(80));
    let most = reader.most;
    let ended = session(rt.alloc(), &mut desk, &mut reader, &mut writer);
    assert!(rt; ended == end, "{ended:?}: {text:?}.. in pieces of {most}");
    assert!(rt;
        writer.taken.as_slice() == written,
        "{text:?}.. in pieces of {most}"
    );
}

/// Checks that a session over the joined texts ends like this and writes these answers, if a read
/// gives at most this many bytes.
pub fn ends_over_pieces(
    rt: &(impl Abort + Alloc<A = Global>),
    texts: &[&[u8]],
    most: usize,
    end: Ended,
    answers: &[&[u8]],
) {
    let bytes = join_texts(rt, texts);
    let written = join_texts(rt, answers);
    let reader = Pieces::new(&bytes, most);
    runs(rt, front(rt), reader, sink(rt), Ok(end), &written);
}

/// Checks it in one read and in many.
pub fn ends(rt: &(impl Abort + Alloc<A = Global>), texts: &[&[u8]], end: Ended, answers: &[&[u8]]) {
    for most in [1, 2, 7, usize::MAX] {
        ends_over_pieces(rt, texts, most, end, answers);
    }
}
