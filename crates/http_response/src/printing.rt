//! Printing responses, with growth and without.
ghost use Rattle.std.specs.Prelude.{◌≡◌, ◌+◌, ◌≤◌, ◌++◌, [], length, codes, decimal, unwrap_or, IfOk, vec_capacity};
ghost use Rattle.http.specs.StatusCode.{reason_phrase};
ghost use Rattle.http_response.specs.Response.{text_of, connection, content_type, head_text, header_lines, line, size_with_line, status_line};

use crate::response::{Content, Response};
use http::StatusCode;
use itoa::Buffer;
use std::alloc::{AllocError, Global};

/// Room for all of a response but its body.
pub const HEAD_ROOM: usize = 256;

/// Room for a response whose body is short, which is taken before it is known.
pub const ROOM: usize = 1_024;

fn content_type_of(content: Content) -> &'static str
    ensures text { result.now ≡ content_type content }
    ensures short { length result.now ≤ 16 }
{
    match content {
        Content::Json => "application/json",
        Content::PlainText => "text/plain",
    }
}

fn connection_of(closes: bool) -> &'static str
    ensures text { result.now ≡ connection closes }
    ensures short { length result.now ≤ 10 }
{
    if closes { "close" } else { "keep-alive" }
}

fn phrase_of(status: StatusCode) -> &'static str
    ensures text { result.now ≡ unwrap_or (reason_phrase status) [] }
    ensures short { length result.now ≤ 31 }
{
    match status.canonical_reason() {
        Some(phrase) => phrase,
        None => "",
    }
}

/// Appends bytes for which there is room, so that no memory is taken.
fn put(out: &mut Vec<u8>, bytes: &[u8])
    requires { length out.old.items + length bytes.now ≤ vec_capacity out.old }
    ensures items { out.new.items ≡ out.old.items ++ bytes.now }
    ensures size { length out.new.items ≡ length out.old.items + length bytes.now }
    ensures capacity { vec_capacity out.old ≤ vec_capacity out.new }
{
    let _ = out.extend_from_slice(bytes);
}

/// Appends a line of the head, for which there is room.
#[tactic(auto, unfolding(crate::specs::Response::line))]
fn put_line(out: &mut Vec<u8>, name: &[u8], value: &[u8])
    requires { size_with_line out.old.items name.now value.now ≤ vec_capacity out.old }
    ensures items { out.new.items ≡ out.old.items ++ line name.now value.now }
    ensures size { length out.new.items ≡ size_with_line out.old.items name.now value.now }
    ensures capacity { vec_capacity out.old ≤ vec_capacity out.new }
{
    put(out, name);
    put(out, value);
    put(out, b"\r\n");
}

/// Appends the status line, for which there is room.
#[tactic(auto, unfolding(crate::specs::Response::status_line))]
fn put_status(out: &mut Vec<u8>, status: StatusCode)
    requires { length out.old.items + 80 ≤ vec_capacity out.old }
    ensures items { out.new.items ≡ out.old.items ++ status_line status }
    ensures size { length out.new.items ≤ length out.old.items + 80 }
    ensures capacity { vec_capacity out.old ≤ vec_capacity out.new }
{
    let mut digits = Buffer::new();
    put(out, b"HTTP/1.1 ");
    put(out, digits.format(status.as_u16()).as_bytes());
    put_line(out, b" ", phrase_of(status).as_bytes());
}

/// Appends the size of the body, for which there is room.
fn put_size(out: &mut Vec<u8>, size: usize)
    requires { length out.old.items + 60 ≤ vec_capacity out.old }
    ensures items { out.new.items ≡ out.old.items ++ line (codes "Content-Length: ")
        (decimal size) }
    ensures size { length out.new.items ≤ length out.old.items + 60 }
    ensures capacity { vec_capacity out.old ≤ vec_capacity out.new }
{
    let mut digits = Buffer::new();
    put_line(out, b"Content-Length: ", digits.format(size).as_bytes());
}

/// Appends the three headers and the empty line, for which there is room.
fn put_headers(out: &mut Vec<u8>, content: Content, closes: bool, size: usize)
    requires { length out.old.items + 160 ≤ vec_capacity out.old }
    ensures items { out.new.items ≡ out.old.items ++ header_lines content closes size }
    ensures size { length out.new.items ≤ length out.old.items + 160 }
    ensures capacity { vec_capacity out.old ≤ vec_capacity out.new }
{
    put_line(out, b"Content-Type: ", content_type_of(content).as_bytes());
    put_size(out, size);
    put_line(out, b"Connection: ", connection_of(closes).as_bytes());
    put_line(out, b"", b"");
}

/// Appends the head of a response, for which there is room.
pub(crate) fn put_head(
    out: &mut Vec<u8>,
    status: StatusCode,
    content: Content,
    closes: bool,
    size: usize,
)
    requires { length out.old.items + HEAD_ROOM ≤ vec_capacity out.old }
    ensures items { out.new.items ≡ out.old.items ++ head_text status content closes size }
    ensures size { length out.new.items ≤ length out.old.items + HEAD_ROOM }
    ensures capacity { vec_capacity out.old ≤ vec_capacity out.new }
{
    put_status(out, status);
    put_headers(out, content, closes, size);
}

/// Appends a response for which there is room, so that no memory is taken.
pub fn put_response(out: &mut Vec<u8>, response: &Response<'_>)
    requires { length out.old.items + HEAD_ROOM + length response.now.body.now ≤ vec_capacity
        out.old }
    ensures { out.new.items ≡ out.old.items ++ text_of response.now }
{
    let size = response.body.len();
    put_head(
        out,
        response.status,
        response.content,
        response.closes,
        size,
    );
    put(out, response.body);
}

/// The bytes of a response, or that memory was refused.
pub fn print_response(alloc: Global, response: &Response<'_>) -> Result<Vec<u8>, AllocError>
    ensures { IfOk result (λ bytes. bytes.items ≡ text_of response.now) }
{
    let mut out = Vec::with_capacity(alloc, HEAD_ROOM + response.body.len())?;
    put_response(&mut out, response);
    Ok(out)
}

/// Room for a response whose body has at most `ROOM - HEAD_ROOM` bytes, or that memory was refused.
pub fn take_room(alloc: Global) -> Result<Vec<u8>, AllocError>
    ensures empty { IfOk result (λ room. room.items ≡ []) }
    ensures enough { IfOk result (λ room. ROOM ≤ vec_capacity room) }
{
    Vec::with_capacity(alloc, ROOM)
}
