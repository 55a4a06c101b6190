//! A response around a body that was written before.
ghost use Rattle.std.specs.Prelude.{◌≡◌, ◌+◌, ◌++◌, length, take, IfOk};
ghost use Rattle.http_response.specs.Response.{response_text};

use crate::printing::{HEAD_ROOM, put_head};
use crate::response::Content;
use http::StatusCode;
use std::alloc::{AllocError, Global};

/// Moves this many bytes of a room to its end, and puts others before them that fill the rest of
/// it.
fn move_behind(room: &mut [u8], first: &[u8], size: usize)
    requires { length room.old ≡ length first.now + size }
    ensures { room.new ≡ first.now ++ take size room.old }
{
    room.copy_within(..size, first.len());
    room[..first.len()].copy_from_slice(first);
}

/// Puts bytes before those that a list has, which move to make place for them.
fn put_before(bytes: &mut Vec<u8>, first: &[u8]) -> Result<(), AllocError>
    ensures { IfOk result (λ _. bytes.new.items ≡ first.now ++ bytes.old.items) }
{
    let size = bytes.len();
    bytes.resize(first.len() + size, 0)?;
    move_behind(bytes, first, size);
    Ok(())
}

/// Gives the bytes of a response, or that memory was refused. The body stays in its place of memory, so a
/// large one is there once.
pub fn wrap_response(
    alloc: Global,
    body: Vec<u8>,
    status: StatusCode,
    content: Content,
    closes: bool,
) -> Result<Vec<u8>, AllocError>
    ensures { IfOk result (λ bytes. bytes.items ≡ response_text status content closes body.items) }
{
    let mut head = Vec::with_capacity(alloc, HEAD_ROOM)?;
    put_head(&mut head, status, content, closes, body.len());
    let mut bytes = body;
    put_before(&mut bytes, &head)?;
    Ok(bytes)
}
