//! A message that is answered outside of a session.
use crate::samples::new_lists;
use desk_core::Desk;
use desk_http::{Message, Routes, answer};
use json::Scratch;
use std::test::Fail;

const BAD_HEAD: &[u8] =
    b"HTTP/1.1 400 Bad Request\r\nContent-Type: application/json\r\nContent-Length: 19\r\nConnection: close\r\n\r\n{\"error\":\"BadHead\"}";

#[test]
fn a_message_is_answered(rt: HostRuntime) -> Result<(), Fail> {
    let routes = Routes::new(rt.alloc())?;
    let mut desk = Desk::new(new_lists(&rt));
    let mut scratch = Scratch::new(rt.alloc());
    let bytes = answer(
        rt.alloc(),
        &mut desk,
        &routes,
        &mut scratch,
        Message::BadHead,
    )
    .ok()
    .ok_or("memory")?;
    assert!(rt; bytes.as_slice() == BAD_HEAD);
    Ok(())
}
