//! Answers that are cut off, since the writer fails inside one: the command is done, and the same message
//! sent again to the same desk is answered as it would have been.
use crate::exchanges::{add_request, add_response, follow, http_desk};
use crate::samples::{DAY_8, Exchange, HOLIDAYS, MILL, SUBMIT_1, new_lists};
use http_session::{SessionFault, session};
use std::alloc::Global;
use std::io;
use std::io::{ErrorKind, Write};
use std::process::Abort;

/// The submission is held.
const LOOK_UP_1: Exchange = (
    "MILL01 GET /c/MILL01/submissions/PAY-1",
    "",
    "200 OK",
    r#"{"cents":150000,"day":"2025-01-10","direction":"credit","entries":[{"cents":150000,"index":1,"state":"held"}],"order":1,"ref":"PAY-1","sec":"PPD"}"#,
);

// A writer that fails once it has no room.
#[derive(Drop)]
struct Narrow {
    taken: Vec<u8>,
    room: usize,
}

impl Write for Narrow {
    fn write(&mut self, buf: &[u8]) -> io::Result<usize> {
        let count = buf.len().min(self.room);
        if count == 0 && !buf.is_empty() {
            return Err(ErrorKind::BrokenPipe.into());
        }
        if self.taken.extend_from_slice(&buf[..count]).is_err() {
            return Err(ErrorKind::OutOfMemory.into());
        }
        self.room -= count;
        Ok(count)
    }

    fn flush(&mut self) -> io::Result<()> {
        Ok(())
    }
}

// Sends a submission to a new desk, and takes this number of bytes of the answer.
fn is_done_and_answered_again(
    rt: &(impl Abort + Alloc<A = Global>),
    input: &[u8],
    answer: &[u8],
    room: usize,
) {
    let mut desk = http_desk(rt, new_lists(rt));
    follow(rt, &mut desk, "before", &[HOLIDAYS, MILL, DAY_8]);
    let mut reader = input;
    let mut writer = Narrow {
        taken: Vec::new(rt.alloc()),
        room,
    };
    let ended = session(rt.alloc(), &mut desk, &mut reader, &mut writer);
    assert!(rt; ended == Err(SessionFault::Write), "{room}");
    assert!(rt;
        Some(writer.taken.as_slice()) == answer.get(..room),
        "{room}"
    );
    follow(rt, &mut desk, "after", &[LOOK_UP_1, SUBMIT_1]);
}

#[test]
fn a_submission_is_done_though_its_answer_is_cut_off(rt: HostRuntime) {
    let (asks, body, status, text) = SUBMIT_1;
    let mut input = Vec::new(rt.alloc());
    add_request(&rt, &mut input, asks, body);
    let mut answer = Vec::new(rt.alloc());
    add_response(&rt, &mut answer, asks, status, text);
    for room in 0..answer.len() {
        is_done_and_answered_again(&rt, &input, &answer, room);
    }
}
