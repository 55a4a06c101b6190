//! Sessions over the program's input and output: the answers to messages, and how the command ends.
use super::failing::{FaultyReader, FaultyWriter};
use super::lists::PAY_MESSAGE;
use desk_cli::{Status, answer_messages};
use std::alloc::{AllocError, Global};
use std::io::ErrorKind;
use std::test::Fail;

/// The operator registers the company `MILL01`.
pub const REGISTER: &str =
    "POST /ops/companies HTTP/1.1\r\nX-Desk-Key: operator-key\r\nContent-Length: 146\r\n\r\n{\"id\":\"MILL01\",\"name\":\"MILL STREET\",\"key\":\"mill-street-key\",\"entry_limit\":9999999999,\"credit_limit\":999999999999999,\"debit_limit\":999999999999999}";

pub const REGISTERED: &str =
    "HTTP/1.1 201 Created\r\nContent-Type: application/json\r\nContent-Length: 15\r\nConnection: keep-alive\r\n\r\n{\"id\":\"MILL01\"}";

/// The operator sets the desk day.
pub const SET_DAY: &str =
    "POST /ops/day HTTP/1.1\r\nX-Desk-Key: operator-key\r\nContent-Length: 20\r\n\r\n{\"day\":\"2025-01-08\"}";

/// The same without its last byte.
const SET_DAY_CUT: &str =
    "POST /ops/day HTTP/1.1\r\nX-Desk-Key: operator-key\r\nContent-Length: 20\r\n\r\n{\"day\":\"2025-01-08\"";

pub const DAY_SET: &str =
    "HTTP/1.1 200 OK\r\nContent-Type: application/json\r\nContent-Length: 20\r\nConnection: keep-alive\r\n\r\n{\"day\":\"2025-01-08\"}";

/// The pay run of the list is taken as the company's first order.
pub const PAY_TAKEN: &str =
    "HTTP/1.1 201 Created\r\nContent-Type: application/json\r\nContent-Length: 52\r\nConnection: keep-alive\r\n\r\n{\"cents\":150000,\"entries\":1,\"order\":1,\"ref\":\"PAY-1\"}";

/// Nobody has this key.
const WRONG_KEY: &str = "GET /ops/suspense HTTP/1.1\r\nX-Desk-Key: another-key\r\n\r\n";

const DENIED: &str =
    "HTTP/1.1 403 Forbidden\r\nContent-Type: application/json\r\nContent-Length: 18\r\nConnection: keep-alive\r\n\r\n{\"error\":\"Denied\"}";

const DENIED_AT_LAST: &str =
    "HTTP/1.1 403 Forbidden\r\nContent-Type: application/json\r\nContent-Length: 18\r\nConnection: close\r\n\r\n{\"error\":\"Denied\"}";

/// No message, and after it the session is closed.
const NO_MESSAGE: &str = "no message\r\n\r\n";

const BAD_HEAD: &str =
    "HTTP/1.1 400 Bad Request\r\nContent-Type: application/json\r\nContent-Length: 19\r\nConnection: close\r\n\r\n{\"error\":\"BadHead\"}";

/// Messages, how a session over them ends, and its answers.
const SESSIONS: &[(&[&str], Status, &[&str])] = &[
    // A session ends with its input.
    (&[], Status::Done, &[]),
    (&[REGISTER, SET_DAY], Status::Done, &[REGISTERED, DAY_SET]),
    // The message of a list is taken.
    (
        &[REGISTER, SET_DAY, PAY_MESSAGE],
        Status::Done,
        &[REGISTERED, DAY_SET, PAY_TAKEN],
    ),
    // A message that closes ends the session.
    (
        &[WRONG_KEY, NO_MESSAGE, SET_DAY],
        Status::Done,
        &[DENIED, BAD_HEAD],
    ),
    // An input that ends inside a message is cut.
    (&[SET_DAY, "POST /ops/day HT"], Status::Refused, &[DAY_SET]),
    (&[SET_DAY, SET_DAY_CUT], Status::Refused, &[DAY_SET]),
];

/// Puts texts one after another.
pub fn join(alloc: Global, texts: &[&str]) -> Result<Vec<u8>, AllocError> {
    let mut all = Vec::new(alloc);
    for text in texts {
        all.extend_from_slice(text.as_bytes())?;
    }
    Ok(all)
}

// Returns this many copies of a text, followed by another one.
fn copies(alloc: Global, text: &str, count: usize, last: &str) -> Result<Vec<u8>, AllocError> {
    let mut all = Vec::new(alloc);
    for _ in 0..count {
        all.extend_from_slice(text.as_bytes())?;
    }
    all.extend_from_slice(last.as_bytes())?;
    Ok(all)
}

// Does a session over these bytes end so, and print these?
fn answers(alloc: Global, input: &[u8], status: Status, wanted: &[u8]) -> bool {
    let mut input = input;
    let mut printed = Vec::new(alloc);
    let ended = answer_messages(alloc, &mut input, &mut printed);
    ended == status && printed.as_slice() == wanted
}

#[test]
fn sessions(rt: HostRuntime) -> Result<(), Fail> {
    for &(messages, status, texts) in SESSIONS {
        let input = join(rt.alloc(), messages)?;
        let wanted = join(rt.alloc(), texts)?;
        assert!(rt;
            answers(rt.alloc(), input.as_slice(), status, wanted.as_slice()),
            "{messages:?}"
        );
    }
    Ok(())
}

#[test]
fn a_session_takes_a_thousand_messages(rt: HostRuntime) -> Result<(), Fail> {
    let input = copies(rt.alloc(), WRONG_KEY, 1_000, WRONG_KEY)?;
    let wanted = copies(rt.alloc(), DENIED, 999, DENIED_AT_LAST)?;
    assert!(rt;
        answers(
            rt.alloc(),
            input.as_slice(),
            Status::Done,
            wanted.as_slice()
        )
    );
    Ok(())
}

#[test]
fn a_fault_of_the_reader_fails(rt: HostRuntime) -> Result<(), Fail> {
    let input = join(rt.alloc(), &[SET_DAY, WRONG_KEY])?;
    let mut reader = FaultyReader {
        interruptions: 7,
        failure: Some(ErrorKind::ConnectionReset),
        left: WRONG_KEY.len(),
        rest: input.as_slice(),
    };
    let mut printed = Vec::new(rt.alloc());
    let ended = answer_messages(rt.alloc(), &mut reader, &mut printed);
    assert!(rt; ended == Status::Failed && printed.as_slice() == DAY_SET.as_bytes());
    Ok(())
}

#[test]
fn a_fault_of_the_writer_fails(rt: HostRuntime) -> Result<(), Fail> {
    let input = join(rt.alloc(), &[SET_DAY, WRONG_KEY])?;
    let mut writer = FaultyWriter {
        text: Vec::new(rt.alloc()),
        interruptions: 7,
        failure: Some(ErrorKind::BrokenPipe),
        room: 40,
    };
    let ended = answer_messages(rt.alloc(), &mut input.as_slice(), &mut writer);
    assert!(rt; ended == Status::Failed);
    assert!(rt; Some(writer.text.as_slice()) == DAY_SET.as_bytes().get(..40));
    Ok(())
}
