//! A desk's file of version 1 is migrated, and the desk answers as before. Other files are not migrated.
use super::paths::{change_database, clear};
use crate::crashes::exchanges::{add, add_answers, add_requests};
use crate::crashes::scripts::DAYS;
use desk_cli::run_words;
use std::fs;
use std::process::Abort;
use std::test::Fail;

/// Takes from a desk's file what version 1 did not have.
const TO_VERSION_1: &str =
    "DROP TABLE numbers; DROP TABLE authorizations; UPDATE desk SET version = 1";

/// After the bank's days come the reads of all else that a company and the operator may ask.
const READS: [&str; 11] = [
    "GET /c/MILL01/returns HTTP/1.1\r\nX-Desk-Key: mill-street-key\r\n\r\n",
    "GET /c/MILL01/changes HTTP/1.1\r\nX-Desk-Key: mill-street-key\r\n\r\n",
    "GET /c/MILL01/rates HTTP/1.1\r\nX-Desk-Key: mill-street-key\r\n\r\n",
    "GET /c/MILL01/exposure HTTP/1.1\r\nX-Desk-Key: mill-street-key\r\n\r\n",
    "GET /c/MILL01/submissions/PAY-1 HTTP/1.1\r\nX-Desk-Key: mill-street-key\r\n\r\n",
    "GET /c/MILL01/submissions/PAY-2 HTTP/1.1\r\nX-Desk-Key: mill-street-key\r\n\r\n",
    "GET /ops/files/2025-01-08/A HTTP/1.1\r\nX-Desk-Key: operator-key\r\n\r\n",
    "GET /ops/files/2025-01-09/A HTTP/1.1\r\nX-Desk-Key: operator-key\r\n\r\n",
    "GET /ops/suspense HTTP/1.1\r\nX-Desk-Key: operator-key\r\n\r\n",
    "GET /ops/status HTTP/1.1\r\nX-Desk-Key: operator-key\r\n\r\n",
    "GET /ops/companies HTTP/1.1\r\nX-Desk-Key: operator-key\r\n\r\n",
];

/// The words that make a desk of the sample bank, but for its path.
const BANK: [&str; 5] = [
    "--odfi=121042882",
    "--odfi-name=OUR BANK",
    "--destination=061000146",
    "--destination-name=ACH OPERATOR",
    "--key=operator-key",
];

// It has no clause, so that no test carries what the call promises.
fn carry_out(host: &HostRuntime, words: &[&str], input: &[u8], output: &mut Vec<u8>) -> u8 {
    let mut input = input;
    run_words(host, words, &mut input, output)
}

// Does the command of these words end with this exit status over this input, and print this?
fn prints(host: &HostRuntime, words: &[&str], input: &[u8], code: u8, text: &[u8]) -> bool {
    let mut printed = Vec::new(host.alloc());
    let given = carry_out(host, words, input, &mut printed);
    given == code && printed.as_slice() == text
}

// Is a desk made at this path, after an earlier one is removed?
fn is_made(host: &HostRuntime, path: &str) -> Result<bool, Fail> {
    clear(host, path)?;
    let [odfi, odfi_name, destination, destination_name, key] = BANK;
    let words = [
        "init",
        path,
        odfi,
        odfi_name,
        destination,
        destination_name,
        key,
    ];
    Ok(prints(host, &words, b"", 0, b"created\n"))
}

// Does a session with the desk in this file answer a bank's days as it has to? The statement and the
// settlement are the last that is asked.
fn answers_days(host: &HostRuntime, rt: &impl Abort, path: &str) -> bool {
    let mut input = Vec::new(host.alloc());
    add_requests(rt, &mut input, DAYS.messages);
    let mut wanted = Vec::new(host.alloc());
    add_answers(rt, &mut wanted, DAYS.messages);
    prints(host, &["stdio", path], &input, 0, &wanted)
}

// Returns the answers of the desk in this file.
fn told(host: &HostRuntime, rt: &impl Abort, path: &str) -> Result<Vec<u8>, Fail> {
    let mut input = Vec::new(host.alloc());
    let reads = DAYS.messages.len().saturating_sub(2);
    add_requests(rt, &mut input, DAYS.messages.get(reads..).ok_or("reads")?);
    for read in READS {
        add(rt, &mut input, read.as_bytes());
    }
    let mut told = Vec::new(host.alloc());
    assert!(rt; carry_out(host, &["stdio", path], input.as_slice(), &mut told) == 0);
    let answers = str::from_utf8(&told)?
        .matches("HTTP/1.1 200 OK\r\n")
        .count();
    assert!(rt; answers == READS.len() + 2);
    Ok(told)
}

#[test]
fn a_desk_of_version_1_is_migrated_and_answers_as_before(rt: HostRuntime) -> Result<(), Fail> {
    let path = "of_version_1.db";
    assert!(rt; is_made(&rt, path)?);
    assert!(rt; answers_days(&rt, &rt, path));
    let before = told(&rt, &rt, path)?;
    change_database(&rt, &rt, path, TO_VERSION_1)?;
    assert!(rt; prints(&rt, &["stdio", path], b"", 1, b"WrongVersion 1\n"));
    assert!(rt; prints(&rt, &["migrate", path], b"", 0, b"migrated 1 to 2\n"));
    assert!(rt; told(&rt, &rt, path)? == before);
    assert!(rt; is_refused(&rt, path, "WrongVersion 2\n"));
    clear(&rt, path)
}

// Is this file refused by `migrate`, with this line?
fn is_refused(rt: &HostRuntime, path: &str, line: &str) -> bool {
    prints(rt, &["migrate", path], b"", 1, line.as_bytes())
}

#[test]
fn what_is_no_desk_is_not_migrated(rt: HostRuntime) -> Result<(), Fail> {
    let path = "no_desk.db";
    clear(&rt, path)?;
    assert!(rt; is_refused(&rt, path, "NotADesk\n"));
    assert!(rt; !fs::exists(&rt, path)?);
    fs::write(&rt, path, b"")?;
    assert!(rt; is_refused(&rt, path, "NotADesk\n"));
    clear(&rt, path)
}

#[test]
fn a_desk_of_today_is_not_migrated(rt: HostRuntime) -> Result<(), Fail> {
    let path = "of_today.db";
    assert!(rt; is_made(&rt, path)?);
    assert!(rt; is_refused(&rt, path, "WrongVersion 2\n"));
    clear(&rt, path)
}
