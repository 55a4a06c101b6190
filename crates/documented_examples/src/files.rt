//! Incoming files: `examples/returns.ach` with changes made to it, and what a check prints of it then.
use ach_files::Reader;
use cli_commands::check_file;
use std::alloc::{AllocError, Global};
use std::{fs, io};

/// A record and its line feed.
const LINE: usize = 95;

/// What a check prints of the file with these changes, one a line.
pub(crate) fn file_answer(rt: &HostRuntime, changes: &str) -> io::Result<Vec<u8>> {
    let file = changed_file(rt, changes)?;
    let mut answer = Vec::new(rt.alloc());
    let _status = check_file(rt.alloc(), &mut file.as_slice(), &mut answer);
    Ok(answer)
}

/// What a reader tells that was fed the file with these changes, when it is asked again.
pub(crate) fn answer_again(rt: &HostRuntime, changes: &str) -> io::Result<Vec<u8>> {
    let file = changed_file(rt, changes)?;
    let mut reader = Reader::new(rt.alloc());
    let _first = reader.feed(file.as_slice());
    let line = match reader.finish() {
        Ok(_) => String::from_str(rt.alloc(), "ok\n")?,
        Err(fault) => {
            let name = fault.kind.name();
            let at = fault.at;
            format!(in rt.alloc(); "{name} at record {at}\n")?
        }
    };
    Ok(line.into_bytes())
}

fn changed_file(rt: &HostRuntime, changes: &str) -> io::Result<Vec<u8>> {
    let mut file = fs::read(rt, "examples/returns.ach")?;
    for change in changes.lines() {
        file = apply_change(rt.alloc(), file, change)?;
    }
    Ok(file)
}

// `record N from P is TEXT`, `record N is left out`, `only the first N bytes`, `N line feeds more`.
fn apply_change(alloc: Global, file: Vec<u8>, change: &str) -> Result<Vec<u8>, AllocError> {
    match (word(change, 0), word(change, 2)) {
        ("record", "from") => Ok(overwrite_record(file, change)),
        ("record", _) => without_record(alloc, file.as_slice(), number(change, 1)),
        ("only", _) => Ok(first_bytes(file, number(change, 3))),
        _ => add_line_feeds(file, number(change, 0)),
    }
}

fn word(change: &str, place: usize) -> &str {
    change.split(' ').nth(place).unwrap_or("")
}

fn number(change: &str, place: usize) -> usize {
    word(change, place).parse::<usize>().unwrap_or(0)
}

// Positions count from 1.
fn overwrite_record(mut file: Vec<u8>, change: &str) -> Vec<u8> {
    let record = LINE.saturating_mul(number(change, 1).saturating_sub(1));
    let from = record.saturating_add(number(change, 3).saturating_sub(1));
    let text = change.splitn(6, ' ').nth(5).unwrap_or("");
    for (place, byte) in text.bytes().enumerate() {
        if let Some(there) = file.as_mut_slice().get_mut(from.saturating_add(place)) {
            *there = byte;
        }
    }
    file
}

fn without_record(alloc: Global, file: &[u8], number: usize) -> Result<Vec<u8>, AllocError> {
    let mut rest = Vec::new(alloc);
    for (place, record) in file.chunks(LINE).enumerate() {
        if place.saturating_add(1) != number {
            rest.extend_from_slice(record)?;
        }
    }
    Ok(rest)
}

fn first_bytes(mut file: Vec<u8>, bytes: usize) -> Vec<u8> {
    file.truncate(bytes);
    file
}

fn add_line_feeds(mut file: Vec<u8>, line_feeds: usize) -> Result<Vec<u8>, AllocError> {
    file.resize(file.len().saturating_add(line_feeds), b'\n')?;
    Ok(file)
}
