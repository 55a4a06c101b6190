//! These files have something wrong.
use super::samples::{lines, read, reads_as, return_file};
use crate::formats::worked::{ADDENDA, BATCH, BATCH_CONTROL, CONTROL, ENTRY, FILLER, HEADER, SENT};
use ach_files::{Fault, FileFault};
use std::alloc::AllocError;
use std::test::Fail;

/// Bytes put into the file of the return, each in a record from 1 at an offset from 0, and the
/// fault in that record.
const CHANGES: &[(u32, usize, u8, FileFault)] = &[
    // Debits and credits of the batch, then of the file.
    (5, 31, b'1', FileFault::BadTotal),
    (5, 43, b'1', FileFault::BadTotal),
    (6, 42, b'1', FileFault::BadTotal),
    (6, 54, b'1', FileFault::BadTotal),
    (5, 19, b'9', FileFault::BadHash),
    (6, 30, b'9', FileFault::BadHash),
    // Entries of the batch and of the file, and batches.
    (5, 9, b'3', FileFault::BadCount),
    (6, 20, b'3', FileFault::BadCount),
    (6, 6, b'2', FileFault::BadCount),
    (6, 12, b'2', FileFault::BadBlock),
    (3, 2, b'2', FileFault::ForwardEntry),
    (3, 2, b'7', FileFault::ForwardEntry),
    // A transaction code, an amount, a count, and an entry in place of an addenda.
    (3, 1, b' ', FileFault::BadNumber),
    (3, 38, b'x', FileFault::BadNumber),
    (5, 4, b' ', FileFault::BadNumber),
    (4, 0, b'6', FileFault::BadNumber),
    // A change with an amount, and an addenda of another type.
    (4, 2, b'8', FileFault::BadAddenda),
    (4, 2, b'7', FileFault::BadAddenda),
    // Records of other kinds.
    (1, 0, b'5', FileFault::BadOrder),
    (2, 0, b'1', FileFault::BadOrder),
    (3, 0, b'2', FileFault::BadOrder),
    (6, 0, b'8', FileFault::BadOrder),
    (7, 93, b'8', FileFault::BadOrder),
    (4, 40, 0x7f, FileFault::BadByte),
    (4, 40, 0x1f, FileFault::BadByte),
    (1, 0, b'\n', FileFault::BadLength),
    (3, 50, b'\r', FileFault::BadLength),
];

fn with_byte(record: u32, offset: usize, byte: u8) -> [u8; 950] {
    let mut file = return_file();
    for line in file
        .chunks_mut(95)
        .skip((record as usize).saturating_sub(1))
        .take(1)
    {
        if let Some(place) = line.get_mut(offset) {
            *place = byte;
        }
    }
    file
}

#[test]
fn changes_of_one_byte(rt: HostRuntime) {
    for &(at, offset, byte, kind) in CHANGES {
        let file = with_byte(at, offset, byte);
        assert!(rt;
            reads_as(&rt, &file, Err(Fault { kind, at })),
            "record {at}, from {offset}"
        );
    }
}

/// Texts after this many bytes of the file of the return, whose last record has the number 10: 950
/// bytes end with an LF, 949 with the last nine.
const TAILS: &[(usize, &[u8], FileFault, u32)] = &[
    // They begin a record.
    (950, b" ", FileFault::BadLength, 11),
    (950, b"9", FileFault::BadLength, 11),
    (949, b"\r\n9", FileFault::BadLength, 11),
    (950, b"\x7f", FileFault::BadByte, 11),
    (949, b"\n\x1f", FileFault::BadByte, 11),
    // They come after empty lines.
    (950, b"\n ", FileFault::BadLength, 10),
    (950, b"\r9", FileFault::BadLength, 10),
    (950, b"\n\r\x7f", FileFault::BadLength, 10),
    (949, b"\r ", FileFault::BadLength, 10),
    (949, b"\r\r9", FileFault::BadLength, 10),
    (949, b"\n\n9", FileFault::BadLength, 10),
    (949, b"\r\n\n1", FileFault::BadLength, 10),
];

fn with_tail(rt: &HostRuntime, length: usize, tail: &[u8]) -> Result<Vec<u8>, AllocError> {
    let mut text = Vec::new(rt.alloc());
    text.extend_from_slice(return_file().get(..length).unwrap_or(b""))?;
    text.extend_from_slice(tail)?;
    Ok(text)
}

#[test]
fn tails(rt: HostRuntime) -> Result<(), Fail> {
    for (row, &(length, tail, kind, at)) in TAILS.iter().enumerate() {
        let text = with_tail(&rt, length, tail)?;
        assert!(rt; reads_as(&rt, &text, Err(Fault { kind, at })), "row {row}");
    }
    Ok(())
}

/// Records of the return in another order, and what is wrong in which record from 1.
const ORDERS: &[(&[&[u8; 94]], FileFault, u32)] = &[
    (&[BATCH], FileFault::BadOrder, 1),
    (&[HEADER, ENTRY], FileFault::BadOrder, 2),
    (&[HEADER, ADDENDA], FileFault::BadOrder, 2),
    (&[HEADER, FILLER], FileFault::BadOrder, 2),
    (&[HEADER, BATCH, ADDENDA], FileFault::BadOrder, 3),
    (&[HEADER, BATCH, FILLER], FileFault::BadOrder, 3),
    (&[HEADER, BATCH, ENTRY, CONTROL], FileFault::BadOrder, 4),
    (&[HEADER, BATCH, ENTRY, ENTRY], FileFault::BadAddenda, 4),
    (
        &[HEADER, BATCH, ENTRY, BATCH_CONTROL],
        FileFault::BadAddenda,
        4,
    ),
    (
        &[HEADER, BATCH, ENTRY, ADDENDA, ADDENDA],
        FileFault::BadAddenda,
        5,
    ),
    (&[HEADER, BATCH, BATCH_CONTROL], FileFault::BadCount, 3),
    (&[HEADER, CONTROL], FileFault::BadCount, 2),
];

#[test]
fn records_out_of_order(rt: HostRuntime) -> Result<(), Fail> {
    for (row, &(records, kind, at)) in ORDERS.iter().enumerate() {
        let text = lines(&rt, records, 0, b"\n")?;
        assert!(rt; read(&rt, &text) == Err(Fault { kind, at }), "row {row}");
    }
    Ok(())
}

#[test]
fn live_entry(rt: HostRuntime) -> Result<(), Fail> {
    let forward = Fault {
        kind: FileFault::ForwardEntry,
        at: 3,
    };
    assert!(rt; read(&rt, &lines(&rt, &SENT, 5, b"\n")?) == Err(forward));
    Ok(())
}

const FAULTS: &[(FileFault, u8, &str)] = &[
    (FileFault::TooLarge, 1, "TooLarge"),
    (FileFault::BadLength, 2, "BadLength"),
    (FileFault::BadByte, 3, "BadByte"),
    (FileFault::BadOrder, 4, "BadOrder"),
    (FileFault::BadNumber, 5, "BadNumber"),
    (FileFault::ForwardEntry, 6, "ForwardEntry"),
    (FileFault::BadAddenda, 7, "BadAddenda"),
    (FileFault::BadCount, 8, "BadCount"),
    (FileFault::BadHash, 9, "BadHash"),
    (FileFault::BadTotal, 10, "BadTotal"),
    (FileFault::BadBlock, 11, "BadBlock"),
    (FileFault::NoMemory, 12, "NoMemory"),
    (FileFault::Failed, 13, "Failed"),
];

#[test]
fn names_and_numbers(rt: HostRuntime) {
    for &(fault, number, name) in FAULTS {
        assert!(rt; fault.number() == number);
        assert!(rt; fault.name() == name);
    }
}
