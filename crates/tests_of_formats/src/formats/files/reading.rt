//! These files are read.
ghost use Rattle.std.specs.Prelude.{◌≤◌};

use super::samples::{
    RETURNED_DIGEST, lines, only_item, put_lines, read, read_in_pieces, reads_as, return_file,
};
use crate::formats::worked::{ADDENDA, BATCH, ENTRY, HEADER, RETURNED};
use ach_files::{Fault, FileFault, ReturnOrChange, read_file};
use std::alloc::AllocError;
use std::test::Fail;

#[test]
fn key_and_digest(rt: HostRuntime) -> Result<(), Fail> {
    let file = return_file();
    let incoming = read_file(rt.alloc(), &file)?;
    assert!(rt; &incoming.key() == b" 0610001462501140930A");
    assert!(rt; incoming.digest() == RETURNED_DIGEST);
    Ok(())
}

#[test]
fn returned_entry(rt: HostRuntime) -> Result<(), Fail> {
    let facts = only_item(&rt, &return_file())?;
    assert!(rt; &facts.sec_code == b"PPD");
    assert!(rt; facts.transaction_code == 26);
    assert!(rt; facts.cents.get() == 2500);
    assert!(rt; &facts.code == b"R01");
    assert!(rt; &facts.original_trace == b"121042880000001");
    assert!(rt; &facts.original_dfi == b"09100001");
    assert!(rt; facts.return_or_change == ReturnOrChange::Return([b' '; 44]));
    Ok(())
}

// A file control of no batch, for which there is one block, and one that says two.
const NO_BATCH_CONTROL: &[u8; 94] =
    b"9000000000001000000000000000000000000000000000000000000                                       ";

const CONTROL_OF_TWO_BLOCKS: &[u8; 94] =
    b"9000000000002000000000000000000000000000000000000000000                                       ";

#[test]
fn no_batch(rt: HostRuntime) -> Result<(), Fail> {
    let one = lines(&rt, &[HEADER, NO_BATCH_CONTROL], 0, b"\n")?;
    assert!(rt; read(&rt, &one) == Ok(0));
    let two = lines(&rt, &[HEADER, CONTROL_OF_TWO_BLOCKS], 0, b"\n")?;
    let block = Fault {
        kind: FileFault::BadBlock,
        at: 2,
    };
    assert!(rt; read(&rt, &two) == Err(block));
    Ok(())
}

/// The end of each line, and the number of fillers.
const LINES: &[(&[u8], usize)] = &[
    (b"\n", 0),
    (b"\n", 4),
    (b"\n", 40),
    (b"\r\n", 0),
    (b"\r\n", 4),
    (b"\r\n", 40),
    (b"", 0),
    (b"", 4),
    (b"", 40),
];

#[test]
fn line_ends(rt: HostRuntime) -> Result<(), Fail> {
    for (row, &(end, fillers)) in LINES.iter().enumerate() {
        assert!(rt;
            read(&rt, &lines(&rt, &RETURNED, fillers, end)?) == Ok(1),
            "row {row}"
        );
    }
    Ok(())
}

// The outcome of the first bytes of the file of ten lines: they are whole where they end with the file
// control or a filler, with or without its LF.
fn outcome_of_prefix(length: usize) -> Result<usize, Fault>
    requires { length ≤ 950 }
{
    let lines = length / 95;
    let at = lines as u32 + 1;
    match length % 95 {
        0 if lines >= 6 => Ok(1),
        0 => Err(Fault {
            kind: FileFault::BadOrder,
            at,
        }),
        94 if lines >= 5 => Ok(1),
        94 => Err(Fault {
            kind: FileFault::BadOrder,
            at: at + 1,
        }),
        _ => Err(Fault {
            kind: FileFault::BadLength,
            at,
        }),
    }
}

#[test]
fn prefixes(rt: HostRuntime) {
    let file = return_file();
    for length in 0..951 {
        assert!(rt;
            reads_as(&rt, &file[..length], outcome_of_prefix(length)),
            "of {length} bytes"
        );
    }
}

// Appends a byte this many times.
fn add(text: &mut Vec<u8>, byte: u8, count: u32) -> Result<(), AllocError> {
    for _ in 0..count {
        text.push(byte)?;
    }
    Ok(())
}

#[test]
fn blanks(rt: HostRuntime) -> Result<(), Fail> {
    let mut text = Vec::new(rt.alloc());
    add(&mut text, b' ', 4_194_305)?;
    let order = Fault {
        kind: FileFault::BadOrder,
        at: 1,
    };
    assert!(rt; read(&rt, &text) == Err(order));
    Ok(())
}

#[test]
fn longest(rt: HostRuntime) -> Result<(), Fail> {
    let mut text = lines(&rt, &RETURNED, 4, b"\n")?;
    add(&mut text, b'\n', 4_194_304 - 950)?;
    assert!(rt; read(&rt, &text) == Ok(1));
    add(&mut text, b'\n', 1)?;
    let large = Fault {
        kind: FileFault::TooLarge,
        at: 10,
    };
    assert!(rt; read_in_pieces(&rt, &text, 65_536) == Err(large));
    Ok(())
}

// The controls of a file of 22,308 returns, which with its two headers has 44,620 records: at 94 bytes
// each, no more fit into 4,194,304.
const FULL_BATCH_CONTROL: &[u8; 94] =
    b"82250446160022456704000055770000000000000000MILL01                             091000010000001";

const FULL_CONTROL: &[u8; 94] =
    b"9000001004462000446160022456704000055770000000000000000                                       ";

// The first records of the file, up to its controls.
fn returns(rt: &HostRuntime) -> Result<Vec<u8>, AllocError> {
    let mut text = lines(rt, &[HEADER, BATCH], 0, b"")?;
    for _ in 0..22_308 {
        put_lines(&mut text, &[ENTRY, ADDENDA], b"")?;
    }
    Ok(text)
}

#[test]
fn as_many_items_as_fit(rt: HostRuntime) -> Result<(), Fail> {
    let mut text = returns(&rt)?;
    put_lines(&mut text, &[FULL_BATCH_CONTROL, FULL_CONTROL], b"")?;
    add(&mut text, b'\r', 24)?;
    assert!(rt; text.len() == 4_194_304);
    assert!(rt; read(&rt, &text) == Ok(22_308));
    assert!(rt; read_in_pieces(&rt, &text, 65_536) == Ok(22_308));
    Ok(())
}
