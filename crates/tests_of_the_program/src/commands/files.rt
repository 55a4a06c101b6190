//! Incoming files: the printed lines for files that are read from a reader and from a path.
use super::{NOBODY, carry_out};
use desk_cli::{Command, Status, check_file};
use std::alloc::{AllocError, Global};
use std::fs;
use std::test::Fail;

/// This is a file of one return, without its fillers.
pub const RECORDS: &[u8] =
    b"101 121042882 0610001462501140930A094101OUR BANK               ACH OPERATOR                   \n\
5225MILL STREET                         MILL01    PPDDUES            2501140141091000010000001\n\
626121042882123456789        0000002500E2             BOB RAY                 1091000010000007\n\
799R01121042880000001      09100001                                            091000010000007\n\
82250000020012104288000000002500000000000000MILL01                             091000010000001\n\
9000001000001000000020012104288000000002500000000000000                                       \n";

const FILLER: &[u8] =
    b"9999999999999999999999999999999999999999999999999999999999999999999999999999999999999999999999\n";

/// This line is the answer to it.
pub const LINE: &str = "ok 1 returns 0 changes\n";

/// Bytes put into the file of one return at offsets from 0, and the line that is printed. A record
/// and its line feed have 95 bytes.
const FAULTS: &[(usize, &[u8], &str)] = &[
    (95 * 2 + 50, b"\n", "BadLength at record 3\n"),
    (95 * 3 + 10, b"\x7f", "BadByte at record 4\n"),
    (0, b" ", "BadOrder at record 1\n"),
    (95 * 2 + 29, b"x", "BadNumber at record 3\n"),
    (95 * 2 + 1, b"22", "ForwardEntry at record 3\n"),
    (95 * 3 + 1, b"05", "BadAddenda at record 4\n"),
    (95 * 4 + 9, b"3", "BadCount at record 5\n"),
    (95 * 4 + 19, b"1", "BadHash at record 5\n"),
    (95 * 4 + 43, b"1", "BadTotal at record 5\n"),
    (95 * 5 + 20, b"3", "BadCount at record 6\n"),
    (95 * 5 + 54, b"1", "BadTotal at record 6\n"),
    (95 * 5 + 12, b"2", "BadBlock at record 6\n"),
];

/// How many bytes there are of the file's records, and the line that is printed.
const SHORT: &[(usize, &str)] = &[
    (0, "BadOrder at record 1\n"),
    (94, "BadOrder at record 2\n"),
    (568, "BadLength at record 6\n"),
];

/// The length up to which line feeds follow the file of one return, what follows them, how a check
/// ends, and its line.
const LONG: &[(usize, &[u8], Status, &str)] = &[
    (70_000, b"", Status::Done, LINE),
    (70_000, b"x", Status::Refused, "BadLength at record 10\n"),
    (4_194_304, b"", Status::Done, LINE),
    (4_194_304, b"\n", Status::Refused, "TooLarge at record 10\n"),
];

// The file of one return with its four fillers.
fn one_return(alloc: Global) -> Result<Vec<u8>, AllocError> {
    let mut file = Vec::from_slice(alloc, RECORDS)?;
    for _ in 0..4 {
        file.extend_from_slice(FILLER)?;
    }
    Ok(file)
}

// The file of one return with these bytes at a place.
fn with_bytes(alloc: Global, place: usize, bytes: &[u8]) -> Result<Vec<u8>, Fail> {
    let whole = one_return(alloc)?;
    let end = place.saturating_add(bytes.len());
    let mut file = Vec::new(alloc);
    file.extend_from_slice(whole.as_slice().get(..place).ok_or("place")?)?;
    file.extend_from_slice(bytes)?;
    file.extend_from_slice(whole.as_slice().get(end..).ok_or("place")?)?;
    Ok(file)
}

// The file of one return with line feeds after it, up to a length, and then these bytes.
fn with_line_feeds(alloc: Global, len: usize, last: &[u8]) -> Result<Vec<u8>, AllocError> {
    let mut file = one_return(alloc)?;
    file.resize(len, b'\n')?;
    file.extend_from_slice(last)?;
    Ok(file)
}

// Returns a file with only a header and a control, which states this number of blocks.
fn no_batches(alloc: Global, blocks: &[u8]) -> Result<Vec<u8>, AllocError> {
    let mut file = Vec::from_slice(alloc, &RECORDS[..95])?;
    file.extend_from_slice(b"9000000")?;
    file.extend_from_slice(blocks)?;
    file.resize(95 + 55, b'0')?;
    file.resize(95 + 94, b' ')?;
    Ok(file)
}

// A check of this file from a reader and one of the same bytes from a path: do both end so, and print
// this line?
fn answers(rt: &HostRuntime, file: &[u8], status: Status, line: &str) -> Result<bool, Fail> {
    let mut from_reader = Vec::new(rt.alloc());
    let mut from_path = Vec::new(rt.alloc());
    let mut reader = file;
    let read = check_file(rt.alloc(), &mut reader, &mut from_reader);
    let path = "incoming.ach";
    fs::write(rt, path, file)?;
    let opened = carry_out(rt, &Command::Check(path), NOBODY, &mut from_path);
    fs::remove_file(rt, path)?;
    Ok(
        read == status
            && opened == status
            && from_reader.as_slice() == line.as_bytes()
            && from_path.as_slice() == line.as_bytes(),
    )
}

#[test]
fn whole_files(rt: HostRuntime) -> Result<(), Fail> {
    let file = one_return(rt.alloc())?;
    assert!(rt; answers(&rt, file.as_slice(), Status::Done, LINE)?);
    assert!(rt; answers(&rt, RECORDS, Status::Done, LINE)?);
    Ok(())
}

#[test]
fn files_without_batches(rt: HostRuntime) -> Result<(), Fail> {
    let empty = no_batches(rt.alloc(), b"000001")?;
    assert!(rt;
        answers(
            &rt,
            empty.as_slice(),
            Status::Done,
            "ok 0 returns 0 changes\n"
        )?
    );
    let faulty = no_batches(rt.alloc(), b"000002")?;
    assert!(rt;
        answers(
            &rt,
            faulty.as_slice(),
            Status::Refused,
            "BadBlock at record 2\n"
        )?
    );
    Ok(())
}

#[test]
fn faults(rt: HostRuntime) -> Result<(), Fail> {
    for &(place, bytes, line) in FAULTS {
        let file = with_bytes(rt.alloc(), place, bytes)?;
        assert!(rt;
            answers(&rt, file.as_slice(), Status::Refused, line)?,
            "{line}"
        );
    }
    Ok(())
}

#[test]
fn short_files(rt: HostRuntime) -> Result<(), Fail> {
    for &(len, line) in SHORT {
        let file = RECORDS.get(..len).ok_or("length")?;
        assert!(rt; answers(&rt, file, Status::Refused, line)?, "{line}");
    }
    Ok(())
}

#[test]
fn long_files(rt: HostRuntime) -> Result<(), Fail> {
    for &(len, last, status, line) in LONG {
        let file = with_line_feeds(rt.alloc(), len, last)?;
        assert!(rt;
            answers(&rt, file.as_slice(), status, line)?,
            "{len} {line}"
        );
    }
    Ok(())
}
