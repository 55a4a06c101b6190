//! Files are made of records, and read whole and in pieces.
ghost use Rattle.std.specs.Prelude.{◌<◌};

use crate::formats::worked::{FILLER, RETURNED};
use ach_files::{Fault, FileFault, ItemFacts, Reader, read_file};
use std::alloc::AllocError;

/// `sha256sum` gives this SHA-256 of the six records of the return.
pub const RETURNED_DIGEST: [u8; 32] = [
    0x79, 0x4d, 0xeb, 0x5e, 0x59, 0xad, 0x2c, 0x6e, 0x54, 0xfd, 0xbf, 0xf5, 0x62, 0x47, 0xd6, 0xb6,
    0xda, 0xcd, 0x4d, 0x1f, 0x98, 0xe3, 0x63, 0xa8, 0xc9, 0x2d, 0x8c, 0x48, 0x1c, 0x01, 0xed, 0xb7,
];

/// The fault of every call after a fault or a file.
pub const FAILED: Fault = Fault {
    kind: FileFault::Failed,
    at: 0,
};

fn put_record(file: &mut [u8; 950], number: usize, record: &[u8; 94])
    requires { number < 10 }
{
    file[95 * number..95 * number + 94].copy_from_slice(record.as_slice());
    file[95 * number + 94] = b'\n';
}

/// Gives the file of the return: six records and four fillers, each with an LF.
pub fn return_file() -> [u8; 950] {
    let mut file = [b'9'; 950];
    for number in 0..10 {
        let record = match RETURNED.get(number) {
            Some(record) => *record,
            None => FILLER,
        };
        put_record(&mut file, number, record);
    }
    file
}

fn put_line(text: &mut Vec<u8>, record: &[u8; 94], end: &[u8]) -> Result<(), AllocError> {
    text.extend_from_slice(record.as_slice())?;
    text.extend_from_slice(end)
}

/// Puts records, each with what ends its line, after a text.
pub fn put_lines(text: &mut Vec<u8>, records: &[&[u8; 94]], end: &[u8]) -> Result<(), AllocError> {
    for record in records {
        put_line(text, record, end)?;
    }
    Ok(())
}

/// Gives records, each with what ends its line, and then fillers.
pub fn lines(
    rt: &HostRuntime,
    records: &[&[u8; 94]],
    fillers: usize,
    end: &[u8],
) -> Result<Vec<u8>, AllocError> {
    let mut text = Vec::new(rt.alloc());
    put_lines(&mut text, records, end)?;
    for _ in 0..fillers {
        put_line(&mut text, FILLER, end)?;
    }
    Ok(text)
}

/// Says how many items the bytes have as a file, or gives their fault.
pub fn read(rt: &HostRuntime, bytes: &[u8]) -> Result<usize, Fault> {
    match read_file(rt.alloc(), bytes) {
        Ok(incoming) => Ok(incoming.len()),
        Err(fault) => Err(fault),
    }
}

/// Ends the reader's input. Returns the number of items, or the fault.
pub fn end(reader: &mut Reader) -> Result<usize, Fault> {
    match reader.finish() {
        Ok(taken) => Ok(taken.items().len()),
        Err(fault) => Err(fault),
    }
}

/// Says the same by a reader that takes them in pieces of a size.
pub fn read_in_pieces(rt: &HostRuntime, bytes: &[u8], size: usize) -> Result<usize, Fault> {
    let mut reader = Reader::new(rt.alloc());
    for piece in bytes.chunks(size.max(1)) {
        reader.feed(piece)?;
    }
    end(&mut reader)
}

/// Is this the outcome of the bytes, whole and in pieces?
pub fn reads_as(rt: &HostRuntime, bytes: &[u8], outcome: Result<usize, Fault>) -> bool {
    read(rt, bytes) == outcome
        && read_in_pieces(rt, bytes, 1) == outcome
        && read_in_pieces(rt, bytes, 100) == outcome
}

/// Gives what the only item of a file says.
pub fn only_item(rt: &HostRuntime, bytes: &[u8]) -> Result<ItemFacts, Fault> {
    let incoming = read_file(rt.alloc(), bytes)?;
    if incoming.len() == 1 {
        Ok(incoming.item(0).facts())
    } else {
        Err(FAILED)
    }
}
