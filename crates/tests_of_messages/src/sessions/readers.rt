//! Readers that give their bytes in pieces, are interrupted, or fail.
use std::io;
use std::io::{ErrorKind, Read};

/// Gives at most this many bytes a read.
#[derive(Drop)]
pub struct Pieces<'a> {
    pub bytes: &'a [u8],
    pub most: usize,
    /// How many reads are interrupted before the next one gives bytes.
    pub interruptions: u32,
    /// How many reads give bytes before the one that fails.
    pub good: u32,
}

impl<'a> Pieces<'a> {
    pub fn new(bytes: &'a [u8], most: usize) -> Pieces<'a> {
        Pieces {
            bytes,
            most,
            interruptions: 0,
            good: u32::MAX,
        }
    }
}

impl Read for Pieces<'_> {
    fn read(&mut self, buf: &mut [u8]) -> io::Result<usize> {
        if self.interruptions > 0 {
            self.interruptions -= 1;
            return Err(ErrorKind::Interrupted.into());
        }
        if self.good == 0 {
            // A reader that is asked again would go on.
            self.good = u32::MAX;
            return Err(ErrorKind::ConnectionReset.into());
        }
        self.good -= 1;
        let count = self.most.min(buf.len()).min(self.bytes.len());
        let (piece, rest) = self.bytes.split_at(count);
        buf[..count].copy_from_slice(piece);
        self.bytes = rest;
        Ok(count)
    }
}
