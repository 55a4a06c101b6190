//! A writer that takes a few bytes a write, is interrupted, or fails.
use std::io;
use std::io::{ErrorKind, Write};

/// Takes at most this many bytes a write.
#[derive(Drop)]
pub struct Sink {
    pub taken: Vec<u8>,
    pub most: usize,
    /// How many bytes it takes before it fails.
    pub room: usize,
    /// How many writes are interrupted before the next one takes bytes.
    pub interruptions: u32,
    /// How many flushes are interrupted before the next one flushes.
    pub flush_interruptions: u32,
    /// How many flushes are good before the one that fails.
    pub good_flushes: u32,
}

impl Write for Sink {
    fn write(&mut self, buf: &[u8]) -> io::Result<usize> {
        if self.interruptions > 0 {
            self.interruptions -= 1;
            return Err(ErrorKind::Interrupted.into());
        }
        let count = self.most.min(buf.len()).min(self.room);
        if count == 0 && self.most > 0 && !buf.is_empty() {
            // A writer that is asked again would go on.
            self.room = usize::MAX;
            return Err(ErrorKind::BrokenPipe.into());
        }
        if self.taken.extend_from_slice(&buf[..count]).is_err() {
            return Err(ErrorKind::OutOfMemory.into());
        }
        self.room -= count;
        Ok(count)
    }

    fn flush(&mut self) -> io::Result<()> {
        if self.flush_interruptions > 0 {
            self.flush_interruptions -= 1;
            return Err(ErrorKind::Interrupted.into());
        }
        if self.good_flushes == 0 {
            // A writer that is asked again would go on.
            self.good_flushes = u32::MAX;
            return Err(ErrorKind::BrokenPipe.into());
        }
        self.good_flushes -= 1;
        Ok(())
    }
}
