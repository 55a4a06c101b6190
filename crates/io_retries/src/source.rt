//! What bytes are read from, and what is known of it after a read failed.
//!
//! `has_failed` is a fact of the device, which only its call gives. Code that is generic over the device
//! knows nothing else of the fact, so it can show that a read failed only if it made that read. std's
//! readers say no such thing: of them the fact always holds, but the code that reads them is the same.
use std::io;

/// Gives bytes, as `std::io::Read` does.
pub trait Source {
    ghost use Rattle.std.specs.Prelude.{ℕ, List, Option, IfErr};
    ghost use Rattle.std.specs.Io.{ReadsAtMost};
    ghost use Rattle.std.specs.Io.KnownBytes.{ReadConsumes};
    ghost use Rattle.std.specs.declared.io.Error.{Error};

    /// The bytes that reads will give from here on, if they are known.
    ghost remaining: { Self → Option (List ℕ) };

    /// The last read failed with this error.
    ghost has_failed: { Self → Error → Type 0 };

    /// Reads some bytes into the buffer, and returns how many; 0 only at the end of the input.
    fn read(&mut self, buf: &mut [u8]) -> io::Result<usize>
        ensures bound { ReadsAtMost result buf.new }
        ensures bytes { ReadConsumes (remaining self.old) (remaining self.new) result buf.new }
        ensures fault { IfErr result (has_failed self.new) };
}

impl<R: io::Read> Source for R {
    ghost use Rattle.std.specs.Prelude.{⊤};

    ghost remaining = { R.remaining };

    ghost has_failed = { λ _ _. ⊤ };

    fn read(&mut self, buf: &mut [u8]) -> io::Result<usize> {
        io::Read::read(self, buf)
    }
}
