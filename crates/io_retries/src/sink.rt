//! What bytes are written to, and what is known of it after a write.
//!
//! As `has_failed` of `Source`, the facts of a writer are given by its calls alone.
use std::io;

/// Takes bytes, as `std::io::Write` does.
pub trait Sink {
    ghost use Rattle.std.specs.Prelude.{◌≡◌, ℕ, ◌<◌, List, length, Option, IfOk, IfErr, OnOk};
    ghost use Rattle.std.specs.Io.{WritesAtMost};
    ghost use Rattle.std.specs.Io.KnownBytes.{Keeps, WriteAppends};
    ghost use Rattle.std.specs.declared.io.Error.{Error};

    /// The bytes that the writer holds, if they are known.
    ghost contents: { Self → Option (List ℕ) };

    /// The last write or flush failed with this error.
    ghost has_failed: { Self → Error → Type 0 };

    /// The last call was a write that took none of its bytes.
    ghost took_none: { Self → Type 0 };

    /// The last call flushed it.
    ghost is_flushed: { Self → Type 0 };

    /// Takes some of the bytes, and returns how many.
    fn write(&mut self, buf: &[u8]) -> io::Result<usize>
        ensures bound { WritesAtMost result buf.now }
        ensures bytes { WriteAppends (contents self.old) (contents self.new) result buf.now }
        ensures none { IfOk result (λ n. n ≡ 0 → 0 < length buf.now → took_none self.new) }
        ensures fault { IfErr result (has_failed self.new) };

    /// Hands on what it holds back.
    fn flush(&mut self) -> io::Result<()>
        ensures bytes { Keeps (contents self.old) (contents self.new) }
        ensures flushed { OnOk result (is_flushed self.new) }
        ensures fault { IfErr result (has_failed self.new) };
}

impl<W: io::Write> Sink for W {
    ghost use Rattle.std.specs.Prelude.{⊤};

    ghost contents = { W.contents };

    ghost has_failed = { λ _ _. ⊤ };

    ghost took_none = { λ _. ⊤ };

    ghost is_flushed = { λ _. ⊤ };

    fn write(&mut self, buf: &[u8]) -> io::Result<usize> {
        io::Write::write(self, buf)
    }

    fn flush(&mut self) -> io::Result<()> {
        io::Write::flush(self)
    }
}
