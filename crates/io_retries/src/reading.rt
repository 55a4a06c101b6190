//! Reads that are made again if they are interrupted.
ghost use Rattle.std.specs.Prelude.{◌≢◌, ◌≤◌, IfErr, OnErr};
ghost use Rattle.std.specs.Io.{ReadsAtMost};
ghost use Rattle.std.specs.Io.KnownBytes.{ReadConsumes};
ghost use Rattle.std.specs.IoError.{error_kind};
ghost use Rattle.io_retries.specs.Failures.{ReadFailed};

use crate::source::Source;
use crate::tries::Tries;
use std::io;
use std::io::ErrorKind;

/// Makes one read, and makes it again while it is interrupted and tries are left.
///
/// # Errors
/// Only if a read of this reader failed: the clause `fault` says which.
pub fn read_with_retries<R: Source>(
    reader: &mut R,
    buf: &mut [u8],
    tries: &mut Tries,
) -> io::Result<usize>
    ensures bound { ReadsAtMost result buf.new }
    ensures bytes { ReadConsumes (R.remaining reader.old) (R.remaining reader.new) result buf.new }
    ensures tries { tries.new.left ≤ tries.old.left }
    ensures failed { IfErr result (λ e. error_kind e ≢ ErrorKind.Interrupted) }
    ensures fault { OnErr result (ReadFailed R.Source reader.new tries.new) }
{
    loop {
        match reader.read(buf) {
            Ok(count) => return Ok(count),
            Err(error) => tries.spend(error)?,
        }
    }
}

/// A reader that makes an interrupted read again while tries are left.
#[derive(Drop)]
pub struct RetryingReader<R> {
    pub inner: R,
    pub tries: Tries,
}

impl<R: Source> io::Read for RetryingReader<R> {
    ghost remaining = { λ r. R.remaining r.inner };

    fn read(&mut self, buf: &mut [u8]) -> io::Result<usize>
        ensures bound { ReadsAtMost result buf.new }
        ensures bytes { ReadConsumes (R.remaining self.old.inner)
            (R.remaining self.new.inner) result buf.new }
        ensures tries { self.new.tries.left ≤ self.old.tries.left }
        ensures failed { IfErr result (λ e. error_kind e ≢ ErrorKind.Interrupted) }
        ensures fault { OnErr result (ReadFailed R.Source self.new.inner self.new.tries) }
    {
        read_with_retries(&mut self.inner, buf, &mut self.tries)
    }
}
