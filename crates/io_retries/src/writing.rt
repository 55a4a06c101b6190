//! Writes and flushes that are made again if they are interrupted.
ghost use Rattle.std.specs.Prelude.{◌≡◌, ◌≢◌, ◌<◌, ◌≤◌, length, IfOk, IfErr, OnOk, OnErr};
ghost use Rattle.std.specs.Io.{WritesAtMost};
ghost use Rattle.std.specs.Io.KnownBytes.{Keeps, WriteAppends};
ghost use Rattle.std.specs.IoError.{error_kind};
ghost use Rattle.io_retries.specs.Failures.{WriteFailed};
ghost use Rattle.io_retries.specs.Prefixes.{WriteAllAppends};

use crate::sink::Sink;
use crate::tries::Tries;
use std::io;
use std::io::ErrorKind;

/// Makes one write, and makes it again while it is interrupted and tries are left.
///
/// # Errors
/// Only if a write of this writer failed.
pub fn write_with_retries<W: Sink>(
    writer: &mut W,
    bytes: &[u8],
    tries: &mut Tries,
) -> io::Result<usize>
    ensures bound { WritesAtMost result bytes.now }
    ensures bytes { WriteAppends (W.contents writer.old) (W.contents writer.new) result bytes.now }
    ensures tries { tries.new.left ≤ tries.old.left }
    ensures failed { IfErr result (λ e. error_kind e ≢ ErrorKind.Interrupted) }
    ensures none { IfOk result (λ n. n ≡ 0 → 0 < length bytes.now → W.took_none writer.new) }
    ensures fault { OnErr result (WriteFailed W.Sink writer.new tries.new) }
{
    loop {
        match writer.write(bytes) {
            Ok(count) => return Ok(count),
            Err(error) => tries.spend(error)?,
        }
    }
}

/// Flushes a writer, and flushes it again while that is interrupted and tries are left.
///
/// # Errors
/// Only if a flush of this writer failed.
pub fn flush_with_retries<W: Sink>(writer: &mut W, tries: &mut Tries) -> io::Result<()>
    ensures bytes { Keeps (W.contents writer.old) (W.contents writer.new) }
    ensures tries { tries.new.left ≤ tries.old.left }
    ensures failed { IfErr result (λ e. error_kind e ≢ ErrorKind.Interrupted) }
    ensures flushed { OnOk result (W.is_flushed writer.new) }
    ensures fault { OnErr result (WriteFailed W.Sink writer.new tries.new) }
{
    loop {
        match writer.flush() {
            Ok(()) => return Ok(()),
            Err(error) => tries.spend(error)?,
        }
    }
}

/// Writes all the bytes and flushes the writer.
///
/// # Errors
/// Only if a write or the flush of this writer failed, or a write took none of its bytes. The writer has
/// then taken a prefix of the bytes.
pub fn write_all_with_retries<W: Sink>(
    writer: &mut W,
    bytes: &[u8],
    tries: &mut Tries,
) -> io::Result<()>
    ensures bytes { WriteAllAppends (W.contents writer.old) (W.contents writer.new)
        result bytes.now }
    ensures tries { tries.new.left ≤ tries.old.left }
    ensures flushed { OnOk result (W.is_flushed writer.new) }
    ensures fault { OnErr result (WriteFailed W.Sink writer.new tries.new) }
{
    let mut rest = bytes;
    while !rest.is_empty() {
        let count = write_with_retries(writer, rest, tries)?;
        if count == 0 {
            return Err(io::Error::from(ErrorKind::WriteZero));
        }
        rest = &rest[count..];
    }
    flush_with_retries(writer, tries)
}
