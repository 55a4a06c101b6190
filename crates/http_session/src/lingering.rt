//! Reading what is not answered any more.
ghost use Rattle.std.specs.Prelude.{◌≡◌, OnErr};
ghost use Rattle.io_retries.specs.Failures.{ReadFailed};
ghost use Rattle.http_session.specs.Lingering.{DropsRest};

use io_retries::{Source, Tries, read_with_retries};
use std::io;

/// So many bytes of a client are dropped at most: a body that is too large, four times over.
pub const MAX_DROPPED: usize = 16_777_216;

/// The most bytes of one read.
const PIECE: usize = 16_384;

/// Reads and drops what a reader still gives, to the end of its input, and at most 16 MiB.
pub fn drop_rest<R: Source>(reader: &mut R, tries: &mut Tries) -> io::Result<()>
    ensures dropped { DropsRest result (R.remaining reader.old) (R.remaining reader.new) }
    ensures fault { OnErr result (ReadFailed R.Source reader.new tries.new) }
{
    let mut piece = [0; PIECE];
    let mut left = MAX_DROPPED;
    while left > 0 {
        let wanted = left.min(PIECE);
        let count = read_with_retries(reader, &mut piece[..wanted], tries)?;
        if count == 0 {
            return Ok(());
        }
        left -= count;
    }
    Ok(())
}
