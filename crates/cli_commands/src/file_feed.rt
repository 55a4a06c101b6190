//! An input that is fed piece by piece to the reader of files.
ghost use Rattle.cli_commands.specs.Feeding.{FeedsToFault, HasFed};
ghost use Rattle.cli_commands.specs.Inputs.{bounded};

use crate::input::{MOST_READ, PIECE, read_piece};
use ach_files::{Fault, Reader, faults_stand};
use io_retries::{Source, Tries};

/// A stop says why no more pieces are fed.
#[derive(Clone, Copy, Debug, PartialEq, Eq)]
pub enum Stop {
    /// A read failed, or memory ran out.
    Failed,
    /// The bytes have this fault.
    Faulty(Fault),
}

/// Feeds all that an input has, or one byte more than a file may have, in pieces of at most 65,536 bytes. It
/// reads none after the piece that has the first fault.
pub fn feed_all<R: Source>(
    input: &mut R,
    tries: &mut Tries,
    reader: &mut Reader,
) -> Result<(), Stop>
    ensures fed { HasFed (bounded (R.remaining input.old)) reader.old reader.new result }
    ensures taken { FeedsToFault reader.old (R.remaining input.old) (R.remaining input.new) }
{
    faults_stand();
    let mut piece = [0; PIECE];
    let mut left = MOST_READ;
    while left > 0 {
        let count = match read_piece(input, tries, &mut piece, left) {
            Ok(count) => count,
            Err(_) => return Err(Stop::Failed),
        };
        if count == 0 {
            return Ok(());
        }
        if let Err(fault) = reader.feed(&piece[..count]) {
            return Err(Stop::Faulty(fault));
        }
        left -= count;
    }
    Ok(())
}
