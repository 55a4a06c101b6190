//! The input of a command, which is read no further than the answer needs.
ghost use Rattle.std.specs.Prelude.{◌<◌, ◌≤◌, IfOk, IfSome};
ghost use Rattle.std.specs.Io.{ReadsAtMost};
ghost use Rattle.std.specs.Io.KnownBytes.{ReadConsumes};
ghost use Rattle.cli_commands.specs.Inputs.{bounded, most_read, MayHave, TakesAtMost};

use io_retries::{Source, Tries, read_with_retries};
use std::alloc::Global;
use std::io;

/// The most bytes of a body, a list or a file.
pub const MOST_INPUT: u64 = 4_194_304;

/// The most bytes that are read of it. One more than it may have decides as all would.
pub const MOST_READ: usize = 4_194_305;

/// The most bytes that are read at once.
pub const PIECE: usize = 65_536;

/// Reads an input to its end, or to one byte more than it may have. Returns its bytes, or none if a read
/// failed or memory ran out.
pub fn read_input<R: Source>(alloc: Global, reader: &mut R, tries: &mut Tries) -> Option<Vec<u8>>
    ensures bytes { IfSome result (λ bytes. MayHave (bounded (R.remaining reader.old)) bytes.items) }
    ensures taken { TakesAtMost most_read (R.remaining reader.old) (R.remaining reader.new) }
{
    let mut piece = [0; PIECE];
    let mut bytes = Vec::new(alloc);
    let mut left = MOST_READ;
    while left > 0 {
        let Ok(count) = read_piece(reader, tries, &mut piece, left) else {
            return None;
        };
        if count == 0 {
            return Some(bytes);
        }
        let Ok(()) = bytes.extend_from_slice(&piece[..count]) else {
            return None;
        };
        left -= count;
    }
    Some(bytes)
}

/// Reads once, into the start of a piece and no more than so many bytes, and tells how many came.
pub fn read_piece<R: Source>(
    reader: &mut R,
    tries: &mut Tries,
    piece: &mut [u8],
    left: usize,
) -> io::Result<usize>
    requires { 0 < left }
    ensures few { IfOk result (λ count. count ≤ left) }
    ensures bound { ReadsAtMost result piece.new }
    ensures bytes { ReadConsumes (R.remaining reader.old) (R.remaining reader.new) result piece.new }
{
    let most = left.min(piece.len());
    read_with_retries(reader, &mut piece[..most], tries)
}
