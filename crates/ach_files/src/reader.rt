//! A `Reader` reads a file in pieces.
ghost use Rattle.std.specs.Prelude.{◌≡◌, [], List, ℕ};

use crate::fault::{Fault, FileFault};
use crate::recogniser::Recogniser;
use crate::taken::Taken;
use std::alloc::Global;

const FAILED: Fault = Fault {
    kind: FileFault::Failed,
    at: 0,
};

/// Reads a file that arrives in pieces, with the result that `read_file` has for all pieces
/// together.
///
/// It keeps one partial record, running sums, the state of the digest, and the facts of the items.
/// The `feed` whose piece holds the byte of a fault returns it; `finish` returns a fault at the end
/// of the input. After a fault, and after `finish`, each call returns `Failed` in record 0.
#[derive(Drop)]
pub struct Reader {
    state: Option<Recogniser>,
}

impl Reader {
    ghost use Rattle.ach_files.specs.Has.{HasRead, HasFailed, reader_room};
    ghost use Rattle.ach_files.specs.Memory.{NeedsRoom};
    ghost use Rattle.ach_files.specs.FirstFault.{AnswersFailed};
    ghost use Rattle.ach_files.specs.Taking.{ReadsPiece, GivesFacts};

    /// Begins an empty file. It takes no memory until the first item.
    pub fn new(alloc: Global) -> Reader
        ensures { HasRead result [] }
    {
        Reader {
            state: Some(Recogniser::new(alloc)),
        }
    }

    /// Takes the next piece. An empty piece changes nothing.
    pub fn feed(&mut self, piece: &[u8]) -> Result<(), Fault>
        ensures read { (seen : List ℕ) → HasRead self.old seen → ReadsPiece self.new seen piece.now result }
        // Memory runs out only where an item needs it, before any fault.
        ensures memory { NeedsRoom (HasRead self.old) (reader_room self.old) piece.now result }
        ensures failed { HasFailed self.old → AnswersFailed result × HasFailed self.new }
        ensures nothing { piece.now ≡ [] → self.new ≡ self.old }
    {
        if self.state.is_none() {
            return Err(FAILED);
        }
        if piece.is_empty() {
            return Ok(());
        }
        let Some(mut recogniser) = self.state.take() else {
            return Err(FAILED);
        };
        recogniser.take_all(piece)?;
        self.state = Some(recogniser);
        Ok(())
    }

    /// Ends the input, and gives what is taken from the file, or the fault at its end.
    pub fn finish(&mut self) -> Result<Taken, Fault>
        ensures read { (bytes : List ℕ) → HasRead self.old bytes → GivesFacts bytes result }
        ensures failed { HasFailed self.old → AnswersFailed result }
        ensures done { HasFailed self.new }
    {
        let Some(recogniser) = self.state.take() else {
            return Err(FAILED);
        };
        recogniser.end()
    }
}
