//! A file that is whole in memory is read at once.
ghost use Rattle.std.specs.Prelude.{[], MatchResult, IfOk, IfErr};
ghost use Rattle.ach_files.specs.Structure.{File};
ghost use Rattle.ach_files.specs.File.{IsFile, IsContentOf, HasFactsOf};
ghost use Rattle.ach_files.specs.FirstFault.{IsNoMemory, Tells, fault};
ghost use Rattle.ach_files.specs.Memory.{GivesUpOnlyIf, RunsOut};

use crate::fault::Fault;
use crate::incoming::Incoming;
use std::alloc::Global;

/// Reads a file of returns and notifications of change.
///
/// # Errors
///
/// The bytes are taken in order, and the first byte at which something is wrong decides; a fault
/// names the record of that byte. Lack of memory is `NoMemory`, in record 0.
pub fn read_file(alloc: Global, bytes: &[u8]) -> Result<Incoming<'_>, Fault>
    // The result is a file, with its items, key and digest.
    ensures found { IfOk result (IsContentOf bytes.now) }
    // A file is read, unless memory runs out.
    ensures only { (f : File) → IsFile bytes.now f → MatchResult result (HasFactsOf f) IsNoMemory }
    // Else it's the fault at the first bad place.
    ensures told { IfErr result (λ e. Tells e (fault bytes.now)) }
    // Memory runs out only where an item needs it, before any fault.
    ensures memory { GivesUpOnlyIf result (RunsOut 0 [] bytes.now) }
{
    Incoming::read(alloc, bytes)
}
