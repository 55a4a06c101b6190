//! The verdict on an incoming file.
ghost use Rattle.std.specs.Prelude.{◌≡◌, [], IfNone, IfSome, List, ℕ};
ghost use Rattle.ach_files.specs.Has.{HasRead};
ghost use Rattle.ach_files.specs.FirstFault.{Tells, fault};
ghost use Rattle.cli_commands.specs.FileChecks.{return_count, change_count, is_change, IsVerdict, IsVerdictOn};
ghost use Rattle.cli_commands.specs.Feeding.{GivesUp, StopsBy, TakesToFault};
ghost use Rattle.cli_commands.specs.Inputs.{bounded};

use crate::file_feed::{Stop, feed_all};
use ach_files::{Fault, FileFault, ItemFacts, Reader, ReturnOrChange};
use io_retries::{Source, Tries};
use std::alloc::Global;

/// The verdict on an incoming file.
#[derive(Clone, Copy, Debug, PartialEq, Eq)]
pub enum Verdict {
    /// The file has these numbers of returns and changes.
    Fine { returns: usize, changes: usize },
    /// The file has this fault.
    Faulty(Fault),
}

/// Reads an input to its end, or to the first fault of the file that it should be. Returns `None` if a read
/// failed or memory ran out.
pub fn verdict_of<R: Source>(alloc: Global, input: &mut R, tries: &mut Tries) -> Option<Verdict>
    ensures verdict { IfSome result (IsVerdictOn (bounded (R.remaining input.old))) }
    ensures taken { TakesToFault [] (R.remaining input.old) (R.remaining input.new) }
{
    let mut reader = Reader::new(alloc);
    match feed_all(input, tries, &mut reader) {
        Ok(()) => end_verdict(&mut reader),
        Err(stop) => stop_verdict(stop),
    }
}

fn is_change(item: &ItemFacts) -> bool
    ensures { result ≡ is_change item.now.return_or_change }
{
    match item.return_or_change {
        ReturnOrChange::Return(_) => false,
        ReturnOrChange::Change(_) => true,
    }
}

fn items_verdict(items: &[ItemFacts]) -> Verdict
    ensures { result ≡ Verdict.Fine (return_count items.now) (change_count items.now) }
{
    Verdict::Fine {
        returns: return_count(items),
        changes: change_count(items),
    }
}

fn return_count(items: &[ItemFacts]) -> usize
    ensures { result ≡ return_count items.now }
{
    items.iter().filter(|item| !is_change(item)).count()
}

fn change_count(items: &[ItemFacts]) -> usize
    ensures { result ≡ change_count items.now }
{
    items.iter().filter(|item| is_change(item)).count()
}

fn stop_verdict(stop: Stop) -> Option<Verdict>
    ensures memory { IfNone result (GivesUp stop) }
    ensures verdict { (bytes : List ℕ) → StopsBy bytes stop → IfSome result (IsVerdict bytes) }
{
    match stop {
        Stop::Failed => None,
        Stop::Faulty(found) => fault_verdict(found),
    }
}

// A reader that is out of memory has found no fault of the file.
fn fault_verdict(found: Fault) -> Option<Verdict>
    ensures memory { IfNone result (found.kind ≡ FileFault.NoMemory) }
    ensures verdict { (bytes : List ℕ) → Tells found (fault bytes) →
        IfSome result (IsVerdict bytes) }
{
    match found.kind {
        FileFault::NoMemory => None,
        _ => Some(Verdict::Faulty(found)),
    }
}

fn end_verdict(reader: &mut Reader) -> Option<Verdict>
    ensures { (bytes : List ℕ) → HasRead reader.old bytes → IfSome result (IsVerdict bytes) }
{
    match reader.finish() {
        Ok(incoming) => Some(items_verdict(incoming.items())),
        Err(found) => fault_verdict(found),
    }
}
