//! The text of an outgoing file.
ghost use Rattle.std.specs.Prelude.{MatchResult};
ghost use Rattle.ach_files.specs.Outgoing.{IsPrintOf, IsPrintFaultOf};

mod control;
mod fields;
mod measures;
mod page;
mod printer;
mod records;
mod totals;

use crate::limits::SIX_DIGITS;
use crate::outgoing::{Outgoing, PrintFault};
use control::{control_of, room_of};
use fields::fits;
use measures::measure;
use page::put_file;
pub use printer::Printer;
use std::alloc::Global;

/// Prints a file: its records with an LF after each, then the fewest records of nines that make
/// their number a multiple of ten.
///
/// # Errors
///
/// Returns the first fault, and prints nothing then.
pub fn print_file(alloc: Global, outgoing: &Outgoing) -> Result<Vec<u8>, PrintFault>
    ensures { MatchResult result (IsPrintOf outgoing.now) (IsPrintFaultOf outgoing.now) }
{
    let measures = measure(outgoing.batches);
    if !fits(outgoing, measures.fit) {
        return Err(PrintFault::BadField);
    }
    let batches = (outgoing.batches.len() as u64).min(SIX_DIGITS + 1);
    let control = control_of(batches, measures.is_any_long, &measures.sums)?;
    let Ok(mut text) = Vec::with_capacity(alloc, room_of(&control)) else {
        return Err(PrintFault::NoMemory);
    };
    match put_file(&mut text, outgoing, &control) {
        Ok(()) => Ok(text),
        Err(_) => Err(PrintFault::NoMemory),
    }
}
