//! A `Printer` prints a file batch by batch.
ghost use Rattle.std.specs.Prelude.{◌≡◌, length, [], None, OnOk, IfOk, IfErr, false};
ghost use Rattle.ach_files.specs.declared.outgoing.Outgoing.{Outgoing};
ghost use Rattle.ach_files.specs.Outgoing.{header_fault, batch_fault, IsPrintOf, IsPrintFaultOf, TellsPrint};
ghost use Rattle.ach_files.specs.Printing.{HasPrinted, HasPrintedAll, PrintsBatch, StaysPrinted, measures_fault};

use super::control::{control_of, fillers_of, put_control};
use super::measures::{Measures, measures_of};
use super::page::{put, put_batch, put_fillers};
use super::records::file_header_record;
use super::totals::{add_sums, is_large};
use crate::limits::SIX_DIGITS;
use crate::outgoing::{OutgoingBatch, PrintFault};
use crate::sums::{NO_SUMS, Sums};
use ach_records::FileHeaderText;
use std::alloc::Global;

/// Prints a file batch by batch, so that no more than one of them has to be laid out at a time.
///
/// A batch that is refused leaves the printer as it was.
#[derive(Drop)]
pub struct Printer {
    text: Vec<u8>,
    /// The number of batches, or a million if there are more.
    batches: u64,
    sums: Sums,
}

// Returns the reason why a batch is refused.
fn fault_of(measures: &Measures) -> Option<PrintFault>
    ensures { result ≡ measures_fault measures.now }
{
    if !measures.fit {
        Some(PrintFault::BadField)
    } else if is_large(&measures.sums) {
        Some(PrintFault::TotalTooLarge)
    } else if measures.is_any_long {
        Some(PrintFault::TooManyRecords)
    } else {
        None
    }
}

impl Printer {
    /// Begins a file with its header.
    ///
    /// Fails with `BadField` where a field of the header has no text.
    pub fn new(alloc: Global, header: &FileHeaderText) -> Result<Printer, PrintFault>
        ensures ok { IfOk result (λ p. HasPrinted p header.now []) }
        ensures err { IfErr result (λ f. TellsPrint f (header_fault header.now)) }
    {
        let Some(record) = file_header_record(header) else {
            return Err(PrintFault::BadField);
        };
        let mut text = Vec::new(alloc);
        put(&mut text, &record)?;
        Ok(Printer {
            text,
            batches: 0,
            sums: NO_SUMS,
        })
    }

    /// Prints a batch after those before.
    ///
    /// Fails with `BadField` where a field has no text, then with `TotalTooLarge` where the debits or the
    /// credits exceed 999,999,999,999 cents, then with `TooManyRecords` where the batch has more than
    /// 999,999 entries and addenda. The printer then stays as it was, also where memory ran out.
    pub fn put(&mut self, batch: &OutgoingBatch) -> Result<(), PrintFault>
        ensures ok { PrintsBatch self.old self.new batch.now result }
        ensures fits { OnOk result (batch_fault batch.now ≡ None) }
        ensures err { IfErr result (λ f. TellsPrint f (batch_fault batch.now)) }
        ensures unchanged { StaysPrinted self.old self.new result }
    {
        let own = measures_of(batch);
        if let Some(fault) = fault_of(&own) {
            return Err(fault);
        }
        let length = self.text.len();
        if put_batch(&mut self.text, batch).is_err() {
            self.text.truncate(length);
            return Err(PrintFault::NoMemory);
        }
        self.batches = self.batches.saturating_add(1).min(SIX_DIGITS + 1);
        self.sums = add_sums(self.sums, own.sums);
        Ok(())
    }

    /// Ends the file with its control and the fewest records of nines that make the number of records a
    /// multiple of ten.
    ///
    /// Fails as `print_file` does for the same file: `TotalTooLarge` comes before `TooManyRecords`.
    pub fn finish(self) -> Result<Vec<u8>, PrintFault>
        ensures ok { (o : Outgoing) → HasPrintedAll self o → IfOk result (IsPrintOf o) }
        ensures err { (o : Outgoing) → HasPrintedAll self o → IfErr result (IsPrintFaultOf o) }
    {
        let Printer {
            text,
            batches,
            sums,
        } = self;
        let mut text = text;
        let control = control_of(batches, false, &sums)?;
        put_control(&mut text, &control)?;
        put_fillers(&mut text, fillers_of(&control))?;
        Ok(text)
    }
}
