//! Each field of a file that is to be printed must have a text.
ghost use Rattle.std.specs.Prelude.{◌≡◌, ◌<◌, List, true, Option};
ghost use Rattle.std.specs.List.{list_all};
ghost use Rattle.ach_records.specs.Print.{Value, row_fits};
ghost use Rattle.ach_files.specs.Outgoing.{addenda_rows_of, entry_rows, entry_fits, batch_fits, fields_fit, IsText};

use super::records::{addenda_record, batch_header_record, entry_record, file_header_record};
use crate::outgoing::{Addenda, Outgoing, OutgoingBatch, OutgoingEntry};

fn has_text(text: Option<[u8; 94]>) -> bool
    ensures { (values : List Value) → IsText text values → result ≡ row_fits values }
{
    text.is_some()
}

fn fits_addenda(entry: &OutgoingEntry) -> bool
    ensures { result ≡ list_all row_fits (addenda_rows_of entry.now) }
{
    match entry.addenda {
        Addenda::Absent => true,
        _ => has_text(addenda_record(entry)),
    }
}

#[tactic(auto, unfolding(crate::specs::Outgoing::entry_fits, crate::specs::Outgoing::entry_rows))]
fn fits_entry(entry: &OutgoingEntry) -> bool
    ensures { result ≡ entry_fits entry.now }
{
    has_text(entry_record(entry)) && fits_addenda(entry)
}

fn fit_entries(entries: &[OutgoingEntry]) -> bool
    ensures { result ≡ list_all entry_fits entries.now }
{
    entries.iter().all(|entry| fits_entry(entry))
}

/// Reports whether each field of the batch has a text.
#[tactic(auto, unfolding(crate::specs::Outgoing::batch_fits))]
pub fn fits_batch(batch: &OutgoingBatch) -> bool
    ensures { result ≡ batch_fits batch.now }
{
    has_text(batch_header_record(&batch.header)) && fit_entries(batch.entries)
}

/// Reports whether each field of the file has a text, given whether those of the batches have.
#[tactic(auto, unfolding(crate::specs::Outgoing::fields_fit))]
pub fn fits(outgoing: &Outgoing, batches_fit: bool) -> bool
    requires { batches_fit ≡ list_all batch_fits outgoing.now.batches.now }
    ensures { result ≡ fields_fit outgoing.now }
{
    has_text(file_header_record(&outgoing.header)) && batches_fit
}
