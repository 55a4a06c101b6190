//! Makes the records of a file to print, if their fields have texts.
ghost use Rattle.std.specs.Prelude.{◌≡◌, ◌<◌, ◌∷◌, [], ℕ, List, Some, None, true, Option, Result, Ok, Err};
ghost use Rattle.ach_records.specs.Print.{Value, Prints, row_fits, entry_row, file_header_row, batch_header_row, batch_control_row};
ghost use Rattle.ach_files.specs.Outgoing.{entry_of, addenda_rows_of, batch_control, IsText};

use super::totals::sums_of_entries;
use crate::outgoing::{Addenda, OutgoingBatch, OutgoingEntry};
use crate::sums::cents_of;
use ach_fields::FieldFault;
use ach_records::{
    Addenda05Text, BatchControlText, BatchHeaderText, EntryText, FileHeaderText, print_addenda05,
    print_batch_control, print_batch_header, print_change98, print_entry, print_file_header,
    print_return99,
};

/// Returns the printed text, or `None` if printing failed.
pub fn record_of(outcome: Result<(), FieldFault>, text: [u8; 94]) -> Option<[u8; 94]>
    ensures { (old : List ℕ) (row : List Value) → Prints outcome old text row → IsText result row }
{
    match outcome {
        Ok(()) => Some(text),
        Err(_) => None,
    }
}

/// Returns the text of a file header, or `None` if a field has none.
pub fn file_header_record(header: &FileHeaderText) -> Option<[u8; 94]>
    ensures { IsText result (file_header_row header.now) }
{
    let mut record = [0; 94];
    let outcome = print_file_header(header, &mut record);
    record_of(outcome, record)
}

/// Returns the text of a batch header, or `None` if a field has none.
pub fn batch_header_record(header: &BatchHeaderText) -> Option<[u8; 94]>
    ensures { IsText result (batch_header_row header.now) }
{
    let mut record = [0; 94];
    let outcome = print_batch_header(header, &mut record);
    record_of(outcome, record)
}

fn has_addenda(addenda: &Addenda) -> bool
    ensures { result ≡ Rattle.ach_files.specs.Outgoing.has_addenda addenda.now }
{
    !matches!(addenda, Addenda::Absent)
}

/// Returns the text of an entry's record 6, or `None` if a field has none.
pub fn entry_record(entry: &OutgoingEntry) -> Option<[u8; 94]>
    ensures { IsText result (entry_row (entry_of entry.now)) }
{
    let mut record = [0; 94];
    let text = EntryText {
        transaction: entry.transaction,
        dfi: entry.dfi,
        check_digit: entry.check_digit,
        account: entry.account,
        cents: entry.cents,
        identification: entry.identification,
        name: entry.name,
        has_addenda: has_addenda(&entry.addenda),
        trace: entry.trace,
    };
    let outcome = print_entry(&text, &mut record);
    record_of(outcome, record)
}

/// Returns the text of an entry's addenda, or `None` if the entry has no addenda or a field has no
/// text.
pub fn addenda_record(entry: &OutgoingEntry) -> Option<[u8; 94]>
    ensures { (row : List Value) → addenda_rows_of entry.now ≡ row ∷ [] → IsText result row }
{
    let mut record = [0; 94];
    let outcome = match &entry.addenda {
        Addenda::Absent => return None,
        Addenda::Payment(information) => print_addenda05(
            &Addenda05Text {
                information,
                trace: entry.trace,
            },
            &mut record,
        ),
        Addenda::Change(change) => print_change98(change, &mut record),
        Addenda::Return(refusal) => print_return99(refusal, &mut record),
    };
    record_of(outcome, record)
}

fn batch_control_text<'a>(batch: &OutgoingBatch<'a>) -> BatchControlText<'a>
    requires { row_fits (batch_control_row (batch_control batch.now)) ≡ true }
    ensures { result ≡ batch_control batch.now }
{
    let sums = sums_of_entries(batch.entries);
    BatchControlText {
        service_class: batch.header.service_class,
        count: sums.count,
        hash: sums.hash,
        debits: cents_of(sums.debits),
        credits: cents_of(sums.credits),
        company: batch.header.company,
        odfi: batch.header.odfi,
        number: batch.header.number,
    }
}

/// Returns the text of a batch control, or `None` if a field has none.
pub fn batch_control_record(batch: &OutgoingBatch) -> Option<[u8; 94]>
    requires { row_fits (batch_control_row (batch_control batch.now)) ≡ true }
    ensures { IsText result (batch_control_row (batch_control batch.now)) }
{
    let mut record = [0; 94];
    let text = batch_control_text(batch);
    let outcome = print_batch_control(&text, &mut record);
    record_of(outcome, record)
}
