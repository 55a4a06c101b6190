//! The texts of the files that a cut makes.
ghost use Rattle.std.specs.Prelude.{◌≡◌, ◌≤◌, ◌<◌, ◌+◌, true, IsTrue, All, IfOk, length, map};
ghost use Rattle.std.specs.List.{list_all};
ghost use Rattle.ach_fields.specs.Characters.{is_printable};
ghost use Rattle.ach_fields.specs.Routing.{dfi_of, digit_at};
ghost use Rattle.ach_fields.specs.Trace.{trace_text, sequence_in, most_sequence};
ghost use Rattle.ach_fields.specs.Ymd.{is_date_text};
ghost use Rattle.ach_records.specs.Print.{row_fits, file_header_row, batch_header_row};
ghost use Rattle.ach_files.specs.Outgoing.{entry_fits};
ghost use Rattle.bank_days.specs.Day.{day_ymd};
ghost use Rattle.desk_plan.specs.Files.{most_batches};
ghost use Rattle.desk_history.specs.Files.{payment, transaction_of, outgoing_batch, text_of};
ghost use Rattle.desk_cut.specs.Plain.{plain_addenda, plain_entry, plain_batch_header, plain_file_header};
ghost use Rattle.desk_cut.specs.Printing.{AddendaFit, AreEntriesOf, Prints, PrintsAll, outgoing_batches, outgoing_header};
ghost use Rattle.desk_cut.specs.Sendable.{IsSendable, IsPrintable};
ghost use Rattle.desk_cut.specs.Sent.{batch_in, file_header, file_of, outgoing_as};

use crate::batches::{NumberedBatch, sequence_of};
use ach_fields::{Routing, ShortText, Trace, Ymd};
use ach_files::{Addenda, OutgoingBatch, OutgoingEntry, PrintFault, Printer};
use ach_records::{BatchHeaderText, FileHeaderText};
use bank_days::Day;
use desk_history::Identity;
use desk_rules::{AccountKind, Entry};
use std::alloc::{AllocError, Global};

// 22 or 27 for checking, 32 or 37 for savings, one more for a prenote.
fn transaction_of(debit: bool, entry: &Entry) -> u8
    ensures value { result ≡ transaction_of debit entry.now }
    ensures within { result < 100 }
{
    let account = match entry.kind {
        AccountKind::Checking => 22,
        AccountKind::Savings => 32,
    };
    let way = if debit { 5 } else { 0 };
    let prenote = if entry.prenote { 1 } else { 0 };
    account + way + prenote
}

fn payment(information: &Option<ShortText<80>>) -> Addenda<'_>
    ensures value { plain_addenda result ≡ payment information.now }
    ensures fits { AddendaFit result }
{
    match information {
        Some(information) => Addenda::Payment(information.bytes()),
        None => Addenda::Absent,
    }
}

// Returns the trace of a batch's entry that has this many entries before it.
fn trace_of(odfi: Routing, batch: &NumberedBatch<'_>, before: u64) -> Trace
    requires { batch.now.first + before ≤ most_sequence }
    ensures value { result ≡ trace_text (dfi_of odfi) (batch.now.first + before) }
    ensures within { sequence_in result ≤ most_sequence }
{
    let sequence = sequence_of(batch, before);
    let Ok(trace) = Trace::new(odfi.dfi(), sequence) else {
        unreachable!();
    };
    let _sequence = trace.sequence();
    trace
}

fn check_digit(routing: Routing) -> u8
    ensures value { result ≡ digit_at routing 8 }
    ensures within { result < 10 }
{
    let _digits = routing.text();
    routing.digit()
}

// A batch's entry with its trace.
fn outgoing_entry<'a>(
    batch: &NumberedBatch<'_>,
    entry: &'a Entry,
    trace: Trace,
) -> OutgoingEntry<'a>
    requires { sequence_in trace ≤ most_sequence }
    ensures value { plain_entry result ≡ outgoing_as (batch_in batch.now) trace entry.now }
    ensures fits { entry_fits result ≡ true }
{
    let _digits = trace.text();
    OutgoingEntry {
        transaction: transaction_of(
            batch.waiting.row.content.submission().direction.is_debit(),
            entry,
        ),
        dfi: entry.routing.dfi(),
        check_digit: check_digit(entry.routing),
        account: entry.account.bytes(),
        cents: entry.cents.as_cents(),
        identification: entry.id.bytes(),
        name: entry.name.bytes(),
        trace,
        addenda: payment(&entry.info),
    }
}

// The entries of a batch.
fn outgoing_entries<'a>(
    alloc: Global,
    odfi: Routing,
    batch: &NumberedBatch<'a>,
) -> Result<Vec<OutgoingEntry<'a>>, AllocError>
    requires { IsSendable (batch_in batch.now) }
    ensures value { IfOk result (λ out. AreEntriesOf odfi (batch_in batch.now) out.items) }
    ensures fits { IfOk result (λ out. list_all entry_fits out.items ≡ true) }
{
    let entries = batch.waiting.row.content.submission().entries.as_slice();
    let mut outgoing = Vec::with_capacity(alloc, entries.len())?;
    for (index, entry) in entries.iter().enumerate() {
        let trace = trace_of(odfi, batch, index as u64);
        outgoing.extend_from_slice(&[outgoing_entry(batch, entry, trace)])?;
    }
    Ok(outgoing)
}

fn date_of(day: Day) -> Ymd
    ensures value { result ≡ day_ymd day }
    ensures valid { IsTrue (is_date_text result) }
{
    let date = day.ymd();
    let _digits = date.print();
    date
}

// The header of a batch with its number: 220 for credits, 225 for debits.
fn batch_header<'a>(odfi: Routing, number: u32, batch: &NumberedBatch<'a>) -> BatchHeaderText<'a>
    requires { number ≤ most_batches }
    ensures value { plain_batch_header result ≡ outgoing_header odfi number (batch_in batch.now) }
    ensures fits { row_fits (batch_header_row result) ≡ true }
{
    let waiting = batch.waiting;
    let content = waiting.row.content.submission();
    BatchHeaderText {
        service_class: if content.direction.is_debit() {
            225
        } else {
            220
        },
        company_name: waiting.company.name.bytes(),
        company: waiting.company.id.bytes(),
        sec: content.sec.text(),
        description: content.description.bytes(),
        effective: date_of(batch.settled.day()),
        settlement: None,
        odfi: odfi.dfi(),
        number,
    }
}

// A file of a cut prints unless memory runs out.
fn out_of_memory(fault: PrintFault) -> AllocError
    requires { fault ≡ PrintFault.NoMemory }
{
    match fault {
        PrintFault::NoMemory => AllocError,
        _ => unreachable!(),
    }
}

// Prints a batch with its number and its entries.
fn print_batch<'a>(
    printer: &mut Printer,
    odfi: Routing,
    number: u32,
    batch: &NumberedBatch<'a>,
    entries: &'a [OutgoingEntry<'a>],
) -> Result<(), AllocError>
    requires number { number ≤ most_batches }
    requires sendable { IsSendable (batch_in batch.now) }
    requires entries { AreEntriesOf odfi (batch_in batch.now) entries.now }
    requires fits { list_all entry_fits entries.now ≡ true }
    ensures { Prints printer.old printer.new result
        (outgoing_batch odfi (number, batch_in batch.now)) }
{
    let header: BatchHeaderText<'a> = batch_header(odfi, number, batch);
    match printer.put(&OutgoingBatch { header, entries }) {
        Ok(()) => Ok(()),
        Err(fault) => Err(out_of_memory(fault)),
    }
}

// Lays a batch out and prints it.
fn put_batch(
    alloc: Global,
    printer: &mut Printer,
    odfi: Routing,
    number: u32,
    batch: &NumberedBatch<'_>,
) -> Result<(), AllocError>
    requires number { number ≤ most_batches }
    requires sendable { IsSendable (batch_in batch.now) }
    ensures { Prints printer.old printer.new result
        (outgoing_batch odfi (number, batch_in batch.now)) }
{
    let entries = outgoing_entries(alloc, odfi, batch)?;
    // Lent again, since the entries live shorter than what the batch lends.
    print_batch(printer, odfi, number, &*batch, &entries)
}

// Prints the batches, numbered from 1.
fn put_batches(
    alloc: Global,
    printer: &mut Printer,
    odfi: Routing,
    batches: &[NumberedBatch<'_>],
) -> Result<(), AllocError>
    requires few { length batches.now ≤ most_batches }
    requires sendable { All (λ b. IsSendable (batch_in b)) batches.now }
    ensures { PrintsAll printer.old printer.new result
        (outgoing_batches odfi (map batch_in batches.now)) }
{
    for (index, batch) in batches.iter().enumerate() {
        put_batch(alloc, printer, odfi, index as u32 + 1, batch)?;
    }
    Ok(())
}

// The header of a file of a day.
fn file_header<'a>(identity: &'a Identity, day: Day, modifier: &'a [u8]) -> FileHeaderText<'a>
    requires one { length modifier.now ≡ 1 }
    requires printable { list_all is_printable modifier.now ≡ true }
    ensures value { plain_file_header result ≡ file_header identity.now day modifier.now }
    ensures fits { row_fits (file_header_row result) ≡ true }
{
    let _digits = (identity.destination.text(), identity.odfi.text());
    FileHeaderText {
        destination: identity.destination,
        origin: identity.odfi,
        date: date_of(day),
        time: None,
        modifier,
        destination_name: identity.destination_name.bytes(),
        origin_name: identity.odfi_name.bytes(),
    }
}

/// Gives the text of the file of a day with this modifier and these batches.
pub(crate) fn text_of(
    alloc: Global,
    identity: &Identity,
    day: Day,
    modifier: u8,
    batches: &[NumberedBatch<'_>],
) -> Result<Vec<u8>, AllocError>
    requires { IsPrintable (file_of day modifier batches.now) }
    ensures { IfOk result
        (λ text. text.items ≡ text_of identity.now (file_of day modifier batches.now)) }
{
    let modifiers = [modifier];
    let header = file_header(identity, day, &modifiers);
    let mut printer = match Printer::new(alloc, &header) {
        Ok(printer) => printer,
        Err(fault) => return Err(out_of_memory(fault)),
    };
    put_batches(alloc, &mut printer, identity.odfi, batches)?;
    match printer.finish() {
        Ok(text) => Ok(text),
        Err(fault) => Err(out_of_memory(fault)),
    }
}
