//! The text of a file is put together record by record.
ghost use Rattle.std.specs.Prelude.{◌≡◌, ◌+◌, ◌<◌, ◌++◌, ◌∷◌, [], List, Some, OnOk, OnErr, replicate, Option, IsSome, Result, Ok};
ghost use Rattle.std.specs.List.{flat_map};
ghost use Rattle.ach_records.specs.Print.{Value};
ghost use Rattle.ach_files.specs.Structure.{nines};
ghost use Rattle.ach_files.specs.Printing.{IsCounted};
ghost use Rattle.ach_files.specs.Outgoing.{file_control, addenda_rows_of, entry_rows, batch_rows, outgoing_rows, page, outgoing_text, IsText, Puts, PutsRow, BeginsWith, AllFit};

use super::control::{fillers_of, put_control};
use super::records::{
    addenda_record, batch_control_record, batch_header_record, entry_record, file_header_record,
};
use crate::outgoing::{Addenda, Outgoing, OutgoingBatch, OutgoingEntry};
use ach_records::FileControlText;
use std::alloc::AllocError;

/// Appends a record and an LF. On lack of memory the text begins with the old bytes.
pub fn put(out: &mut Vec<u8>, text: &[u8; 94]) -> Result<(), AllocError>
    ensures ok { OnOk result (out.new.items ≡ out.old.items ++ (text.now ++ 10 ∷ [])) }
    ensures err { OnErr result (BeginsWith out.new.items out.old.items) }
{
    out.extend_from_slice(text.as_slice())?;
    out.push(b'\n')?;
    Ok(())
}

/// Appends a record that has a text, and an LF.
pub fn put_record(out: &mut Vec<u8>, text: Option<[u8; 94]>) -> Result<(), AllocError>
    requires { IsSome text }
    ensures ok { (row : List Value) → IsText text row →
        OnOk result (PutsRow out.old.items out.new.items row) }
    ensures err { OnErr result (BeginsWith out.new.items out.old.items) }
{
    let Some(text) = text else {
        unreachable!();
    };
    put(out, &text)
}

fn put_addenda(out: &mut Vec<u8>, entry: &OutgoingEntry) -> Result<(), AllocError>
    requires { AllFit (addenda_rows_of entry.now) }
    ensures ok { OnOk result (Puts out.old.items out.new.items (addenda_rows_of entry.now)) }
    ensures err { OnErr result (BeginsWith out.new.items out.old.items) }
{
    match entry.addenda {
        Addenda::Absent => Ok(()),
        _ => put_record(out, addenda_record(entry)),
    }
}

fn put_entry(out: &mut Vec<u8>, entry: &OutgoingEntry) -> Result<(), AllocError>
    requires { AllFit (entry_rows entry.now) }
    ensures ok { OnOk result (Puts out.old.items out.new.items (entry_rows entry.now)) }
    ensures err { OnErr result (BeginsWith out.new.items out.old.items) }
{
    put_record(out, entry_record(entry))?;
    put_addenda(out, entry)?;
    Ok(())
}

fn put_entries(out: &mut Vec<u8>, entries: &[OutgoingEntry]) -> Result<(), AllocError>
    requires { AllFit (flat_map entry_rows entries.now) }
    ensures ok { OnOk result (Puts out.old.items out.new.items (flat_map entry_rows entries.now)) }
    ensures err { OnErr result (BeginsWith out.new.items out.old.items) }
{
    for entry in entries {
        put_entry(out, entry)?;
    }
    Ok(())
}

/// Appends the records of a batch, whose fields have texts: header, entries with their addenda, and
/// control.
pub fn put_batch(out: &mut Vec<u8>, batch: &OutgoingBatch) -> Result<(), AllocError>
    requires { AllFit (batch_rows batch.now) }
    ensures ok { OnOk result (Puts out.old.items out.new.items (batch_rows batch.now)) }
    ensures err { OnErr result (BeginsWith out.new.items out.old.items) }
{
    put_record(out, batch_header_record(&batch.header))?;
    put_entries(out, batch.entries)?;
    put_record(out, batch_control_record(batch))?;
    Ok(())
}

fn put_batches(out: &mut Vec<u8>, batches: &[OutgoingBatch]) -> Result<(), AllocError>
    requires { AllFit (flat_map batch_rows batches.now) }
    ensures { OnOk result (Puts out.old.items out.new.items (flat_map batch_rows batches.now)) }
{
    for batch in batches {
        put_batch(out, batch)?;
    }
    Ok(())
}

fn put_rows(
    out: &mut Vec<u8>,
    outgoing: &Outgoing,
    control: &FileControlText,
) -> Result<(), AllocError>
    requires control { control.now ≡ file_control outgoing.now }
    requires fit { AllFit (outgoing_rows outgoing.now) }
    ensures { OnOk result (Puts out.old.items out.new.items (outgoing_rows outgoing.now)) }
{
    put_record(out, file_header_record(&outgoing.header))?;
    put_batches(out, outgoing.batches)?;
    put_control(out, control)?;
    Ok(())
}

/// Appends this many records of nines.
pub fn put_fillers(out: &mut Vec<u8>, count: u64) -> Result<(), AllocError>
    ensures { OnOk result (out.new.items ≡ out.old.items ++ page (replicate count nines)) }
{
    for _ in 0..count {
        put(out, &[b'9'; 94])?;
    }
    Ok(())
}

/// Adds the text of a file with this control.
pub fn put_file(
    out: &mut Vec<u8>,
    outgoing: &Outgoing,
    control: &FileControlText,
) -> Result<(), AllocError>
    requires control { control.now ≡ file_control outgoing.now }
    requires counted { IsCounted control.now }
    requires fit { AllFit (outgoing_rows outgoing.now) }
    ensures { OnOk result (out.new.items ≡ out.old.items ++ outgoing_text outgoing.now) }
{
    put_rows(out, outgoing, control)?;
    put_fillers(out, fillers_of(control))?;
    Ok(())
}
