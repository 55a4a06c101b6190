//! The rows of a list of entries.
ghost use Rattle.std.specs.Prelude.{◌≡◌, map, IfOk, OnOk};
ghost use Rattle.csv.specs.Records.{fields_of};
ghost use Rattle.cli_submit.specs.Bodies.{AddsEntry, AreEntries};
ghost use Rattle.cli_submit.specs.Lists.{entries_of_list, entries_of_rows, rows_in, IsUnlessNoMemory};

use crate::body::entry_value;
use crate::fault::{InputFault, SubmitFault};
use crate::row::{RowEntry, is_header, row_entry};
use csv::{ByteRecord, ReaderBuilder};
use serde_json::Value;
use std::alloc::{AllocError, Global};

/// Gives the entries of a list in CSV as JSON, or the first fault of its rows.
pub fn entries_of_list(alloc: Global, list: &[u8]) -> Result<Vec<Value>, SubmitFault>
    ensures { IsUnlessNoMemory AreEntries (entries_of_list list.now) result }
{
    let rows = rows_in(alloc, list)?;
    match rows.split_first() {
        Some((header, rows)) if is_header(header) => entries_of_rows(alloc, rows),
        _ => Err(SubmitFault::Input(InputFault::BadHeader)),
    }
}

// All rows that `csv` finds in a text, the header too.
fn rows_in(alloc: Global, text: &[u8]) -> Result<Vec<ByteRecord>, AllocError>
    ensures { IfOk result (λ rows. map fields_of rows.items ≡ rows_in text.now) }
{
    let reader = ReaderBuilder::new()
        .has_headers(false)
        .flexible(true)
        .from_reader(alloc, text);
    let mut rows = Vec::new(alloc);
    for row in reader.into_byte_records() {
        let Ok(row) = row else {
            return Err(AllocError);
        };
        rows.push(row)?;
    }
    Ok(rows)
}

fn entries_of_rows(alloc: Global, rows: &[ByteRecord]) -> Result<Vec<Value>, SubmitFault>
    ensures { IsUnlessNoMemory AreEntries (entries_of_rows (map fields_of rows.now)) result }
{
    let mut values = Vec::new(alloc);
    for row in rows {
        match row_entry(row) {
            Ok(entry) => push_entry(alloc, &mut values, &entry)?,
            Err(fault) => {
                let number = values.len() as u64 + 1;
                return Err(SubmitFault::Input(InputFault::Row(number, fault)));
            }
        }
    }
    Ok(values)
}

fn push_entry(
    alloc: Global,
    values: &mut Vec<Value>,
    entry: &RowEntry<'_>,
) -> Result<(), AllocError>
    ensures { OnOk result (AddsEntry entry.now values.old values.new) }
{
    values.push(entry_value(alloc, entry)?)?;
    Ok(())
}
