//! A row of a list of entries.
ghost use Rattle.std.specs.Prelude.{◌≡◌, option_map};
ghost use Rattle.csv.specs.Records.{fields_of};
ghost use Rattle.cli_submit.specs.Rows.{columns_in, text_at, entry_in, is_header, row_entry, columns_of, prenote_in, names_columns, unless_empty, GivesEntry};

use crate::fault::RowFault;
use ach_fields::take_number;
use csv::ByteRecord;

/// The columns of a list, in their order.
#[derive(Clone, Copy)]
pub struct Columns<'a> {
    pub routing: &'a str,
    pub account: &'a str,
    pub kind: &'a str,
    pub prenote: &'a str,
    pub cents: &'a str,
    pub id: &'a str,
    pub name: &'a str,
    pub info: &'a str,
}

/// The columns of a list.
const COLUMNS: usize = 8;

/// An entry as a row has it.
#[derive(Clone, Copy)]
pub struct RowEntry<'a> {
    pub routing: &'a str,
    pub account: &'a str,
    pub kind: &'a str,
    pub is_prenote: bool,
    pub cents: u64,
    pub id: &'a str,
    pub name: &'a str,
    pub info: Option<&'a str>,
}

/// Does a row name the eight columns?
pub fn is_header(row: &ByteRecord) -> bool
    ensures { result ≡ is_header (fields_of row.now) }
{
    match columns_in(row) {
        Some(columns) => names_columns(&columns),
        None => false,
    }
}

/// Returns the entry in a row, or the row's fault.
pub fn row_entry(row: &ByteRecord) -> Result<RowEntry<'_>, RowFault>
    ensures { GivesEntry (row_entry (fields_of row.now)) result }
{
    match columns_in(row) {
        Some(columns) => entry_in(&columns),
        None => Err(RowFault::BadRow),
    }
}

fn columns_in(row: &ByteRecord) -> Option<Columns<'_>>
    ensures { option_map columns_of result ≡ columns_in (fields_of row.now) }
{
    if row.len() != COLUMNS {
        return None;
    }
    Some(Columns {
        routing: text_at(row, 0)?,
        account: text_at(row, 1)?,
        kind: text_at(row, 2)?,
        prenote: text_at(row, 3)?,
        cents: text_at(row, 4)?,
        id: text_at(row, 5)?,
        name: text_at(row, 6)?,
        info: text_at(row, 7)?,
    })
}

// The field at a place, if there is one and it is UTF-8.
fn text_at(row: &ByteRecord, place: usize) -> Option<&str>
    ensures { option_map (λ t. t.now) result ≡ text_at place (fields_of row.now) }
{
    str::from_utf8(row.get(place)?).ok()
}

fn names_columns(columns: &Columns<'_>) -> bool
    ensures { result ≡ names_columns (columns_of columns.now) }
{
    columns.routing == "routing"
        && columns.account == "account"
        && columns.kind == "kind"
        && columns.prenote == "prenote"
        && columns.cents == "cents"
        && columns.id == "id"
        && columns.name == "name"
        && columns.info == "info"
}

fn entry_in<'a>(columns: &Columns<'a>) -> Result<RowEntry<'a>, RowFault>
    ensures { GivesEntry (entry_in (columns_of columns.now)) result }
{
    let Ok(cents) = take_number(columns.cents.as_bytes()) else {
        return Err(RowFault::BadCents);
    };
    let Some(is_prenote) = prenote_in(columns.prenote) else {
        return Err(RowFault::BadPrenote);
    };
    Ok(RowEntry {
        routing: columns.routing,
        account: columns.account,
        kind: columns.kind,
        is_prenote,
        cents,
        id: columns.id,
        name: columns.name,
        info: unless_empty(columns.info),
    })
}

fn prenote_in(text: &str) -> Option<bool>
    ensures { result ≡ prenote_in text.now }
{
    match text {
        "yes" => Some(true),
        "" => Some(false),
        _ => None,
    }
}

// A text that is left out where it is empty.
fn unless_empty(text: &str) -> Option<&str>
    ensures { option_map (λ t. t.now) result ≡ unless_empty text.now }
{
    if text.is_empty() { None } else { Some(text) }
}
