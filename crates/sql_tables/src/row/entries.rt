//! Rows of entries.
ghost use Rattle.std.specs.Prelude.{◌≡◌, ◌≤◌, ◌↔◌, Some, IsTrue};
ghost use Rattle.desk_rules.specs.Fields.{entry_cents_of};
ghost use Rattle.sql_tables.specs.QueryRows.{entry_amount_row, entry_place_row, numbered_entry_row, placed_entry_row};
ghost use Rattle.sql_tables.specs.Columns.{entry_columns, entry_columns_from};
ghost use Rattle.sql_tables.specs.Reading.{Reads};
ghost use Rattle.sql_tables.specs.RowRanges.{EntryAmountFits, EntryFits, EntryPlaceFits, NumberedEntryFits, PlacedEntryFits};

use super::FromRow;
use crate::column::{read_column, read_number, read_ordinal, read_text_or_empty};
use ach_fields::Id;
use desk_rules::{Entry, EntryCents, MOST_ENTRIES};
use sqlite::Row;

/// A `NumberedEntry` is an entry of a submission.
#[derive(Clone, Copy, Debug, PartialEq, Eq, Drop)]
pub struct NumberedEntry {
    /// Its number in the submission, from 1.
    pub index: u64,
    pub entry: Entry,
}

/// An `EntryAmount` is what an entry of a submission counts for, without its names and texts.
#[derive(Clone, Copy, Debug, PartialEq, Eq, Drop)]
pub struct EntryAmount {
    /// Its number in the submission, from 1.
    pub index: u64,
    pub prenote: bool,
    pub cents: EntryCents,
}

/// A `PlacedEntry` is an entry with the submission that it is of.
#[derive(Clone, Copy, Debug, PartialEq, Eq, Drop)]
pub struct PlacedEntry {
    pub company: Id,
    /// The number of its submission in the company.
    pub order: u64,
    /// Its number in the submission, from 1.
    pub index: u64,
    pub entry: Entry,
}

/// An `EntryPlace` says of which submission an entry is, and when it was sent among all entries.
#[derive(Clone, Copy, Debug, PartialEq, Eq, Drop)]
pub struct EntryPlace {
    pub company: Id,
    /// The number of its submission in the company.
    pub order: u64,
    /// Its place among all sent entries, once a cut has sent it.
    pub place: Option<u64>,
}

impl FromRow for NumberedEntry {
    ghost stored_row = { numbered_entry_row };

    ghost fits = { NumberedEntryFits };

    fn from_row(row: &Row) -> Option<NumberedEntry> {
        if row.column_count() != 9 {
            return None;
        }
        let index = read_number(row, 0, 1, MOST_ENTRIES as u64)?;
        let entry = read_entry(row, 1)?;
        Some(NumberedEntry { index, entry })
    }
}

impl FromRow for EntryAmount {
    ghost stored_row = { entry_amount_row };

    ghost fits = { EntryAmountFits };

    fn from_row(row: &Row) -> Option<EntryAmount> {
        if row.column_count() != 3 {
            return None;
        }
        let index = read_number(row, 0, 1, MOST_ENTRIES as u64)?;
        let prenote = read_column(row, 1)?;
        let cents = read_column(row, 2)?;
        Some(EntryAmount {
            index,
            prenote,
            cents,
        })
    }
}

impl FromRow for PlacedEntry {
    ghost stored_row = { placed_entry_row };

    ghost fits = { PlacedEntryFits };

    fn from_row(row: &Row) -> Option<PlacedEntry> {
        if row.column_count() != 11 {
            return None;
        }
        let company = read_column(row, 0)?;
        let order = read_ordinal(row, 1)?;
        let index = read_number(row, 2, 1, MOST_ENTRIES as u64)?;
        let entry = read_entry(row, 3)?;
        Some(PlacedEntry {
            company,
            order,
            index,
            entry,
        })
    }
}

impl FromRow for EntryPlace {
    ghost stored_row = { entry_place_row };

    ghost fits = { EntryPlaceFits };

    fn from_row(row: &Row) -> Option<EntryPlace> {
        if row.column_count() != 3 {
            return None;
        }
        let company = read_column(row, 0)?;
        let order = read_ordinal(row, 1)?;
        let place = read_column(row, 2)?;
        Some(EntryPlace {
            company,
            order,
            place,
        })
    }
}

// The entry in eight columns, of which the first has this index.
fn read_entry(row: &Row, first: usize) -> Option<Entry>
    requires { first ≤ 3 }
    ensures { Reads entry_columns EntryFits (entry_columns_from row.now first) result }
{
    let routing = read_column(row, first)?;
    let account = read_column(row, first + 1)?;
    let kind = read_column(row, first + 2)?;
    let prenote = read_column(row, first + 3)?;
    let cents = read_column(row, first + 4)?;
    if !is_entry_amount(cents, prenote) {
        return None;
    }
    let id = read_text_or_empty(row, first + 5)?;
    let name = read_column(row, first + 6)?;
    let info = read_column(row, first + 7)?;
    Some(Entry {
        routing,
        account,
        kind,
        prenote,
        cents,
        id,
        name,
        info,
    })
}

// May an entry have so many cents? A prenote has none, and what is no prenote has some.
fn is_entry_amount(cents: EntryCents, prenote: bool) -> bool
    ensures { IsTrue result ↔ (entry_cents_of prenote cents ≡ Some cents) }
{
    if prenote {
        cents.get() == 0
    } else {
        cents.get() >= 1
    }
}
