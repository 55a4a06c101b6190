//! Rows of returns, changes and suspense, and of the files that had them.
ghost use Rattle.sql_tables.specs.Description.{as_row};
ghost use Rattle.sql_tables.specs.DeskTables as the;
ghost use Rattle.sql_tables.specs.QueryRows.{entry_return_row, return_line_row, change_line_row, suspense_line_row};
ghost use Rattle.sql_tables.specs.RowRanges.{EntryReturnFits, ReturnLineFits, ChangeLineFits, SuspenseFits, TakenFits};

use super::FromRow;
use crate::column::{read_column, read_digest, read_number, read_ordinal};
use bank_days::Day;
use desk_history::{Intake, SuspenseRow, TakenFile};
use desk_rules::{MOST_ENTRIES, ReturnCode};
use sqlite::Row;

/// An `EntryReturn` says which entry of a submission came back, and how.
#[derive(Clone, Copy, Debug, PartialEq, Eq, Drop)]
pub struct EntryReturn {
    /// The entry's number in its submission, from 1.
    pub index: u64,
    pub code: ReturnCode,
    /// The day on which it was taken.
    pub day: Day,
    /// Was it taken after its return deadline?
    pub late: bool,
}

/// A `ReturnLine` is a return of an entry of a company, with its information.
#[derive(Clone, Copy, Debug, PartialEq, Eq, Drop)]
pub struct ReturnLine {
    /// The number of its row: they rise in the order in which returns came.
    pub number: u64,
    /// The number of the entry's submission in the company.
    pub order: u64,
    pub back: EntryReturn,
    /// The addenda information of the returning bank (the RDFI), with the blanks at its end.
    pub info: [u8; 44],
}

/// A `ChangeLine` is a notification of change of an entry of a company.
#[derive(Clone, Copy, Debug, PartialEq, Eq, Drop)]
pub struct ChangeLine {
    /// The number of the entry's submission in the company.
    pub order: u64,
    /// The entry's number in its submission, from 1.
    pub index: u64,
    /// The change code, C01 to C14.
    pub code: [u8; 3],
    /// The day on which it was taken.
    pub day: Day,
    /// The corrected data, as it stands in the file.
    pub text: [u8; 29],
}

impl FromRow for EntryReturn {
    ghost stored_row = { entry_return_row };

    ghost fits = { EntryReturnFits };

    fn from_row(row: &Row) -> Option<EntryReturn> {
        if row.column_count() != 4 {
            return None;
        }
        Some(EntryReturn {
            index: read_number(row, 0, 1, MOST_ENTRIES as u64)?,
            code: read_column(row, 1)?,
            day: read_column(row, 2)?,
            late: read_column(row, 3)?,
        })
    }
}

impl FromRow for ReturnLine {
    ghost stored_row = { return_line_row };

    ghost fits = { ReturnLineFits };

    fn from_row(row: &Row) -> Option<ReturnLine> {
        if row.column_count() != 7 {
            return None;
        }
        let number = read_column(row, 0)?;
        let order = read_ordinal(row, 1)?;
        let index = read_number(row, 2, 1, MOST_ENTRIES as u64)?;
        let code = read_column(row, 3)?;
        let day = read_column(row, 4)?;
        let late = read_column(row, 5)?;
        let info = read_column(row, 6)?;
        Some(ReturnLine {
            number,
            order,
            back: EntryReturn {
                index,
                code,
                day,
                late,
            },
            info,
        })
    }
}

impl FromRow for ChangeLine {
    ghost stored_row = { change_line_row };

    ghost fits = { ChangeLineFits };

    fn from_row(row: &Row) -> Option<ChangeLine> {
        if row.column_count() != 5 {
            return None;
        }
        let order = read_ordinal(row, 0)?;
        let index = read_number(row, 1, 1, MOST_ENTRIES as u64)?;
        let code = read_column(row, 2)?;
        let day = read_column(row, 3)?;
        let text = read_column(row, 4)?;
        Some(ChangeLine {
            order,
            index,
            code,
            day,
            text,
        })
    }
}

// A row of suspense without its number.
impl FromRow for SuspenseRow {
    ghost stored_row = { suspense_line_row };

    ghost fits = { SuspenseFits };

    fn from_row(row: &Row) -> Option<SuspenseRow> {
        if row.column_count() != 7 {
            return None;
        }
        let file = read_column(row, 0)?;
        let item = read_ordinal(row, 1)?;
        let why = read_column(row, 2)?;
        let code = read_column(row, 3)?;
        let trace = read_column(row, 4)?;
        let cents = read_column(row, 5)?;
        let day = read_column(row, 6)?;
        Some(SuspenseRow {
            cents,
            code,
            day,
            file,
            item,
            trace,
            why,
        })
    }
}

// A whole row of taken.
impl FromRow for TakenFile {
    ghost stored_row = { as_row the.taken };

    ghost fits = { TakenFits };

    fn from_row(row: &Row) -> Option<TakenFile> {
        if row.column_count() != 7 {
            return None;
        }
        let key = read_column(row, 0)?;
        let digest = read_digest(row, 1)?;
        let day = read_column(row, 2)?;
        let returns = read_column(row, 3)?;
        let changes = read_column(row, 4)?;
        let late = read_column(row, 5)?;
        let suspense = read_column(row, 6)?;
        Some(TakenFile {
            key,
            digest,
            answer: Intake {
                changes,
                day,
                late,
                returns,
                suspense,
            },
        })
    }
}
