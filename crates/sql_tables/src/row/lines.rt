//! Rows of postings, of their sums and of numbers.
ghost use Rattle.sql_tables.specs.Description.{as_row};
ghost use Rattle.sql_tables.specs.DeskTables as the;
ghost use Rattle.sql_tables.specs.QueryRows.{posting_line_row, day_sum_row};
ghost use Rattle.sql_tables.specs.RowRanges.{PostingLineFits, NumberFits, DaySumFits};

use super::FromRow;
use crate::NumberRecord;
use crate::column::{read_column, read_line_reference, read_number, read_ordinal};
use ach_fields::{MOST_SEQUENCE, Ref};
use bank_days::Day;
use desk_accounts::Cause;
use desk_history::DaySum;
use desk_rules::MOST_ENTRIES;
use sqlite::Row;

/// A `PostingLine` is a line of an account that is known.
#[derive(Clone, Copy, Debug, PartialEq, Eq, Drop)]
pub struct PostingLine {
    /// The first day on which it counts.
    pub value_day: Day,
    /// The cents that it adds to the account, below zero where it takes.
    pub cents: i64,
    /// The cause for which it was posted.
    pub cause: Cause,
    /// The company's reference of the submission; none where the entry is not known.
    pub reference: Option<Ref>,
    /// The number of the entry in its submission, from 1; 0 for a whole submission, and where the
    /// entry is not known.
    pub idx: u64,
}

impl FromRow for PostingLine {
    ghost stored_row = { posting_line_row };

    ghost fits = { PostingLineFits };

    fn from_row(row: &Row) -> Option<PostingLine> {
        if row.column_count() != 5 {
            return None;
        }
        let value_day = read_column(row, 0)?;
        let cents = read_column(row, 1)?;
        let cause = read_column(row, 2)?;
        let reference = read_line_reference(row, 3)?;
        let idx = read_number(row, 4, 0, MOST_ENTRIES as u64)?;
        Some(PostingLine {
            value_day,
            cents,
            cause,
            reference,
            idx,
        })
    }
}

// A whole row of numbers.
impl FromRow for NumberRecord {
    ghost stored_row = { as_row the.sequences };

    ghost fits = { NumberFits };

    fn from_row(row: &Row) -> Option<NumberRecord> {
        if row.column_count() != 2 {
            return None;
        }
        let sequence = read_number(row, 0, 1, u64::from(MOST_SEQUENCE))?;
        let place = read_ordinal(row, 1)?;
        Some(NumberRecord {
            sequence: sequence as u32,
            place,
        })
    }
}

// A row of balances without its account.
impl FromRow for DaySum {
    ghost stored_row = { day_sum_row };

    ghost fits = { DaySumFits };

    fn from_row(row: &Row) -> Option<DaySum> {
        if row.column_count() != 2 {
            return None;
        }
        let day = read_column(row, 0)?;
        let cents = read_column(row, 1)?;
        Some(DaySum { cents, day })
    }
}
