//! Rows of submissions.
ghost use Rattle.std.specs.Prelude.{[], ◌∷◌};
ghost use Rattle.sqlite_value.specs.Order.{column};
ghost use Rattle.sql_tables.specs.QueryRows.{submission_head_row, submission_facts_row, order_and_settlement_row};
ghost use Rattle.sql_tables.specs.Ranges.{FitsIfAny};
ghost use Rattle.sql_tables.specs.Reading.{Reads};
ghost use Rattle.sql_tables.specs.Columns.{retried_columns};
ghost use Rattle.sql_tables.specs.RowRanges.{RetriedFits, SubmissionHeadFits, SubmissionFactsFits, OrderAndSettlementFits};

use super::FromRow;
use crate::column::{read_column, read_number, read_ordinal};
use ach_fields::{Id, Ref, ShortText};
use desk_history::RetriedEntry;
use desk_rules::{Direction, MOST_ENTRIES, RuleDay, SecCode};
use sqlite::Row;

/// A `SubmissionHead` is what a row of `submissions` says of an accepted submission or retry, but
/// for where it was printed.
#[derive(Clone, Copy, Debug, PartialEq, Eq, Drop)]
pub struct SubmissionHead {
    pub company: Id,
    /// Its number among the company's accepted submissions and retries, from 1.
    pub order: u64,
    pub reference: Ref,
    pub sec: SecCode,
    pub direction: Direction,
    pub description: ShortText<10>,
    /// The day on which the company wants it to settle.
    pub asked: RuleDay,
    /// The entry that a retry tries again.
    pub retried: Option<RetriedEntry>,
    /// Is it a retry that would have settled too late?
    pub lapsed: bool,
    /// The day on which it settles, once a cut has sent it.
    pub settled: Option<RuleDay>,
}

/// `SubmissionFacts` are what a submission says of each of its entries.
#[derive(Clone, Copy, Debug, PartialEq, Eq, Drop)]
pub struct SubmissionFacts {
    pub reference: Ref,
    pub sec: SecCode,
    pub direction: Direction,
    /// The day on which it settles, once a cut has sent it.
    pub settled: Option<RuleDay>,
}

/// An `OrderAndSettlement` says which submission of its company it is, and when it settles.
#[derive(Clone, Copy, Debug, PartialEq, Eq, Drop)]
pub struct OrderAndSettlement {
    /// Its number among the company's accepted submissions and retries, from 1.
    pub order: u64,
    /// The day on which it settles, once a cut has sent it.
    pub settled: Option<RuleDay>,
}

impl FromRow for SubmissionHead {
    ghost stored_row = { submission_head_row };

    ghost fits = { SubmissionHeadFits };

    fn from_row(row: &Row) -> Option<SubmissionHead> {
        if row.column_count() != 11 {
            return None;
        }
        let company = read_column(row, 0)?;
        let order = read_ordinal(row, 1)?;
        let reference = read_column(row, 2)?;
        let sec = read_column(row, 3)?;
        let direction = read_column(row, 4)?;
        let description = read_column(row, 5)?;
        let asked = read_column(row, 6)?;
        let retried = read_retried(row)?;
        let lapsed = read_column(row, 9)?;
        let settled = read_column(row, 10)?;
        Some(SubmissionHead {
            company,
            order,
            reference,
            sec,
            direction,
            description,
            asked,
            retried,
            lapsed,
            settled,
        })
    }
}

// The entry that a retry tries again, out of the columns of_ref and of_index.
fn read_retried(row: &Row) -> Option<Option<RetriedEntry>>
    ensures { Reads retried_columns (FitsIfAny RetriedFits)
        (column row.now 7 ∷ column row.now 8 ∷ []) result }
{
    match read_column(row, 7)? {
        None => match read_column::<Option<u64>>(row, 8)? {
            None => Some(None),
            Some(_) => None,
        },
        Some(of) => {
            let index = read_number(row, 8, 1, MOST_ENTRIES as u64)?;
            Some(Some(RetriedEntry { of, index }))
        }
    }
}

impl FromRow for SubmissionFacts {
    ghost stored_row = { submission_facts_row };

    ghost fits = { SubmissionFactsFits };

    fn from_row(row: &Row) -> Option<SubmissionFacts> {
        if row.column_count() != 4 {
            return None;
        }
        Some(SubmissionFacts {
            reference: read_column(row, 0)?,
            sec: read_column(row, 1)?,
            direction: read_column(row, 2)?,
            settled: read_column(row, 3)?,
        })
    }
}

impl FromRow for OrderAndSettlement {
    ghost stored_row = { order_and_settlement_row };

    ghost fits = { OrderAndSettlementFits };

    fn from_row(row: &Row) -> Option<OrderAndSettlement> {
        if row.column_count() != 2 {
            return None;
        }
        Some(OrderAndSettlement {
            order: read_ordinal(row, 0)?,
            settled: read_column(row, 1)?,
        })
    }
}
