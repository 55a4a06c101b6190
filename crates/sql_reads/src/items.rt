//! A company's returns and notifications of change, each with the reference of its submission. The
//! submission is looked up once where lines of one submission follow one another, as they do in a file.
ghost use Rattle.std.specs.Prelude.{◌≡◌, ℕ, Some};
ghost use Rattle.desk_history.specs.declared.reports.ChangeRow.{ChangeRow};
ghost use Rattle.desk_history.specs.declared.reports.ReturnRow.{ReturnRow};
ghost use Rattle.sql_tables.specs.declared.row.submissions.SubmissionFacts.{SubmissionFacts};
ghost use Rattle.sql_tables.specs.Composed.{change_row_of, return_row_of};
ghost use Rattle.sql_queries.specs.Asking.{Asks};
ghost use Rattle.sql_read_steps.specs.Answers.{LearnsEach, LearnsOn};
ghost use Rattle.sql_reads.specs.ItemsFound.{AreChangeRowsOf, AreReturnRowsOf, row_in};
ghost use Rattle.sql_reads.specs.Known.{Knowing};

use crate::last_submission::{LastSubmission, facts_of};
use ach_fields::Id;
use desk_history::{ChangeRow, ReturnRow};
use desk_store::StoreFault;
use emptying_lists::EmptyingList;
use sql_queries::{change_lines, return_lines};
use sql_read_steps::or_unavailable;
use sql_tables::{ChangeLine, ReturnLine, SubmissionFacts};
use sqlite::{Alter, Connection};
use std::alloc::Global;

/// A line of the table of returns or of changes, which names its submission by order number.
trait ItemLine: Drop {
    type Row: Drop;

    ghost order: { Self → ℕ };

    ghost row: { Self → SubmissionFacts → Self.Row };

    /// Returns the order number of the line's submission.
    fn order(&self) -> u64
        ensures { result ≡ order self.now };

    /// Returns the line as its company reads it, with what its submission says.
    fn row(&self, facts: &SubmissionFacts) -> Self::Row
        ensures { result ≡ row self.now facts.now };
}

impl ItemLine for ReturnLine {
    type Row = ReturnRow;

    ghost order = { λ line. line.order };

    ghost row = { return_row_of };

    fn order(&self) -> u64 {
        self.order
    }

    fn row(&self, facts: &SubmissionFacts) -> ReturnRow {
        ReturnRow {
            code: self.back.code,
            day: self.back.day,
            index: self.back.index,
            info: self.info,
            late: self.back.late,
            reference: facts.reference,
        }
    }
}

impl ItemLine for ChangeLine {
    type Row = ChangeRow;

    ghost order = { λ line. line.order };

    ghost row = { change_row_of };

    fn order(&self) -> u64 {
        self.order
    }

    fn row(&self, facts: &SubmissionFacts) -> ChangeRow {
        ChangeRow {
            code: self.code,
            day: self.day,
            index: self.index,
            reference: facts.reference,
            text: self.text,
        }
    }
}

// Reads the row of a line. A line of a submission that is not there leaves the store unable to act.
fn row_of<S: Alter, L: ItemLine>(
    conn: &mut Connection<S>,
    last: &mut Option<LastSubmission>,
    company: Id,
    line: &L,
) -> Result<L::Row, StoreFault>
    ensures { LearnsOn S.Store conn.old conn.new result (λ found. Knowing last.old last.new
        (λ t. Some found ≡ row_in L.ItemLine.order L.ItemLine.row company t line.now)) }
{
    match facts_of(conn, last, company, line.order())? {
        Some(facts) => Ok(line.row(&facts)),
        None => Err(StoreFault::Unavailable),
    }
}

// Reads the rows of a company's lines.
fn rows_of<S: Alter, L: ItemLine>(
    conn: &mut Connection<S>,
    alloc: Global,
    company: Id,
    lines: Vec<L>,
) -> Result<Vec<L::Row>, StoreFault>
    ensures { LearnsEach S.Store conn.old conn.new result Some
        (row_in L.ItemLine.order L.ItemLine.row company) lines.items }
{
    let mut last = None;
    let mut left = EmptyingList::new(lines);
    let mut all = Vec::new(alloc);
    while let Some(line) = left.take_first() {
        all.push(row_of(conn, &mut last, company, &line)?)?;
    }
    Ok(all)
}

/// Reads a company's returns, in the order in which they were taken.
pub fn returns_of<S: Alter>(
    conn: &mut Connection<S>,
    alloc: Global,
    company: Id,
) -> Result<Vec<ReturnRow>, StoreFault>
    ensures { Asks S.Store conn.old conn.new result
        (λ found t. AreReturnRowsOf company found.items t) }
{
    let lines = or_unavailable(return_lines(conn, alloc, company))?;
    rows_of(conn, alloc, company, lines)
}

/// Reads the notifications of change for a company's entries, in the order in which they were taken.
pub fn changes_of<S: Alter>(
    conn: &mut Connection<S>,
    alloc: Global,
    company: Id,
) -> Result<Vec<ChangeRow>, StoreFault>
    ensures { Asks S.Store conn.old conn.new result
        (λ found t. AreChangeRowsOf company found.items t) }
{
    let lines = or_unavailable(change_lines(conn, alloc, company))?;
    rows_of(conn, alloc, company, lines)
}
