//! The rows of lines are written, sixteen by one statement as long as there are so many.
ghost use Rattle.std.specs.Prelude.{◌≡◌};
ghost use Rattle.sqlite.specs.Values.{bound};
ghost use Rattle.sql_tables.specs.Layout.{desk_layout};
ghost use Rattle.sql_writes.specs.LineEdits.{put_posting_edit};
ghost use Rattle.sql_writes.specs.LineRows.{held_line, stored_line};

use crate::account_lines::accounts::short_account_text;
use crate::batches::BatchBody;
use crate::held_rows::{HoldBody, hold_sixteen};
use ach_fields::ShortText;
use desk_accounts::Posting;
use sql_statements::{RowBody, execute, number};
use sql_tables::{MOST_ACCOUNT_CHARACTERS, cause, characters, date, integer, line_reference};
use sqlite::types::ValueRef;
use sqlite::{Alter, Error, Transaction};

/// `LineRows` are the rows of lines, each under its number.
#[derive(Clone, Copy)]
pub(crate) struct LineRows;

impl RowBody for LineRows {
    type Row = Posting;

    ghost layout = { desk_layout };

    ghost edit = { λ _. put_posting_edit };

    fn run_row<S: Alter>(
        &self,
        tx: &mut Transaction<'_, S>,
        number: u64,
        line: &Posting,
    ) -> Result<(), Error> {
        let row = self.hold(number, line)?;
        execute(
            tx,
            "INSERT INTO postings VALUES (?1, ?2, ?3, ?4, ?5, ?6, ?7)",
            &values_of(&row),
        )?;
        Ok(())
    }
}

impl BatchBody for LineRows {
    fn run_batch<S: Alter>(
        &self,
        tx: &mut Transaction<'_, S>,
        first: u64,
        lines: &[Posting],
    ) -> Result<(), Error> {
        let rows = hold_sixteen(self, first, lines)?;
        let values = rows.each_ref().map(values_of);
        execute(
            tx,
            "INSERT INTO postings VALUES \
             (?, ?, ?, ?, ?, ?, ?), (?, ?, ?, ?, ?, ?, ?), (?, ?, ?, ?, ?, ?, ?), (?, ?, ?, ?, ?, ?, ?), \
             (?, ?, ?, ?, ?, ?, ?), (?, ?, ?, ?, ?, ?, ?), (?, ?, ?, ?, ?, ?, ?), (?, ?, ?, ?, ?, ?, ?), \
             (?, ?, ?, ?, ?, ?, ?), (?, ?, ?, ?, ?, ?, ?), (?, ?, ?, ?, ?, ?, ?), (?, ?, ?, ?, ?, ?, ?), \
             (?, ?, ?, ?, ?, ?, ?), (?, ?, ?, ?, ?, ?, ?), (?, ?, ?, ?, ?, ?, ?), (?, ?, ?, ?, ?, ?, ?)",
            values.as_flattened(),
        )?;
        Ok(())
    }
}

impl HoldBody for LineRows {
    type Held = LineRow;

    ghost held = { λ _. held_line };

    fn hold(&self, number: u64, line: &Posting) -> Result<LineRow, Error> {
        Ok(LineRow {
            number: integer(number)?,
            account: short_account_text(&line.account)?,
            index: integer(line.idx)?,
            line: *line,
        })
    }
}

/// A `LineRow` is what a row stores, beside the line whose texts it borrows.
#[derive(Clone, Copy)]
pub(crate) struct LineRow {
    number: i64,
    account: ShortText<MOST_ACCOUNT_CHARACTERS>,
    index: i64,
    line: Posting,
}

// The values of a row.
fn values_of<'a>(row: &'a LineRow) -> [ValueRef<'a>; 7]
    ensures { bound result ≡ stored_line row.now }
{
    [
        number(row.number),
        characters(row.account.bytes()),
        date(row.line.value_day),
        number(row.line.cents),
        cause(row.line.cause),
        line_reference(&row.line.reference),
        number(row.index),
    ]
}
