//! A transaction does the same for each row of a list.
ghost use Rattle.std.specs.Prelude.{ℕ};
ghost use Rattle.sql_statements.specs.Edits.{Edit};
ghost use Rattle.sql_statements.specs.Layouts.{Layout};
ghost use Rattle.sql_statements.specs.Transactions.{Makes, RunsEach};
ghost use Rattle.sql_statements.specs.Promises.{Runs};

use sqlite::{Alter, Error, ErrorCode, Transaction};

/// A `RowBody` has the statements of one row of a list, which make an edit of the tables. Rows are
/// numbered, as table columns want it that go on from a last number.
pub trait RowBody {
    type Row;

    /// Says how the tables stand in the database.
    ghost layout: { Layout };

    /// Says what becomes of the tables for a row that has this number.
    ghost edit: { Self → ℕ → Self.Row → Edit layout.Tables };

    /// Runs the statements of a row. After an error the transaction has to be rolled back.
    fn run_row<S: Alter>(
        &self,
        tx: &mut Transaction<'_, S>,
        number: u64,
        row: &Self::Row,
    ) -> Result<(), Error>
        ensures { Runs S.Store tx.old.conn tx.new.conn result
            (Makes layout (edit self.now number row.now)) };
}

/// Runs the statements of each row, in order, with numbers from the first on. Where no number comes
/// after that of a row, it ends with `ErrorCode::IntegerOverflow`.
pub fn run_each<S: Alter, B: RowBody>(
    tx: &mut Transaction<'_, S>,
    body: &B,
    first: u64,
    rows: &[B::Row],
) -> Result<(), Error>
    ensures { RunsEach S.Store tx.old tx.new result
        B.RowBody.layout (B.RowBody.edit body.now) first rows.now }
{
    let mut number = first;
    for row in rows {
        body.run_row(tx, number, row)?;
        number = match number.checked_add(1) {
            Some(next) => next,
            None => return Err(Error::SqliteFailure(ErrorCode::IntegerOverflow)),
        };
    }
    Ok(())
}
