//! A transaction does the same for each row of a list, for sixteen rows at a time as long as there are so
//! many.
ghost use Rattle.std.specs.Prelude.{◌≡◌, ◌+◌, ◌<◌, ◌^◌, length};
ghost use Rattle.sql_writes.specs.DeskEdits.{EditsEach};

use sql_statements::{RowBody, run_each};
use sqlite::{Alter, Error, ErrorCode, Transaction};

/// A `BatchBody` also has the statements of sixteen rows of a list at once, which make the edits of these
/// rows, one after another.
pub(crate) trait BatchBody: RowBody {
    /// Runs the statements of sixteen rows, of which the first has this number. After an error the
    /// transaction has to be rolled back.
    fn run_batch<S: Alter>(
        &self,
        tx: &mut Transaction<'_, S>,
        first: u64,
        rows: &[Self::Row],
    ) -> Result<(), Error>
        requires many { length rows.now ≡ 16 }
        requires numbers { first + 16 < 2 ^ 64 }
        ensures { EditsEach S.Store Self.layout tx.old tx.new result
            (Self.edit self.now) first rows.now };
}

/// Runs the statements of each row, in order, with numbers from the first on: of sixteen rows at once, and
/// one by one of those that are left. Where no number comes after that of a row, it ends with
/// `ErrorCode::IntegerOverflow`.
pub(crate) fn run_batches<S: Alter, B: BatchBody>(
    tx: &mut Transaction<'_, S>,
    body: &B,
    first: u64,
    rows: &[B::Row],
) -> Result<(), Error>
    ensures { EditsEach S.Store B.RowBody.layout tx.old tx.new result
        (B.RowBody.edit body.now) first rows.now }
{
    let mut number = first;
    let mut rest = rows;
    'batches: while rest.len() >= 16 {
        let (batch, later) = rest.split_at(16);
        let Some(next) = number.checked_add(16) else {
            return Err(Error::SqliteFailure(ErrorCode::IntegerOverflow));
        };
        body.run_batch(tx, number, batch)?;
        number = next;
        rest = later;
    }
    run_each(tx, body, number, rest)?;
    Ok(())
}
