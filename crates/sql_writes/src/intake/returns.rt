//! The returns of an incoming file are written.
ghost use Rattle.sql_writes.specs.DeskEdits.{Edits};
ghost use Rattle.sql_writes.specs.IntakeEdits.{put_returns_edit};

use crate::batches::run_batches;
use crate::intake::return_rows::ReturnRows;
use crate::numbering::{NumberedTable, next_after};
use desk_book::ReturnedRow;
use sqlite::{Alter, Error, Transaction};

/// Writes the returns of a file, numbered on from the last of the table. A return of an entry that was
/// returned before is refused by the key of the table.
pub(crate) fn put_returns<S: Alter>(
    tx: &mut Transaction<'_, S>,
    returned: &[ReturnedRow],
) -> Result<(), Error>
    ensures { Edits S.Store tx.old tx.new result (put_returns_edit returned.now) }
{
    let first = next_after(tx, NumberedTable::Returns)?;
    run_batches(tx, &ReturnRows, first, returned)?;
    Ok(())
}
