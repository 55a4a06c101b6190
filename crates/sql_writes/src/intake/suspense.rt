//! The items of an incoming file that name no sent entry are written.
ghost use Rattle.sql_tables.specs.Layout.{desk_layout};
ghost use Rattle.sql_tables.specs.TableEdits.{put_suspense_edit};
ghost use Rattle.sql_writes.specs.DeskEdits.{Edits};
ghost use Rattle.sql_writes.specs.IntakeEdits.{put_suspense_rows_edit};

use crate::numbering::{NumberedTable, next_after};
use desk_history::SuspenseRow;
use sql_statements::{RowBody, execute, run_each};
use sql_tables::{characters, date, natural, reason};
use sqlite::{Alter, Error, Transaction};

/// Writes the items in suspense of a file, numbered on from the last of the table.
pub(crate) fn put_suspense<S: Alter>(
    tx: &mut Transaction<'_, S>,
    suspense: &[SuspenseRow],
) -> Result<(), Error>
    ensures { Edits S.Store tx.old tx.new result (put_suspense_rows_edit suspense.now) }
{
    let first = next_after(tx, NumberedTable::Suspense)?;
    run_each(tx, &SuspenseRows, first, suspense)?;
    Ok(())
}

// The rows of items in suspense.
#[derive(Clone, Copy)]
struct SuspenseRows;

impl RowBody for SuspenseRows {
    type Row = SuspenseRow;

    ghost layout = { desk_layout };

    ghost edit = { λ _. put_suspense_edit };

    fn run_row<S: Alter>(
        &self,
        tx: &mut Transaction<'_, S>,
        number: u64,
        row: &SuspenseRow,
    ) -> Result<(), Error> {
        let number = natural(number)?;
        let item = natural(row.item)?;
        let cents = natural(row.cents.get())?;
        execute(
            tx,
            "INSERT INTO suspense VALUES (?1, ?2, ?3, ?4, ?5, ?6, ?7, ?8)",
            &[
                number,
                characters(&row.file),
                item,
                reason(row.why),
                characters(&row.code),
                characters(&row.trace),
                cents,
                date(row.day),
            ],
        )?;
        Ok(())
    }
}
