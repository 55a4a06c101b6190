//! The notifications of change of an incoming file are written.
ghost use Rattle.sql_tables.specs.Layout.{desk_layout};
ghost use Rattle.sql_tables.specs.TableEdits.{put_change_edit};
ghost use Rattle.sql_writes.specs.DeskEdits.{Edits};
ghost use Rattle.sql_writes.specs.IntakeEdits.{put_changes_edit};

use crate::numbering::{NumberedTable, next_after};
use desk_book::ChangedRow;
use sql_statements::{RowBody, execute, run_each};
use sql_tables::{characters, date, natural};
use sqlite::{Alter, Error, Transaction};

/// Writes the notifications of change of a file, numbered on from the last of the table.
pub(crate) fn put_changes<S: Alter>(
    tx: &mut Transaction<'_, S>,
    changed: &[ChangedRow],
) -> Result<(), Error>
    ensures { Edits S.Store tx.old tx.new result (put_changes_edit changed.now) }
{
    let first = next_after(tx, NumberedTable::Changes)?;
    run_each(tx, &ChangeRows, first, changed)?;
    Ok(())
}

// The rows of changes.
#[derive(Clone, Copy)]
struct ChangeRows;

impl RowBody for ChangeRows {
    type Row = ChangedRow;

    ghost layout = { desk_layout };

    ghost edit = { λ _. put_change_edit };

    fn run_row<S: Alter>(
        &self,
        tx: &mut Transaction<'_, S>,
        number: u64,
        changed: &ChangedRow,
    ) -> Result<(), Error> {
        let number = natural(number)?;
        let order = natural(changed.order)?;
        let index = natural(changed.row.index)?;
        execute(
            tx,
            "INSERT INTO changes VALUES (?1, ?2, ?3, ?4, ?5, ?6, ?7)",
            &[
                number,
                characters(changed.company.bytes()),
                order,
                index,
                characters(&changed.row.code),
                date(changed.row.day),
                characters(&changed.row.text),
            ],
        )?;
        Ok(())
    }
}
