//! An incoming file is kept, with its answer.
ghost use Rattle.sql_tables.specs.TableEdits.{put_taken_edit};
ghost use Rattle.sql_writes.specs.DeskEdits.{Edits};

use desk_history::TakenFile;
use sql_statements::{blob, execute};
use sql_tables::{characters, date, natural};
use sqlite::{Alter, Error, Transaction};

/// Writes the row of a file that was taken. It fails where a file with its key was taken before.
pub(crate) fn put_taken<S: Alter>(
    tx: &mut Transaction<'_, S>,
    file: &TakenFile,
) -> Result<(), Error>
    ensures { Edits S.Store tx.old tx.new result (put_taken_edit file.now) }
{
    let returns = natural(file.answer.returns)?;
    let changes = natural(file.answer.changes)?;
    let late = natural(file.answer.late)?;
    let suspense = natural(file.answer.suspense)?;
    execute(
        tx,
        "INSERT INTO taken VALUES (?1, ?2, ?3, ?4, ?5, ?6, ?7)",
        &[
            characters(&file.key),
            blob(&file.digest),
            date(file.answer.day),
            returns,
            changes,
            late,
            suspense,
        ],
    )?;
    Ok(())
}
