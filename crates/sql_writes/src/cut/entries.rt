//! A cut gives entries their places.
ghost use Rattle.sql_statements.specs.Edits.{each_edit_from};
ghost use Rattle.sql_tables.specs.TableEdits.{place_edit};
ghost use Rattle.sql_writes.specs.DeskEdits.{Edits};

use crate::cut::marks::MarkEntries;
use crate::cut::numbers::PutNumbers;
use crate::runs::run_runs;
use desk_history::SentEntry;
use sqlite::{Alter, Error, Transaction};

/// Gives each entry of a list its place among all sent entries, from a first place on, and its sequence
/// that place. An entry that is not there or was sent already, and a sequence that is not from 1 to
/// 9,999,999, are refused with `Error::InvalidQuery`.
pub(crate) fn place_entries<S: Alter>(
    tx: &mut Transaction<'_, S>,
    first: u64,
    entries: &[SentEntry],
) -> Result<(), Error>
    ensures { Edits S.Store tx.old tx.new result (each_edit_from place_edit first entries.now) }
{
    run_runs(tx, &MarkEntries, first, entries)?;
    run_runs(tx, &PutNumbers, first, entries)?;
    Ok(())
}
