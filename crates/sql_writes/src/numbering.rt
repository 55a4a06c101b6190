//! Some tables number their rows from 1 on, in the order in which they came.
ghost use Rattle.std.specs.Prelude.{◌≡◌};
ghost use Rattle.sql_writes.specs.Numbering.{next_is};
ghost use Rattle.sql_writes.specs.LineTexts.{last_text};
ghost use Rattle.sql_writes.specs.DeskEdits.{EditsWith};

use crate::cell::cell_inside;
use sqlite::{Alter, Error, ErrorCode, Transaction};

/// A `NumberedTable` is a table whose rows are numbered from 1 on, in the order in which they came.
#[derive(Clone, Copy, Debug, PartialEq, Eq)]
pub(crate) enum NumberedTable {
    /// The lines of all accounts.
    Postings,
    /// The returns of sent entries.
    Returns,
    /// The notifications of change.
    Changes,
    /// The items of incoming files that name no sent entry.
    Suspense,
}

// The query of the last number of a table.
fn last_query(table: NumberedTable) -> &'static str
    ensures { result.now ≡ last_text table }
{
    match table {
        NumberedTable::Postings => "SELECT no FROM postings ORDER BY no DESC LIMIT 1",
        NumberedTable::Returns => "SELECT no FROM returns ORDER BY no DESC LIMIT 1",
        NumberedTable::Changes => "SELECT no FROM changes ORDER BY no DESC LIMIT 1",
        NumberedTable::Suspense => "SELECT no FROM suspense ORDER BY no DESC LIMIT 1",
    }
}

/// Gives the number after the last that a table has, 1 where it has no row. Where no number comes
/// after the last, it ends with `ErrorCode::IntegerOverflow`.
pub(crate) fn next_after<S: Alter>(
    tx: &mut Transaction<'_, S>,
    table: NumberedTable,
) -> Result<u64, Error>
    ensures { EditsWith S.Store tx.old tx.new result (next_is table) }
{
    let last: Option<u64> = cell_inside(tx, last_query(table), &[])?;
    match last.unwrap_or(0).checked_add(1) {
        Some(next) => Ok(next),
        None => Err(Error::SqliteFailure(ErrorCode::IntegerOverflow)),
    }
}
