//! The lines of accounts are written.
ghost use Rattle.sql_tables.specs.TableEdits.{put_lines_edit};
ghost use Rattle.sql_writes.specs.DeskEdits.{Edits};

use crate::account_lines::pending::add_lines;
use crate::account_lines::rows::LineRows;
use crate::batches::run_batches;
use crate::numbering::{NumberedTable, next_after};
use desk_accounts::Posting;
use sqlite::{Alter, Error, Transaction};

/// Writes lines of accounts, numbered on from the last one, and adds them to the balances of their
/// accounts and value days. Where a balance has no sum with a line, it ends with
/// `ErrorCode::IntegerOverflow`.
pub(crate) fn put_lines<S: Alter>(
    tx: &mut Transaction<'_, S>,
    lines: &[Posting],
) -> Result<(), Error>
    ensures { Edits S.Store tx.old tx.new result (put_lines_edit lines.now) }
{
    let first = next_after(tx, NumberedTable::Postings)?;
    run_batches(tx, &LineRows, first, lines)?;
    add_lines(tx, lines)?;
    Ok(())
}
