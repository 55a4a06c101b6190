//! A transaction is tested before it is read or committed.
ghost use Rattle.sql_statements.specs.Promises.{IsLive, Runs};

use crate::statement::execute;
use sqlite::{Alter, Error, Transaction};

/// Tells that the store is open and that no failure has ended the transaction, by a text that has no
/// statement. A query is answered where the transaction has ended too, and a body that runs nothing
/// does not find that the store is shut.
pub(crate) fn check_live<S: Alter>(tx: &mut Transaction<'_, S>) -> Result<(), Error>
    ensures { Runs S.Store tx.old.conn tx.new.conn result IsLive }
{
    execute(tx, "", &[])?;
    Ok(())
}
