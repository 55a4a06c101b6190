//! A write is one transaction.
ghost use Rattle.sql_statements.specs.Transactions.{LeavesEdit, Saves};
ghost use Rattle.sql_statements.specs.Promises.{FailsUnchanged};

use desk_store::StoreFault;
use sql_statements::{TransactionBody, commit};
use sqlite::{Alter, Connection};

/// Makes the edit of a body whole, in one transaction, or leaves the tables as they were.
pub(crate) fn write<S: Alter, B: TransactionBody>(
    conn: &mut Connection<S>,
    body: &B,
) -> Result<(), StoreFault>
    ensures done { Saves S.Store conn.old conn.new result
        B.TransactionBody.layout (B.TransactionBody.edit body.now) }
    ensures undone { FailsUnchanged S.Store conn.old conn.new result }
    ensures survives { LeavesEdit S.Store conn.old conn.new
        B.TransactionBody.layout (B.TransactionBody.edit body.now) }
{
    match commit(conn, body) {
        Ok(()) => Ok(()),
        Err(_) => Err(StoreFault::Unavailable),
    }
}
