//! The body of a transaction is made and committed.
ghost use Rattle.std.specs.Prelude.{◌≡◌, false, IsTrue, Err};
ghost use Rattle.sql_statements.specs.Edits.{Edit};
ghost use Rattle.sql_statements.specs.Layouts.{Layout};
ghost use Rattle.sql_statements.specs.Transactions.{Makes, LeavesEdit, Saves};
ghost use Rattle.sql_statements.specs.Promises.{FailsUnchanged, Runs};

use crate::transaction::live::check_live;
use sqlite::{Alter, Connection, Error, Transaction};

/// A `TransactionBody` has the statements of one transaction, which make an edit of the tables.
pub trait TransactionBody {
    /// Says how the tables stand in the database.
    ghost layout: { Layout };

    /// Says what becomes of the tables.
    ghost edit: { Self → Edit layout.Tables };

    /// Runs the statements. After an error the transaction has to be rolled back.
    fn run<S: Alter>(&self, tx: &mut Transaction<'_, S>) -> Result<(), Error>
        ensures { Runs S.Store tx.old.conn tx.new.conn result (Makes layout (edit self.now)) };
}

/// Makes the edit of a body whole, in one transaction, or leaves the tables as they were: where the
/// body or the commit ends with an error, everything is rolled back. A crash leaves the tables before
/// the edit or after it. A connection that is inside a transaction is refused with
/// `Error::InvalidQuery`, and its transaction goes on.
pub fn commit<S: Alter, B: TransactionBody>(conn: &mut Connection<S>, body: &B) -> Result<(), Error>
    ensures done { Saves S.Store conn.old conn.new result
        B.TransactionBody.layout (B.TransactionBody.edit body.now) }
    ensures undone { FailsUnchanged S.Store conn.old conn.new result }
    ensures survives { LeavesEdit S.Store conn.old conn.new
        B.TransactionBody.layout (B.TransactionBody.edit body.now) }
    ensures refused { IsTrue conn.old.in_transaction → (result ≡ Err Error.InvalidQuery)
        × (conn.new ≡ conn.old) }
    ensures ended { conn.old.in_transaction ≡ false → conn.new.in_transaction ≡ false }
{
    if !conn.is_autocommit() {
        return Err(Error::InvalidQuery);
    }
    let mut tx = conn.transaction();
    check_live(&mut tx)?;
    body.run(&mut tx)?;
    tx.commit()
}
