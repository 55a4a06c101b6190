//! A statement is run inside a transaction, and a query outside one.
ghost use Rattle.std.specs.Prelude.{◌≡◌, false, IsTrue};
ghost use Rattle.sqlite.specs.State.{FailsToQuery};
ghost use Rattle.sqlite.specs.Values.{bound};
ghost use Rattle.sql_statements.specs.SelectTexts.{IsSelectText};
ghost use Rattle.sql_statements.specs.Promises.{Ran, RunsWith, ShowsRows, EndsIn, FailsWith, SucceedsWith, SeesStill, LeavesNothingNew};

use sqlite::types::ValueRef;
use sqlite::{Alter, Connection, Error, Row, Transaction};

/// Runs one statement of a transaction, and gives the number of rows that it wrote. After an error
/// nothing of the transaction is committed.
pub fn execute<S: Alter>(
    tx: &mut Transaction<'_, S>,
    sql: &str,
    params: &[ValueRef<'_>],
) -> Result<usize, Error>
    ensures { RunsWith S.Store tx.old.conn tx.new.conn result (Ran sql.now (bound params.now)) }
{
    tx.execute(sql, params)
}

/// Gives the rows of a query, outside any transaction. An error is the one that the database failed
/// with; a connection that is inside a transaction is refused with `Error::InvalidQuery`.
pub fn query<S: Alter>(
    conn: &mut Connection<S>,
    sql: &str,
    params: &[ValueRef<'_>],
) -> Result<Vec<Row>, Error>
    ensures shown { SucceedsWith S.Store conn.old conn.new result
        (ShowsRows sql.now (bound params.now)) }
    ensures failed { conn.old.in_transaction ≡ false → FailsWith S.Store conn.old conn.new result
        (λ error before after. FailsToQuery sql.now (bound params.now) before after error) }
    ensures ended { conn.old.in_transaction ≡ false → conn.new.in_transaction ≡ false }
    ensures was_open { EndsIn S.Store conn.old conn.new
        (λ before after. IsTrue after.is_open → IsTrue before.is_open) }
    ensures stays { IsSelectText sql.now → SeesStill S.Store conn.old conn.new }
    ensures survives { IsSelectText sql.now → LeavesNothingNew S.Store conn.old conn.new }
{
    if !conn.is_autocommit() {
        return Err(Error::InvalidQuery);
    }
    let rows = conn.query_all(sql, params)?;
    Ok(rows)
}
