//! A transaction runs a statement of one row, and reads what it sees.
ghost use Rattle.sqlite.specs.Values.{bound};
ghost use Rattle.sql_statements.specs.Promises.{Ran, Runs, RunsWith, ShowsFirst, ShowsInside};

use crate::statement::execute;
use crate::transaction::live::check_live;
use sqlite::types::ValueRef;
use sqlite::{Alter, Error, Row, Transaction};

/// Runs a statement that has to write exactly one row. `Error::InvalidQuery` says that it wrote none,
/// or more than one.
pub fn execute_one<S: Alter>(
    tx: &mut Transaction<'_, S>,
    sql: &str,
    params: &[ValueRef<'_>],
) -> Result<(), Error>
    ensures { Runs S.Store tx.old.conn tx.new.conn result (Ran sql.now (bound params.now) 1) }
{
    let count = execute(tx, sql, params)?;
    if count == 1 {
        Ok(())
    } else {
        Err(Error::InvalidQuery)
    }
}

/// Gives the rows of a query, as the transaction sees them. The text has to be a SELECT.
pub fn query_inside<S: Alter>(
    tx: &mut Transaction<'_, S>,
    sql: &str,
    params: &[ValueRef<'_>],
) -> Result<Vec<Row>, Error>
    ensures { RunsWith S.Store tx.old.conn tx.new.conn result
        (ShowsInside sql.now (bound params.now)) }
{
    check_live(tx)?;
    let rows = tx.query_all(sql, params)?;
    Ok(rows)
}

/// Gives the first row of a query, as the transaction sees it; there is none where the query shows no
/// row. The text has to be a SELECT.
pub fn query_first_inside<S: Alter>(
    tx: &mut Transaction<'_, S>,
    sql: &str,
    params: &[ValueRef<'_>],
) -> Result<Option<Row>, Error>
    ensures { RunsWith S.Store tx.old.conn tx.new.conn result
        (ShowsFirst sql.now (bound params.now)) }
{
    let mut rows = query_inside(tx, sql, params)?;
    if rows.is_empty() {
        Ok(None)
    } else {
        Ok(Some(rows.remove(0)))
    }
}
