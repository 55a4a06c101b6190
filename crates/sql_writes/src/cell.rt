//! One value is read inside a transaction.
ghost use Rattle.std.specs.Prelude.{IfOk};
ghost use Rattle.sql_statements.specs.SelectTexts.{IsSelectText};
ghost use Rattle.sql_tables.specs.Ranges.{FitsIfAny};
ghost use Rattle.sql_writes.specs.Cells.{ReadsCell};

use sql_statements::query_first_inside;
use sql_tables::{FromColumn, read_only_column};
use sqlite::types::ValueRef;
use sqlite::{Alter, Error, Transaction};

/// Gives the value in the first row of a query of one column, as the transaction sees it, and `None`
/// where it shows no row. A row that stores no value within its range is `Error::InvalidQuery`. The
/// text has to be a SELECT.
pub fn cell_inside<S: Alter, T: FromColumn>(
    tx: &mut Transaction<'_, S>,
    sql: &str,
    params: &[ValueRef<'_>],
) -> Result<Option<T>, Error>
    requires { IsSelectText sql.now }
    ensures runs { ReadsCell S.Store tx.old tx.new result sql.now params.now T.FromColumn.stored }
    ensures fits { IfOk result (FitsIfAny T.FromColumn.fits) }
{
    let Some(row) = query_first_inside(tx, sql, params)? else {
        return Ok(None);
    };
    match read_only_column(&row) {
        Some(value) => Ok(Some(value)),
        None => Err(Error::InvalidQuery),
    }
}
