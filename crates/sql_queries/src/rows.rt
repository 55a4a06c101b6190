//! The rows of a query are read back.
ghost use Rattle.std.specs.Prelude.{◌≡◌, true, map, IfOk};
ghost use Rattle.std.specs.List.{AllByRecursion};
ghost use Rattle.sqlite_value.specs.declared.value.Value.TheVariants.{Blob};
ghost use Rattle.sql_statements.specs.SelectTexts.{IsSelectText};
ghost use Rattle.sql_statements.specs.Promises.{LeavesNothingNew, SeesStill};
ghost use Rattle.sql_tables.specs.Ranges.{FitsIfAny};
ghost use Rattle.sql_queries.specs.RowsRead.{GivesAll, IsFirst, ReadsBlob, ReadsCell, ReadsColumn, ReadsRow, bytes_of, cell};

use crate::reading::{RowTest, read_while};
use sql_statements::query;
use sql_tables::{FromColumn, FromRow, read_only_column};
use sqlite::types::ValueRef;
use sqlite::{Alter, Connection, Error, Row};
use std::alloc::Global;

// The value that the first row stores.
fn read_first<T: FromRow>(rows: &[Row]) -> Result<Option<T>, Error>
    ensures { IfOk result (IsFirst T.FromRow.stored_row rows.now) }
{
    let Some(row) = rows.first() else {
        return Ok(None);
    };
    match T::from_row(row) {
        Some(value) => Ok(Some(value)),
        None => Err(Error::InvalidQuery),
    }
}

// A query is read to its last row.
struct Every;

impl<T> RowTest<T> for Every {
    ghost passes = { λ _ _. true };

    fn goes_on(&self, _: &T) -> bool {
        true
    }
}

/// Gives the values of all rows of a query, of which one is there at a time. The text has to be a SELECT.
pub(crate) fn all_of<S: Alter, T: FromRow>(
    conn: &mut Connection<S>,
    alloc: Global,
    sql: &str,
    params: &[ValueRef<'_>],
) -> Result<Vec<T>, Error>
    requires { IsSelectText sql.now }
    ensures answer { GivesAll S.Store conn.old conn.new result sql.now params.now T.FromRow }
    ensures stays { SeesStill S.Store conn.old conn.new }
    ensures survives { LeavesNothingNew S.Store conn.old conn.new }
    ensures fit { IfOk result (λ xs. AllByRecursion T.FromRow.fits xs.items) }
{
    read_while(conn, alloc, sql, params, &Every)
}

/// Gives the value of the first row of a query, and `None` where it shows no row. The text has to be a
/// SELECT.
pub(crate) fn first_of<S: Alter, T: FromRow>(
    conn: &mut Connection<S>,
    sql: &str,
    params: &[ValueRef<'_>],
) -> Result<Option<T>, Error>
    requires { IsSelectText sql.now }
    ensures { ReadsRow S.Store conn.old conn.new result sql.now params.now T.FromRow }
{
    let rows = query(conn, sql, params)?;
    read_first(&rows)
}

// The values that rows of one column store.
fn read_column_of_all<T: FromColumn>(alloc: Global, rows: &[Row]) -> Result<Vec<T>, Error>
    ensures { IfOk result (λ xs. map (cell T.FromColumn.stored) xs.items ≡ rows.now) }
{
    let mut values = Vec::new(alloc);
    for row in rows {
        let Some(value) = read_only_column(row) else {
            return Err(Error::InvalidQuery);
        };
        values.push(value)?;
    }
    Ok(values)
}

// The value that the first of rows of one column stores.
fn read_first_cell<T: FromColumn>(rows: &[Row]) -> Result<Option<T>, Error>
    ensures is { IfOk result (IsFirst (cell T.FromColumn.stored) rows.now) }
    ensures fits { IfOk result (FitsIfAny T.FromColumn.fits) }
{
    let Some(row) = rows.first() else {
        return Ok(None);
    };
    match read_only_column(row) {
        Some(value) => Ok(Some(value)),
        None => Err(Error::InvalidQuery),
    }
}

/// Gives the values in all rows of a query of one column. The text has to be a SELECT.
pub(crate) fn column_of<S: Alter, T: FromColumn>(
    conn: &mut Connection<S>,
    alloc: Global,
    sql: &str,
    params: &[ValueRef<'_>],
) -> Result<Vec<T>, Error>
    requires { IsSelectText sql.now }
    ensures { ReadsColumn S.Store conn.old conn.new result sql.now params.now T.FromColumn.stored }
{
    let rows = query(conn, sql, params)?;
    read_column_of_all(alloc, &rows)
}

/// Gives the value in the first row of a query of one column, and `None` where it shows no row. The
/// text has to be a SELECT.
pub(crate) fn cell_of<S: Alter, T: FromColumn>(
    conn: &mut Connection<S>,
    sql: &str,
    params: &[ValueRef<'_>],
) -> Result<Option<T>, Error>
    requires { IsSelectText sql.now }
    ensures asked { ReadsCell S.Store conn.old conn.new result sql.now params.now
        T.FromColumn.stored }
    ensures fits { IfOk result (FitsIfAny T.FromColumn.fits) }
{
    let rows = query(conn, sql, params)?;
    read_first_cell(&rows)
}

// The bytes in the first of rows of one column.
fn read_first_blob(alloc: Global, rows: &[Row]) -> Result<Option<Vec<u8>>, Error>
    ensures { IfOk result (λ x. IsFirst (cell Blob) rows.now (bytes_of x)) }
{
    let Some(row) = rows.first() else {
        return Ok(None);
    };
    if row.column_count() != 1 {
        return Err(Error::InvalidQuery);
    }
    match row.get_ref(0) {
        Ok(ValueRef::Blob(bytes)) => Ok(Some(Vec::from_slice(alloc, bytes)?)),
        _ => Err(Error::InvalidQuery),
    }
}

/// Gives the bytes in the first row of a query of one column, and `None` where it shows no row. The
/// text has to be a SELECT.
pub(crate) fn blob_of<S: Alter>(
    conn: &mut Connection<S>,
    alloc: Global,
    sql: &str,
    params: &[ValueRef<'_>],
) -> Result<Option<Vec<u8>>, Error>
    requires { IsSelectText sql.now }
    ensures { ReadsBlob S.Store conn.old conn.new result sql.now params.now }
{
    let rows = query(conn, sql, params)?;
    read_first_blob(alloc, &rows)
}
