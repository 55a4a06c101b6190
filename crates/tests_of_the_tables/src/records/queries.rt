//! A query without a table gives the rows that these tests read.
use sql_tables::{FromColumn, FromRow, read_only_column};
use sqlite::{Connection, Row};
use std::alloc::{AllocError, Global};
use std::test::Fail;

// A query for these columns, one of which has a different value.
fn query(
    alloc: Global,
    columns: &[&str],
    changed: usize,
    value: &str,
) -> Result<String, AllocError> {
    let mut text = String::from_str(alloc, "SELECT ")?;
    for (at, column) in columns.iter().enumerate() {
        if at > 0 {
            text.push_str(", ")?;
        }
        text.push_str(if at == changed { value } else { column })?;
    }
    Ok(text)
}

fn row_of(alloc: Global, query: &str) -> Result<Row, Fail> {
    let mut conn = Connection::open_in_memory(alloc)?;
    Ok(conn.query_row(query, &[])?)
}

// Reads a row of these columns.
pub(super) fn read<T: FromRow>(alloc: Global, columns: &[&str]) -> Result<Option<T>, Fail> {
    let text = query(alloc, columns, columns.len(), "")?;
    let row = row_of(alloc, text.as_str())?;
    Ok(T::from_row(&row))
}

// Is a row of these columns refused, in which one has another value?
pub(super) fn is_refused<T: FromRow>(
    alloc: Global,
    columns: &[&str],
    changed: usize,
    value: &str,
) -> Result<bool, Fail> {
    let text = query(alloc, columns, changed, value)?;
    let row = row_of(alloc, text.as_str())?;
    Ok(T::from_row(&row).is_none())
}

// Reads the only column of a row.
pub(super) fn read_only<T: FromColumn>(alloc: Global, column: &str) -> Result<Option<T>, Fail> {
    let text = query(alloc, &[column], 1, "")?;
    let row = row_of(alloc, text.as_str())?;
    Ok(read_only_column(&row))
}
