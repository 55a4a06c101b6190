//! All tables of a desk, as one text.
use sqlite::types::ValueRef;
use sqlite::{Alter, Connection, Error, Row};

const TABLES: [&str; 14] = [
    "SELECT * FROM desk",
    "SELECT * FROM holidays",
    "SELECT * FROM companies",
    "SELECT * FROM submissions",
    "SELECT * FROM entries",
    "SELECT * FROM returns",
    "SELECT * FROM changes",
    "SELECT * FROM postings",
    "SELECT * FROM suspense",
    "SELECT * FROM files",
    "SELECT * FROM taken",
    "SELECT * FROM balances",
    "SELECT * FROM numbers",
    "SELECT * FROM authorizations",
];

fn add_value(out: &mut Vec<u8>, value: ValueRef<'_>) -> Result<(), Error> {
    match value {
        ValueRef::Text(bytes) | ValueRef::Blob(bytes) => out.extend_from_slice(bytes)?,
        ValueRef::Int(number) => out.extend_from_slice(&number.to_be_bytes())?,
        _ => {}
    }
    out.push(b'|')?;
    Ok(())
}

fn add_rows(out: &mut Vec<u8>, rows: &[Row]) -> Result<(), Error> {
    for row in rows {
        for at in 0..row.column_count() {
            add_value(out, row.get_ref(at)?)?;
        }
        out.push(b'\n')?;
    }
    out.push(b'\n')?;
    Ok(())
}

fn rows_of<S: Alter>(conn: &mut Connection<S>, sql: &str) -> Result<Vec<Row>, Error> {
    conn.query_all(sql, &[])
}

/// Adds all rows of all tables.
pub(crate) fn add_tables<S: Alter>(
    conn: &mut Connection<S>,
    out: &mut Vec<u8>,
) -> Result<(), Error> {
    for sql in &TABLES {
        let rows = rows_of(conn, sql)?;
        add_rows(out, &rows)?;
    }
    Ok(())
}
