//! The rows of a query are read one at a time, up to the last, or up to one behind which nobody looks.
ghost use Rattle.std.specs.Prelude.{◌≡◌, Bool, IfOk};
ghost use Rattle.std.specs.List.{AllByRecursion};
ghost use Rattle.sqlite.specs.State.{IsUnchanged};
ghost use Rattle.sql_statements.specs.SelectTexts.{IsSelectText};
ghost use Rattle.sql_statements.specs.Promises.{SucceedsIn, LeavesNothingNew, SeesStill};
ghost use Rattle.sql_tables.specs.Ranges.{FitsIfAny};
ghost use Rattle.sql_queries.specs.RowsRead.{GivesWhile, UndoesOrKeeps, Yields};

use sql_tables::FromRow;
use sqlite::types::ValueRef;
use sqlite::{Alter, Connection, Error, Rows};
use std::alloc::Global;

/// A `RowTest` says up to which row a query is read.
pub(crate) trait RowTest<T> {
    /// Is the query read on where a row has this value?
    ghost passes: { Self → T → Bool };

    /// Says whether the query is read on where a row has this value, which then is one of those that it
    /// gives.
    fn goes_on(&self, value: &T) -> bool
        ensures { result ≡ passes self.now value.now };
}

// The value that the next row stores, and `None` behind the last row.
fn next_of<S: Alter, T: FromRow>(rows: &mut Rows<'_, S>) -> Result<Option<T>, Error>
    ensures same_reference { rows.new.conn.ghost_name ≡ rows.old.conn.ghost_name }
    ensures advances { Yields S.Store rows.old.conn.now rows.new.conn.now result T.FromRow }
    ensures fits { IfOk result (FitsIfAny T.FromRow.fits) }
    ensures same { SucceedsIn S.Store rows.old.conn.now rows.new.conn.now result IsUnchanged }
    ensures kept { UndoesOrKeeps S.Store rows.old.conn.now rows.new.conn.now result }
    ensures survives { LeavesNothingNew S.Store rows.old.conn.now rows.new.conn.now }
{
    rows.advance()?;
    let Some(row) = rows.get() else {
        return Ok(None);
    };
    match T::from_row(row) {
        Some(value) => Ok(Some(value)),
        None => Err(Error::InvalidQuery),
    }
}

/// Gives the values of the rows of a query, of which one is there at a time, up to the last row or up to
/// the first whose value does not pass. The text has to be a SELECT.
pub(crate) fn read_while<S: Alter, T: FromRow, P: RowTest<T>>(
    conn: &mut Connection<S>,
    alloc: Global,
    sql: &str,
    params: &[ValueRef<'_>],
    test: &P,
) -> Result<Vec<T>, Error>
    requires { IsSelectText sql.now }
    ensures answer { GivesWhile S.Store conn.old conn.new result sql.now params.now T.FromRow
        (P.passes test.now) }
    ensures stays { SeesStill S.Store conn.old conn.new }
    ensures survives { LeavesNothingNew S.Store conn.old conn.new }
    ensures fit { IfOk result (λ xs. AllByRecursion T.FromRow.fits xs.items) }
{
    if !conn.is_autocommit() {
        return Err(Error::InvalidQuery);
    }
    let mut values = Vec::new(alloc);
    let mut rows = conn.query(sql, params)?;
    'rows: for _ in 0..u64::MAX {
        let Some(value) = next_of(&mut rows)? else {
            return Ok(values);
        };
        if !test.goes_on(&value) {
            return Ok(values);
        }
        values.push(value)?;
    }
    // No memory has so many.
    Err(Error::InvalidQuery)
}
