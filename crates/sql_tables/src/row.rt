//! A row that a query gives stores a value, which is read back with all its ranges tested.
ghost use Rattle.std.specs.Prelude.{[], ◌∷◌, List};
ghost use Rattle.sqlite_value.specs.declared.value.Value.{Value as SqlValue};
ghost use Rattle.sql_tables.specs.Reading.{Reads};

use crate::column::{FromColumn, read_column};
use sqlite::Row;

pub(crate) mod entries;
pub(crate) mod items;
pub(crate) mod lines;
pub(crate) mod registry;
pub(crate) mod submissions;

/// A `FromRow` is a value that a row stores.
pub trait FromRow: Sized + Drop {
    /// Is the row that stores the value.
    ghost stored_row: { Self → List SqlValue };

    /// Says that it is in the ranges of the columns.
    ghost fits: { Self → Type 0 };

    /// Reads the value back, or `None` where the row stores none in the ranges of its columns.
    fn from_row(row: &Row) -> Option<Self>
        ensures { Reads stored_row fits row.now result };
}

/// Reads the one column of a row.
pub fn read_only_column<T: FromColumn>(row: &Row) -> Option<T>
    ensures { Reads (λ x. T.FromColumn.stored x ∷ []) T.FromColumn.fits row.now result }
{
    if row.column_count() != 1 {
        return None;
    }
    read_column(row, 0)
}
