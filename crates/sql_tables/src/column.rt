//! A column of a row stores a value, which is read back with its range tested.
ghost use Rattle.std.specs.Prelude.{◌≡◌, ◌≢◌, ℕ, List, IfSome, IfNone, IsTrue, ◌↔◌};
ghost use Rattle.sqlite_value.specs.Order.{column};
ghost use Rattle.sqlite_value.specs.Value.{owned};
ghost use Rattle.sqlite_value.specs.declared.value.Value.{Value as SqlValue};
ghost use Rattle.sqlite_value.specs.declared.value.Value.TheVariants.{Text};
ghost use Rattle.sqlite.specs.Values.{or_null};
ghost use Rattle.sql_tables.specs.Ranges.{FitsIfAny};
ghost use Rattle.sql_tables.specs.Reading.{Reads};

use sqlite::Row;
use sqlite::types::ValueRef;

mod accounts;
mod decimals;
mod fields;
mod numbers;
mod stored_values;
mod words;

pub use accounts::{AccountText, MOST_ACCOUNT_CHARACTERS, account_text};
pub(crate) use fields::read_line_reference;
pub use fields::{line_reference, optional_text, read_digest, read_text_or_empty};
pub use numbers::{read_number, read_ordinal};
pub use stored_values::{characters, date, integer, natural, number_of, switch};
pub use words::{cause, direction, reason, savings};

/// A `FromColumn` is a value that a column stores.
pub trait FromColumn: Sized + Drop {
    /// Is the value that the column stores.
    ghost stored: { Self → SqlValue };

    /// Is the range of the column.
    ghost fits: { Self → Type 0 };

    /// Reads the value back, or `None` where the column stores none in its range.
    fn from_column(value: ValueRef<'_>) -> Option<Self>
        ensures { Reads stored fits (owned value.entry) result };
}

// The value of the column that has this index, NULL past the end of the row.
pub(crate) fn value_at<'a>(row: &'a Row, at: usize) -> ValueRef<'a>
    ensures { owned result ≡ column row.now at }
{
    match row.get_ref(at) {
        Ok(value) => value,
        Err(_) => ValueRef::Null,
    }
}

// A column without NOT NULL.
impl<T: FromColumn> FromColumn for Option<T> {
    ghost stored = { or_null T.FromColumn.stored };

    ghost fits = { FitsIfAny T.FromColumn.fits };

    fn from_column(value: ValueRef<'_>) -> Option<Option<T>> {
        if let ValueRef::Null = value {
            return Some(None);
        }
        Some(Some(T::from_column(value)?))
    }
}

/// Reads the column that has this index.
pub fn read_column<T: FromColumn>(row: &Row, at: usize) -> Option<T>
    ensures { Reads T.FromColumn.stored T.FromColumn.fits (column row.now at) result }
{
    T::from_column(value_at(row, at))
}

// The text of a column.
pub(crate) fn text_in<'a>(value: ValueRef<'a>) -> Option<&'a [u8]>
    ensures some { IfSome result (λ t. owned value.entry ≡ Text t.now) }
    ensures none { IfNone result ((t : List ℕ) → owned value.entry ≢ Text t) }
{
    match value {
        ValueRef::Text(text) => Some(text),
        _ => None,
    }
}

// Is it this text?
pub(crate) fn is_text(value: ValueRef<'_>, text: &[u8]) -> bool
    ensures { IsTrue result ↔ (owned value.entry ≡ Text text.now) }
{
    match value {
        ValueRef::Text(stored) => stored == text,
        _ => false,
    }
}
