//! A statement takes these values as its parameters.
ghost use Rattle.std.specs.Prelude.{◌≡◌};
ghost use Rattle.sqlite.specs.Values.{bound_value};
ghost use Rattle.sqlite_value.specs.Value.{owned};
ghost use Rattle.sqlite_value.specs.declared.value.Value.TheVariants.{Int, Text, Blob};

use sqlite::types::{ToSql, ValueRef};

/// Gives a number as a parameter.
pub fn number<'a>(n: i64) -> ValueRef<'a>
    ensures { bound_value (owned result) ≡ Int n }
{
    ValueRef::Int(n)
}

/// Gives a text as a parameter.
pub fn text<'a>(text: &'a str) -> ValueRef<'a>
    ensures { bound_value (owned result) ≡ Text text.now }
{
    text.to_sql()
}

/// Gives bytes as a parameter.
pub fn blob<'a>(bytes: &'a [u8]) -> ValueRef<'a>
    ensures { bound_value (owned result) ≡ Blob bytes.now }
{
    bytes.to_sql()
}
