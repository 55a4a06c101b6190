//! Values of the desk become the values that columns store.
ghost use Rattle.std.specs.Prelude.{◌≡◌, pos, IfOk};
ghost use Rattle.sqlite.specs.Values.{bound_value};
ghost use Rattle.sqlite_value.specs.Value.{owned};
ghost use Rattle.sqlite_value.specs.declared.value.Value.TheVariants.{Text};
ghost use Rattle.sql_tables.specs.Columns.{number, flag};

use bank_days::Day;
use sqlite::Error;
use sqlite::types::ValueRef;

/// Gives the characters of a text, as a column has them.
pub fn characters<'a>(bytes: &'a [u8]) -> ValueRef<'a>
    ensures { bound_value (owned result) ≡ Text bytes.now }
{
    ValueRef::Text(bytes)
}

/// Gives a number from zero on, as a column has it. `Error::InvalidQuery` says that it is past 2^63 - 1,
/// the last that a column has.
pub fn natural<'a>(n: u64) -> Result<ValueRef<'a>, Error>
    ensures { IfOk result (λ v. bound_value (owned v) ≡ number n) }
{
    match i64::try_from(n) {
        Ok(n) => Ok(ValueRef::Int(n)),
        Err(_) => Err(Error::InvalidQuery),
    }
}

/// Gives a number as the integer that a column has. `Error::InvalidQuery` says that it is past 2^63 - 1,
/// the last that a column has.
pub fn integer(n: u64) -> Result<i64, Error>
    ensures { IfOk result (λ i. i ≡ pos n) }
{
    match i64::try_from(n) {
        Ok(n) => Ok(n),
        Err(_) => Err(Error::InvalidQuery),
    }
}

/// Gives a flag, as a column has it: 1 or 0.
pub fn switch<'a>(is_set: bool) -> ValueRef<'a>
    ensures { bound_value (owned result) ≡ flag is_set }
{
    if is_set {
        sql_statements::number(1)
    } else {
        sql_statements::number(0)
    }
}

/// Gives a day, as a column has it, by its number.
pub fn date<'a>(day: Day) -> ValueRef<'a>
    ensures { bound_value (owned result) ≡ number day }
{
    ValueRef::Int(day.number())
}

/// Gives the number of a day.
pub fn number_of(day: Day) -> u64
    ensures { result ≡ day }
{
    day.number().unsigned_abs()
}
