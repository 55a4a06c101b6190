//! Numbers, flags and days stand in columns as integers.
ghost use Rattle.std.specs.Prelude.{◌≤◌, ⊤};
ghost use Rattle.std.specs.Int.{IsInRange};
ghost use Rattle.sqlite_value.specs.Order.{column};
ghost use Rattle.sqlite_value.specs.declared.value.Value.TheVariants.{Int};
ghost use Rattle.ach_fields.specs.Cents.{most_cents};
ghost use Rattle.desk_rules.specs.Fields.{most_entry_cents};
ghost use Rattle.sql_tables.specs.Columns.{number, flag};
ghost use Rattle.sql_tables.specs.Ranges.{IsStoredDay};
ghost use Rattle.sql_tables.specs.Reading.{Reads};

use super::{FromColumn, read_column};
use ach_fields::Cents;
use bank_days::Day;
use desk_rules::{EntryCents, RuleDay};
use sqlite::Row;
use sqlite::types::ValueRef;

impl FromColumn for i64 {
    ghost stored = { Int };

    ghost fits = { λ _. ⊤ };

    fn from_column(value: ValueRef<'_>) -> Option<i64> {
        match value {
            ValueRef::Int(n) => Some(n),
            _ => None,
        }
    }
}

impl FromColumn for u64 {
    ghost stored = { number };

    ghost fits = { λ _. ⊤ };

    fn from_column(value: ValueRef<'_>) -> Option<u64> {
        match value {
            ValueRef::Int(n) => u64::try_from(n).ok(),
            _ => None,
        }
    }
}

impl FromColumn for bool {
    ghost stored = { flag };

    ghost fits = { λ _. ⊤ };

    fn from_column(value: ValueRef<'_>) -> Option<bool> {
        match value {
            ValueRef::Int(0) => Some(false),
            ValueRef::Int(1) => Some(true),
            _ => None,
        }
    }
}

impl FromColumn for RuleDay {
    ghost stored = { number };

    ghost fits = { IsStoredDay };

    fn from_column(value: ValueRef<'_>) -> Option<RuleDay> {
        match value {
            ValueRef::Int(n) => RuleDay::new(Day::from_number(n)?),
            _ => None,
        }
    }
}

impl FromColumn for Day {
    ghost stored = { number };

    ghost fits = { IsStoredDay };

    fn from_column(value: ValueRef<'_>) -> Option<Day> {
        Some(RuleDay::from_column(value)?.day())
    }
}

impl FromColumn for Cents {
    ghost stored = { number };

    ghost fits = { λ n. IsInRange 0 most_cents n };

    fn from_column(value: ValueRef<'_>) -> Option<Cents> {
        Cents::new(u64::from_column(value)?)
    }
}

impl FromColumn for EntryCents {
    ghost stored = { number };

    ghost fits = { λ n. IsInRange 0 most_entry_cents n };

    fn from_column(value: ValueRef<'_>) -> Option<EntryCents> {
        EntryCents::new(u64::from_column(value)?)
    }
}

/// Reads a number from the least to the most, from the column that has this index.
pub fn read_number(row: &Row, at: usize, least: u64, most: u64) -> Option<u64>
    ensures { Reads number (IsInRange least most) (column row.now at) result }
{
    let number = read_column::<u64>(row, at)?;
    if number < least || number > most {
        return None;
    }
    Some(number)
}

/// Reads a number that counts from 1, from the column that has this index.
pub fn read_ordinal(row: &Row, at: usize) -> Option<u64>
    ensures { Reads number (λ n. 1 ≤ n) (column row.now at) result }
{
    let number = read_column::<u64>(row, at)?;
    if number < 1 {
        return None;
    }
    Some(number)
}
