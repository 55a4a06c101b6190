//! The holidays of the table are a calendar.
ghost use Rattle.std.specs.Prelude.{◌≡◌, nat_le, IfOk};
ghost use Rattle.std.specs.List.{list_all};
ghost use Rattle.desk_rules.specs.Deadlines.{last_rule_day};
ghost use Rattle.sql_queries.specs.Asking.{Asks};

use crate::rows::column_of;
use bank_days::{Calendar, Day};
use desk_rules::RuleDay;
use sqlite::{Alter, Connection, Error};
use std::alloc::Global;

// May a rule be given the day, as every holiday?
fn is_rule_day(day: Day) -> bool
    ensures { result ≡ nat_le day last_rule_day }
{
    RuleDay::new(day).is_some()
}

fn are_rule_days(days: &[Day]) -> bool
    ensures { result ≡ list_all (λ d. nat_le d last_rule_day) days.now }
{
    days.iter().all(|day| is_rule_day(*day))
}

// The calendar of these days. Days that none has, out of their order or too late, are
// `Error::InvalidQuery`.
fn calendar_of(alloc: Global, days: &[Day]) -> Result<Calendar, Error>
    ensures { IfOk result (λ calendar. calendar ≡ days.now) }
{
    if !are_rule_days(days) {
        return Err(Error::InvalidQuery);
    }
    match Calendar::from_days(alloc, days) {
        Ok(calendar) => Ok(calendar),
        Err(_) => Err(Error::InvalidQuery),
    }
}

// The days on which banks are closed, from the first.
fn holidays<S: Alter>(conn: &mut Connection<S>, alloc: Global) -> Result<Vec<Day>, Error>
    ensures { Asks S.Store conn.old conn.new result (λ found t. found.items ≡ t.holidays) }
{
    column_of(conn, alloc, "SELECT day FROM holidays ORDER BY day", &[])
}

/// Gives the holidays of the operator's calendar.
pub fn calendar<S: Alter>(conn: &mut Connection<S>, alloc: Global) -> Result<Calendar, Error>
    ensures { Asks S.Store conn.old conn.new result (λ found t. found ≡ t.holidays) }
{
    let days = holidays(conn, alloc)?;
    calendar_of(alloc, &days)
}
