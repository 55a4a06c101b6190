//! The exposures of a company follow from its open rows.
ghost use Rattle.std.specs.Prelude.{◌≤◌, ◌<◌, IsTrue, IfSome};
ghost use Rattle.bank_days.specs.Calendar.{nth_after};
ghost use Rattle.desk_rules.specs.Deadlines.{last_rule_day};
ghost use Rattle.desk_book.specs.OpenRows.{IsPast, OpenRowsSuffice};

use bank_days::{Calendar, Day};
use desk_rules::RuleDay;

/// The exposures of a company's open rows are those of all its rows, if every settlement before the
/// first day that counts has its second banking day before the desk day.
pub fn open_rows_suffice()
    ensures { OpenRowsSuffice }
{}

// Has a day its second banking day before the desk day?
fn is_past(calendar: &Calendar, day: Day, today: Day) -> bool
    ensures early { IsTrue result → day ≤ last_rule_day }
    ensures past { IsTrue result → nth_after calendar.now day 2 < today }
{
    match RuleDay::new(day) {
        Some(day) => calendar.nth_after(day.day(), 2) < today,
        None => false,
    }
}

/// Returns the first day whose settlements still count for an exposure on a desk day: every earlier
/// settlement has its second banking day before the desk day. Returns `None` if the desk day is one
/// of the first of the year 2000, before which no day exists.
pub fn first_open_day(calendar: &Calendar, today: Day) -> Option<Day>
    ensures { IfSome result (λ since. IsPast since today calendar.now) }
{
    bank_days::nth_banking_days();
    let _holidays = calendar.holidays();
    let mut since = today;
    for _ in 0..today.number() {
        let before = Day::from_number(since.number() - 1)?;
        if is_past(calendar, before, today) {
            return Some(before.plus(1));
        }
        since = before;
    }
    None
}
