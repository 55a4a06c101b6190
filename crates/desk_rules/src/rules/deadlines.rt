//! A return is in time until its deadline, by Nacha's rules.
ghost use Rattle.std.specs.Prelude.{◌≡◌};
ghost use Rattle.desk_rules.specs.Deadlines.{deadline, is_late};

use crate::{ReturnCode, RuleDay, TimeClass};
use bank_days::{Calendar, Day};

/// Returns the return deadline: the last day on which a return with this code is in time, for an
/// entry that settled on this day. It is the second banking day after that day, or the first
/// banking day after its sixtieth day (an extended return). Returns `None` if the code has no
/// limit.
pub fn deadline(code: ReturnCode, settled: RuleDay, calendar: &Calendar) -> Option<Day>
    ensures { result ≡ deadline code settled calendar.now }
{
    let settled = settled.day();
    match code.time_class() {
        TimeClass::TwoBankingDays => Some(calendar.nth_after(settled, 2)),
        TimeClass::SixtyDays => Some(calendar.next(settled.plus(60))),
        TimeClass::Unlimited => None,
    }
}

/// Is a return late that is taken on a day? It is where the day is after the deadline.
pub fn is_late(code: ReturnCode, settled: RuleDay, taken: Day, calendar: &Calendar) -> bool
    ensures { result ≡ is_late code settled taken calendar.now }
{
    match deadline(code, settled, calendar) {
        Some(last) => taken > last,
        None => false,
    }
}
