ghost use Rattle.std.specs.Prelude.{◌≡◌, ◌≤◌};
ghost use Rattle.bank_days.specs.Day.{day_of};
ghost use Rattle.desk_rules.specs.Deadlines.{last_rule_day, rule_day_of};

use bank_days::Day;
use std::marker::Model;

/// This is the number of the last day that a rule may be given, 2100-01-31.
const LAST_RULE_DAY: i64 = 47_512;

/// A `RuleDay` is a day that a rule may be given, from 2000-01-01 to 2100-01-31: what is counted from
/// it is a day too.
#[derive(Clone, Copy, Debug, PartialEq, Eq, PartialOrd, Ord)]
pub struct RuleDay {
    day: Day,
}

// Contracts see the number of the day; 1970-01-01 is 0.
impl Model for RuleDay {
    ghost use Rattle.std.specs.Prelude.{ℕ, ◌≤◌};
    ghost use Rattle.desk_rules.specs.Deadlines.{last_rule_day};

    ghost Value = { ℕ };

    ghost view = { λ d. d.day };

    ghost invariant = { λ d. d.day ≤ last_rule_day };

    ghost inverse = { λ n. record { day = n } };
}

impl RuleDay {
    /// Returns the day if rules accept it.
    pub fn new(day: Day) -> Option<RuleDay>
        ensures { result ≡ rule_day_of day }
    {
        if day.number() > LAST_RULE_DAY {
            return None;
        }
        Some(RuleDay { day })
    }

    /// Reads the day that a text `YYYY-MM-DD` names: a day of the calendar, in the years 2000 to
    /// 2099.
    pub fn read(text: &[u8]) -> Option<RuleDay>
        ensures { result ≡ day_of text.now }
    {
        let day = Day::read(text)?;
        Some(RuleDay { day })
    }

    /// Gives it as a day.
    pub fn day(self) -> Day
        ensures value { result ≡ self }
        ensures within { result ≤ last_rule_day }
    {
        self.day
    }
}
