ghost use Rattle.std.specs.Prelude.{◌≡◌, ◌≤◌, ◌<◌, ◌+◌, pos, IsTrue, IfSome};
ghost use Rattle.bank_days.specs.Day.{last_read_day, last_argument_day, last_day, is_day, day_of, day_text, day_ymd, day_from_number, is_workday};

use crate::date::{Date, is_workday};
use ach_fields::Ymd;
use std::marker::Model;

/// This is the number of 2000-01-01.
const FIRST: i64 = 10_957;

/// This is the number of 2101-12-31.
const LAST: i64 = 48_211;

/// A `Day` is a day from 2000-01-01 to 2101-12-31.
#[derive(Clone, Copy, Debug, PartialEq, Eq, PartialOrd, Ord)]
pub struct Day {
    number: u32,
}

// Contracts see the number of the day; 1970-01-01 is 0.
impl Model for Day {
    ghost use Rattle.std.specs.Prelude.{ℕ, IsTrue};
    ghost use Rattle.bank_days.specs.Day.{is_day};

    ghost Value = { ℕ };

    ghost view = { λ d. d.number };

    ghost invariant = { λ d. IsTrue (is_day d.number) };

    ghost inverse = { λ n. record { number = n } };
}

impl Day {
    /// Reads the day that a text `YYYY-MM-DD` names: a day of the calendar, in the years 2000 to
    /// 2099.
    #[tactic(auto, unfolding(crate::specs::Day::day_of))]
    pub fn read(text: &[u8]) -> Option<Day>
        ensures value { result ≡ day_of text.now }
        ensures within { IfSome result (λ d. d ≤ last_read_day) }
    {
        let number = Date::read(text)?.number()?;
        Some(Day { number })
    }

    /// Returns the day with this number; 1970-01-01 is 0.
    pub fn from_number(number: i64) -> Option<Day>
        ensures { result ≡ day_from_number number }
    {
        if number < FIRST || number > LAST {
            return None;
        }
        Some(Day {
            number: number as u32,
        })
    }

    /// Returns the day's number; 1970-01-01 is 0.
    pub fn number(self) -> i64
        ensures value { result ≡ pos self }
        ensures valid { IsTrue (is_day self) }
    {
        i64::from(self.number)
    }

    /// Gives the text `YYYY-MM-DD`.
    #[tactic(auto, unfolding(crate::specs::Day::day_text))]
    pub fn text(self) -> [u8; 10]
        ensures { result ≡ day_text self }
    {
        Date::of_number(self.number).text()
    }

    /// Gives the text `YYMMDD`, as files write dates.
    #[tactic(auto, unfolding(crate::specs::Day::day_ymd))]
    pub fn ymd(self) -> Ymd
        ensures { result ≡ day_ymd self }
    {
        Date::of_number(self.number).ymd()
    }

    /// Returns the day that is this many days later.
    pub fn plus(self, days: u32) -> Day
        requires day { self ≤ last_argument_day }
        requires days { days ≤ 366 }
        ensures { result ≡ self + days }
    {
        Day {
            number: self.number + days,
        }
    }

    // The day after it.
    pub(crate) fn tomorrow(self) -> Day
        requires { self < last_day }
        ensures { result ≡ self + 1 }
    {
        Day {
            number: self.number + 1,
        }
    }

    // Is it neither a Saturday nor a Sunday?
    pub(crate) fn is_workday(self) -> bool
        ensures { result ≡ is_workday self }
    {
        is_workday(self.number)
    }
}
