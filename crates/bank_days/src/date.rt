ghost use Rattle.std.specs.Prelude.{◌≡◌, ◌≤◌, ◌%◌, ◌+◌, pos, IsTrue, IfSome};
ghost use Rattle.std.specs.Int.{IsInRange};
ghost use Rattle.jiff_core.specs.Date.{epoch_day};
ghost use Rattle.bank_days.specs.Day.{first_day, last_read_day, last_day, is_workday};
ghost use Rattle.ach_fields.specs.Ymd.{date_text as short_text};

use ach_fields::{Ymd, take_number};
use jiff::civil::{Date as PlainDate, Weekday};
use jiff_core::civil::Date as NumberedDate;

/// A `Date` is a year, a month and a day of the month. The calendar need not have the day.
#[derive(Clone, Copy)]
pub(crate) struct Date {
    pub year: u16,
    pub month: u8,
    pub day: u8,
}

impl Date {
    ghost use Rattle.bank_days.specs.Date.{date_in, date_of_number, date_text, is_date, number_of_date};
    ghost use Rattle.bank_days.specs.Day.{day_at};

    /// Reads the date that a text `YYYY-MM-DD` spells.
    #[tactic(auto, unfolding(crate::specs::Date::date_in))]
    pub fn read(text: &[u8]) -> Option<Date>
        ensures { result ≡ date_in text.now }
    {
        if text.len() != 10 || text[4] != b'-' || text[7] != b'-' {
            return None;
        }
        let year = take_number(&text[..4]).ok()?;
        let month = take_number(&text[5..7]).ok()?;
        let day = take_number(&text[8..]).ok()?;
        Some(Date {
            year: year as u16,
            month: month as u8,
            day: day as u8,
        })
    }

    /// Gives the date that a day's number names.
    pub fn of_number(number: u32) -> Date
        requires { number ≤ last_day }
        ensures value { result ≡ date_of_number number }
        ensures real { IsTrue (is_date result) }
        ensures year { result.year ≤ 2101 }
    {
        let date = plain_date(number);
        Date {
            year: date.year() as u16,
            month: date.month() as u8,
            day: date.day() as u8,
        }
    }

    /// Gives the number of the day with this date, if the calendar has it in the years 2000 to
    /// 2099.
    pub fn number(self) -> Option<u32>
        ensures value { result ≡ day_at self }
        ensures within { IfSome result (IsInRange first_day last_read_day) }
    {
        // Months and days past these would not fit the casts; the library judges the others.
        if self.year < 2000 || self.year > 2099 || self.month > 12 || self.day > 31 {
            return None;
        }
        let date = PlainDate::new(self.year as i16, self.month as i8, self.day as i8).ok()?;
        Some(date.to_plain().to_unix_epoch_day() as u32)
    }

    /// Gives the text `YYYY-MM-DD`.
    #[tactic(auto, unfolding(crate::specs::Date::date_text, ach_fields::specs::Digits::digits))]
    pub fn text(self) -> [u8; 10]
        ensures { result ≡ date_text self }
    {
        let year = u32::from(self.year);
        let month = u32::from(self.month);
        let day = u32::from(self.day);
        [
            digit(year / 1000),
            digit(year / 100),
            digit(year / 10),
            digit(year),
            b'-',
            digit(month / 10),
            digit(month),
            b'-',
            digit(day / 10),
            digit(day),
        ]
    }

    /// Gives the text `YYMMDD`.
    pub fn ymd(self) -> Ymd
        requires { IsTrue (is_date self) }
        ensures { result ≡ short_text (self.year % 100) self.month self.day }
    {
        Ymd::new((self.year % 100) as u8, self.month, self.day).unwrap()
    }
}

// The last digit of a number.
fn digit(number: u32) -> u8
    ensures { result ≡ 48 + number % 10 }
{
    b'0' + (number % 10) as u8
}

/// Is a day neither a Saturday nor a Sunday?
pub(crate) fn is_workday(number: u32) -> bool
    requires { number ≤ last_day }
    ensures { result ≡ is_workday number }
{
    !matches!(
        plain_date(number).weekday(),
        Weekday::Saturday | Weekday::Sunday
    )
}

// The library's date of a day. Dates by number are those of the crate below `jiff`.
fn plain_date(number: u32) -> PlainDate
    requires { number ≤ last_day }
    ensures { epoch_day result ≡ pos number }
{
    PlainDate::from_plain(NumberedDate::from_unix_epoch_day(i64::from(number)).unwrap())
}
