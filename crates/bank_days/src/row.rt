//! The rows of a holiday list.
ghost use Rattle.std.specs.Prelude.{◌≡◌, ◌≤◌, ◌+◌, Some, None, length, IfOk, IfErr, IfSome, OnOk};
ghost use Rattle.csv.specs.Records.{fields_of};
ghost use Rattle.bank_days.specs.Day.{last_read_day};
ghost use Rattle.bank_days.specs.Calendar.{most_holidays};
ghost use Rattle.bank_days.specs.HolidayList.{last_of, row_day, row_fault};

use crate::{CalendarFault, Day};
use csv::ByteRecord;

/// The most rows of a list.
const MOST_ROWS: usize = 400;

/// Gives the day of a row that has one field, the text of a day.
pub(crate) fn day_of_row(row: &ByteRecord) -> Option<Day>
    ensures value { result ≡ row_day (fields_of row.now) }
    ensures within { IfSome result (λ d. d ≤ last_read_day) }
{
    if row.len() != 1 {
        return None;
    }
    Day::read(row.get(0)?)
}

/// Returns the day of a row that may follow these days, or the row's fault.
pub(crate) fn day_behind(days: &[Day], row: Option<Day>) -> Result<Day, CalendarFault>
    requires { length days.now ≤ most_holidays }
    ensures ok { IfOk result (λ d. row ≡ Some d) }
    ensures fits { OnOk result (row_fault (length days.now + 1) (last_of days.now) row ≡ None) }
    ensures err { IfErr result (λ f. row_fault (length days.now + 1) (last_of days.now) row ≡ Some f) }
{
    let number = days.len() as u32 + 1;
    let Some(day) = row else {
        return Err(CalendarFault::BadRow(number));
    };
    if let Some(last) = days.last()
        && day <= *last
    {
        return Err(CalendarFault::NotAscending(number));
    }
    if days.len() == MOST_ROWS {
        return Err(CalendarFault::TooMany);
    }
    Ok(day)
}
