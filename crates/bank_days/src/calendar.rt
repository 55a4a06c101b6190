ghost use Rattle.std.specs.List.{list_any};
ghost use Rattle.std.specs.List.Sorted.{IsStrictlyIncreasing};
ghost use Rattle.std.specs.Prelude.{◌≡◌, ◌≢◌, ◌==◌, ◌≤◌, ◌+◌, ◌*◌, [], ◌∷◌, ◌++◌, None, All, max, IfOk, IfErr, IfSome, OnErr, OnOk};
ghost use Rattle.std.specs.Option.{ForSome};
ghost use Rattle.bank_days.specs.Day.{last_read_day, last_argument_day};
ghost use Rattle.bank_days.specs.Calendar.{AreHolidays, IsNthAfter, IsFirstFrom, is_banking, nth_after, next_banking, roll};
ghost use Rattle.bank_days.specs.HolidayList.{Gives, holidays_in, holidays_of_days, next_row_fault, IsRowFault, IsRefusedOnlyFull};

use crate::row::{day_behind, day_of_row};
use crate::{CalendarFault, Day};
use csv::ReaderBuilder;
use std::alloc::{AllocError, Global};
use std::marker::Model;

/// A `Calendar` is a bank's list of holidays: at most 400 days, ascending.
#[derive(Debug, Drop)]
pub struct Calendar {
    days: Vec<Day>,
}

// Clauses see the list of the days.
impl Model for Calendar {
    ghost use Rattle.std.specs.Prelude.{List, ℕ};
    ghost use Rattle.bank_days.specs.Calendar.{AreHolidays};

    ghost Value = { List ℕ };

    ghost view = { λ c. c.days.items };

    ghost invariant = { λ c. AreHolidays c.days.items };
}

impl Calendar {
    /// Gives the list without a day. It takes no memory.
    pub fn empty(alloc: Global) -> Calendar
        ensures { result ≡ [] }
    {
        Calendar {
            days: Vec::new(alloc),
        }
    }

    /// Gives the list of these days. The first day at fault decides: it is `NotAscending` where it
    /// is not after the one before, else `TooMany` where it is the 401st. No days take no memory.
    pub fn from_days(alloc: Global, days: &[Day]) -> Result<Calendar, CalendarFault>
        requires { All (λ d. d ≤ last_argument_day) days.now }
        ensures value { Gives (holidays_of_days days.now) result }
        ensures memory { OnErr result (days.now ≢ []) }
    {
        let mut holidays = Vec::new(alloc);
        for day in days {
            match push_row(&mut holidays, Some(*day)) {
                Ok(()) => (),
                Err(fault) => return Err(fault),
            }
        }
        Ok(Calendar { days: holidays })
    }

    /// Reads a list of holidays from CSV text without a header: one day `YYYY-MM-DD` in each row.
    ///
    /// Rows are as `csv` reads them: blank lines are skipped, a field may be quoted, and a byte
    /// order mark at the start is dropped.
    ///
    /// # Errors
    ///
    /// The first invalid row decides: `BadRow` if it is not a day of the years 2000 to 2099, else
    /// `NotAscending` if its day is not after that of the row before, else `TooMany` if it is the
    /// 401st. `NoMemory` can occur only at a row: an empty text takes no memory.
    pub fn read(alloc: Global, text: &[u8]) -> Result<Calendar, CalendarFault>
        ensures value { Gives (holidays_in text.now) result }
        ensures memory { OnErr result (text.now ≢ []) }
        ensures within { IfOk result (All (λ h. h ≤ last_read_day)) }
    {
        if text.is_empty() {
            return Ok(Calendar::empty(alloc));
        }
        let reader = ReaderBuilder::new()
            .has_headers(false)
            .flexible(true)
            .from_reader(alloc, text);
        let mut days = Vec::new(alloc);
        for row in reader.into_byte_records() {
            let Ok(row) = row else {
                return Err(CalendarFault::NoMemory);
            };
            match push_row(&mut days, day_of_row(&row)) {
                Ok(()) => (),
                Err(fault) => return Err(fault),
            }
        }
        Ok(Calendar { days })
    }

    /// Copies the list. The copy of a list without a day takes no memory.
    pub fn try_clone(&self, alloc: Global) -> Result<Calendar, AllocError>
        ensures copy { IfOk result (λ copy. copy ≡ self.now) }
        ensures memory { OnErr result (self.now ≢ []) }
    {
        let mut days = Vec::new(alloc);
        days.extend_from_slice(&self.days)?;
        Ok(Calendar { days })
    }

    /// Is a day neither a Saturday nor a Sunday nor in the list?
    pub fn is_banking(&self, day: Day) -> bool
        ensures { result ≡ is_banking self.now day }
    {
        day.is_workday() && !is_listed(&self.days, day)
    }

    // The first banking day after a day.
    fn following(&self, day: Day) -> Day
        requires { day ≤ last_argument_day + 3 }
        ensures next { IsNthAfter self.now day 1 result }
        ensures soon { result ≤ max day last_argument_day + 3 }
    {
        // No holiday is after the last day that a call may be given, so the search ends.
        let _days = &self.days;
        let mut next = day.tomorrow();
        while !self.is_banking(next) {
            next = next.tomorrow();
        }
        next
    }

    /// Gives the first banking day after a day.
    pub fn next(&self, day: Day) -> Day
        requires { day ≤ last_argument_day }
        ensures value { result ≡ next_banking self.now day }
        ensures counted { IsNthAfter self.now day 1 result }
        ensures within { result ≤ last_argument_day + 3 }
    {
        self.following(day)
    }

    /// Gives the first or the second banking day after a day.
    pub fn nth_after(&self, day: Day, n: u8) -> Day
        requires day { day ≤ last_argument_day }
        requires count { (1 ≤ n) × (n ≤ 2) }
        ensures value { result ≡ nth_after self.now day n }
        ensures counted { IsNthAfter self.now day n result }
        ensures within { result ≤ last_argument_day + 3 * n }
    {
        let first = self.next(day);
        if n == 1 { first } else { self.following(first) }
    }

    /// Gives the day itself where it is a banking day, else the next one.
    pub fn roll(&self, day: Day) -> Day
        requires { day ≤ last_argument_day }
        ensures value { result ≡ roll self.now day }
        ensures first { IsFirstFrom self.now day result }
        ensures within { result ≤ last_argument_day + 3 }
    {
        if self.is_banking(day) {
            day
        } else {
            self.next(day)
        }
    }

    /// Gives the days of the list, ascending.
    pub fn holidays(&self) -> &[Day]
        ensures value { result.now ≡ self.now }
        ensures valid { AreHolidays self.now }
    {
        self.days.as_slice()
    }
}

// Appends the day of one more row, or returns the row's fault.
fn push_row(days: &mut Vec<Day>, row: Option<Day>) -> Result<(), CalendarFault>
    requires days { AreHolidays days.old.items }
    requires row { ForSome row (λ d. d ≤ last_argument_day) }
    ensures valid { AreHolidays days.new.items }
    ensures ok { OnOk result (IfSome row (λ d. days.new.items ≡ days.old.items ++ d ∷ [])) }
    ensures fits { OnOk result (next_row_fault days.old.items row ≡ None) }
    ensures err { IfErr result (IsRowFault days.old.items row) }
    // Memory runs out only for a valid row, and only if the list is full.
    ensures memory { IfErr result (IsRefusedOnlyFull days.old row) }
{
    let day = match day_behind(days, row) {
        Ok(day) => day,
        Err(fault) => return Err(fault),
    };
    if days.push(day).is_err() {
        return Err(CalendarFault::NoMemory);
    }
    Ok(())
}

// Is a day in a list that ascends?
fn is_listed(days: &[Day], day: Day) -> bool
    requires { IsStrictlyIncreasing days.now }
    ensures { result ≡ list_any (λ h. h == day) days.now }
{
    days.binary_search(&day).is_ok()
}
