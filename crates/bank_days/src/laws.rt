//! The laws of days, of banking days and of holiday lists.
ghost use Rattle.bank_days.specs.Laws.{DaysAndDates, DaysAndTexts, NthBankingDays, RolledDays, HolidayLists};

/// Each number names one date of the calendar, and each date from 1970 on has one number.
pub fn days_and_dates()
    ensures { DaysAndDates }
{}

/// A text that is read names a day whose text it is, and the text of a day of the years 2000 to 2099
/// is read as that day.
pub fn days_and_texts()
    ensures { DaysAndTexts }
{
    ach_fields::numbers_and_digits();
}

/// Exactly one day is the n-th banking day after a given day. It is near, and that of a later day
/// is not earlier.
pub fn nth_banking_days()
    ensures { NthBankingDays }
{}

/// A day is rolled to the first banking day from it on, and that is not far.
pub fn rolled_days()
    ensures { RolledDays }
{}

/// Rows make a holiday list exactly where they are ascending days, at most 400; else the fault is
/// that of the first row that has one.
pub fn holiday_lists()
    ensures { HolidayLists }
{}
