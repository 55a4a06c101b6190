//! The operator's settings: days, holidays, companies and limits.
ghost use Rattle.std.specs.Prelude.{◌≡◌};
ghost use Rattle.bank_days.specs.HolidayList.{holidays_in};
ghost use Rattle.desk_history.specs.Message.{SetDay, SetHolidays, PutCompany, PutLimits};
ghost use Rattle.desk_book.specs.OnOperator.{new_day};
ghost use Rattle.desk_calls.specs.Faults.{list_refusal};
ghost use Rattle.desk_calls.specs.OverStores.{Obeys};

use bank_days::{Calendar, CalendarFault};
use desk_admission::{company_limits, refuse};
use desk_history::{Answer, CallRefusal, Outcome};
use desk_rules::{CompanyDraft, DraftText, LimitsDraft, Refusal, RuleDay};
use desk_store::{Store, StoreFault};
use std::alloc::Global;

/// Sets the desk day.
pub(crate) fn set_day<S: Store>(
    store: &mut S,
    alloc: Global,
    text: &Option<DraftText>,
) -> Result<Answer, StoreFault>
    ensures { Obeys S.Store store.old store.new result (SetDay text.now) }
{
    let day = store.day(alloc)?;
    let holidays = store.calendar(alloc)?;
    match new_day(day, &holidays, text) {
        Ok(day) => {
            store.set_day(alloc, day)?;
            Ok(Answer::Done(Outcome::Day(day.day())))
        }
        Err(why) => Ok(refuse(why)),
    }
}

// The new desk day, after this one and a banking day by these holidays.
fn new_day(
    day: Option<RuleDay>,
    holidays: &Calendar,
    text: &Option<DraftText>,
) -> Result<RuleDay, Refusal>
    ensures { result ≡ new_day day holidays.now text.now }
{
    let new = desk_rules::check_day_field(text)?;
    if let Some(today) = day {
        if new <= today {
            return Err(Refusal::DayNotLater);
        }
    }
    if !holidays.is_banking(new.day()) {
        return Err(Refusal::NotBankingDay);
    }
    Ok(new)
}

/// Sets the holiday list, from its CSV text.
pub(crate) fn set_holidays<S: Store>(
    store: &mut S,
    alloc: Global,
    text: &[u8],
) -> Result<Answer, StoreFault>
    ensures { Obeys S.Store store.old store.new result (SetHolidays (holidays_in text.now)) }
{
    match Calendar::read(alloc, text) {
        Ok(holidays) => {
            let count = holidays.holidays().len();
            store.set_holidays(alloc, holidays)?;
            Ok(Answer::Done(Outcome::Holidays(count as u64)))
        }
        Err(fault) => list_refusal(fault),
    }
}

// The answer to a holiday list that is refused. Want of memory is no answer, and all else is one.
fn list_refusal(fault: CalendarFault) -> Result<Answer, StoreFault>
    ensures { result ≡ list_refusal fault }
{
    match fault {
        CalendarFault::NoMemory => Err(StoreFault::Unavailable),
        _ => Ok(Answer::Refused(CallRefusal::BadCalendar(fault))),
    }
}

/// Registers a company.
pub(crate) fn put_company<S: Store>(
    store: &mut S,
    alloc: Global,
    draft: &CompanyDraft,
) -> Result<Answer, StoreFault>
    ensures { Obeys S.Store store.old store.new result (PutCompany draft.now) }
{
    let company = match desk_rules::check_company_fields(draft) {
        Ok(company) => company,
        Err(why) => return Ok(refuse(why)),
    };
    if store.company(alloc, company.id)?.is_some() {
        return Ok(refuse(Refusal::CompanyExists));
    }
    store.put_company(alloc, company)?;
    Ok(Answer::Done(Outcome::Company(company.id)))
}

/// Sets new limits of a company.
pub(crate) fn put_limits<S: Store>(
    store: &mut S,
    alloc: Global,
    draft: &LimitsDraft,
) -> Result<Answer, StoreFault>
    ensures { Obeys S.Store store.old store.new result (PutLimits draft.now) }
{
    let (id, limits) = match desk_rules::check_limits_fields(draft) {
        Ok(found) => found,
        Err(why) => return Ok(refuse(why)),
    };
    if let Err(why) = company_limits(store, alloc, id)? {
        return Ok(refuse(why));
    }
    store.put_limits(alloc, id, limits)?;
    Ok(Answer::Done(Outcome::Company(id)))
}
