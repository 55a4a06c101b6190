//! The operator's read of the desk's status.
ghost use Rattle.std.specs.Prelude.{◌≡◌, take, IfOk};
ghost use Rattle.desk_plan.specs.Modifiers.{modifiers};
ghost use Rattle.desk_history.specs.Status.{modifiers_on};
ghost use Rattle.desk_book.specs.OnStatus.{status_answer};
ghost use Rattle.desk_cut.specs.Waiting.{desk_waiting};
ghost use Rattle.desk_calls.specs.Status.{all_waiting, each_waiting, waiting_on};
ghost use Rattle.desk_admission.specs.OverStores.{AnswersAsked, Gives, GivesList};

use bank_days::{Calendar, Day};
use desk_cut::{CompanyWaiting, DeskWaiting, company_waiting, desk_waiting};
use desk_history::{Answer, DeskStatus, ListOf, Outcome};
use desk_plan::modifier;
use desk_rules::{Company, RuleDay};
use desk_store::{Store, StoreFault};
use std::alloc::Global;

// What a company has waiting. What could not be summed is answered as what a store could not read.
fn waiting_of<S: Store>(
    store: &mut S,
    alloc: Global,
    day: &Option<RuleDay>,
    holidays: &Calendar,
    company: &Company,
) -> Result<CompanyWaiting, StoreFault>
    ensures { Gives S.Store store.old store.new result
        (waiting_on day.now holidays.now company.now) }
{
    let sizes = store.held_sizes_of(alloc, *company)?;
    match company_waiting(alloc, *day, holidays, company, &sizes) {
        Ok(found) => Ok(found),
        Err(_) => Err(StoreFault::Unavailable),
    }
}

// Returns what each of these companies has waiting.
fn each_waiting<S: Store>(
    store: &mut S,
    alloc: Global,
    day: &Option<RuleDay>,
    holidays: &Calendar,
    companies: &[Company],
) -> Result<Vec<CompanyWaiting>, StoreFault>
    ensures { GivesList S.Store store.old store.new result
        (each_waiting day.now holidays.now companies.now) }
{
    let mut found = Vec::new(alloc);
    for company in companies {
        let waiting = waiting_of(store, alloc, day, holidays, company)?;
        found.push(waiting)?;
    }
    Ok(found)
}

// The sums of all. A number with more than 64 bits is answered as what a store could not read.
fn sums_of(alloc: Global, each: Vec<CompanyWaiting>) -> Result<DeskWaiting, StoreFault>
    ensures { IfOk result (λ all. all ≡ desk_waiting each.items) }
{
    match desk_waiting(alloc, each)? {
        Some(all) => Ok(all),
        None => Err(StoreFault::Unavailable),
    }
}

// Returns the status of each of these companies, and the sums of all.
fn all_waiting<S: Store>(
    store: &mut S,
    alloc: Global,
    day: &Option<RuleDay>,
    holidays: &Calendar,
    companies: &[Company],
) -> Result<DeskWaiting, StoreFault>
    ensures { Gives S.Store store.old store.new result
        (all_waiting day.now holidays.now companies.now) }
{
    let each = each_waiting(store, alloc, day, holidays, companies)?;
    let all = sums_of(alloc, each)?;
    Ok(all)
}

// The modifiers of the first files of a day.
fn first_modifiers(alloc: Global, made: u64) -> Result<Vec<u8>, StoreFault>
    ensures { IfOk result (λ found. found.items ≡ take made modifiers) }
{
    let Ok(made) = u32::try_from(made) else {
        return Err(StoreFault::Unavailable);
    };
    let mut found = Vec::new(alloc);
    for before in 0..made {
        let Some(modifier) = modifier(before) else {
            return Err(StoreFault::Unavailable);
        };
        found.push(modifier)?;
    }
    Ok(found)
}

// The modifiers of the day's files.
fn files_of<S: Store>(
    store: &mut S,
    alloc: Global,
    day: &Option<RuleDay>,
) -> Result<Vec<u8>, StoreFault>
    ensures { GivesList S.Store store.old store.new result (λ b. modifiers_on day.now b.files_on) }
{
    match day {
        None => Ok(Vec::new(alloc)),
        Some(day) => {
            let made = store.files_on(alloc, day.day())?;
            first_modifiers(alloc, made)
        }
    }
}

fn day_of(day: &Option<RuleDay>) -> Option<Day>
    ensures { result ≡ day.now }
{
    match day {
        Some(day) => Some(day.day()),
        None => None,
    }
}

/// Answers with the desk's status.
pub(crate) fn status<S: Store>(store: &mut S, alloc: Global) -> Result<Answer, StoreFault>
    ensures { AnswersAsked S.Store store.old store.new result status_answer }
{
    let day = store.day(alloc)?;
    let holidays = store.calendar(alloc)?;
    let companies = store.companies(alloc)?;
    let waiting = all_waiting(store, alloc, &day, &holidays, &companies)?;
    let files = files_of(store, alloc, &day)?;
    let sent = store.sent_count(alloc)?;
    let suspense = store.suspense_count(alloc)?;
    Ok(Answer::Done(Outcome::Status(DeskStatus {
        companies: waiting.companies,
        day: day_of(&day),
        due_files: waiting.due_files,
        due_records: waiting.due_records,
        files: ListOf::new(files),
        held_records: waiting.held_records,
        holidays: holidays.holidays().len() as u64,
        sent,
        suspense,
    })))
}
