//! What the desk has waiting: of each company, and the sums of all of them.
ghost use Rattle.std.specs.Prelude.{◌≡◌, ◌≤◌, ◌^◌, IfOk, IfSome, None, OnErr, map, sum_by, true};
ghost use Rattle.desk_cut.specs.Faults.{TellsBeyond};
ghost use Rattle.desk_cut.specs.Sizes.{any_beyond, any_due_since, sent_since, waiting_by_size};
ghost use Rattle.desk_cut.specs.Waiting.{IsDeskWaiting, loads_of};

use crate::fault::CutFault;
use crate::status::{DueOnDay, due_on, held_sums};
use bank_days::Calendar;
use desk_book::HeldSize;
use desk_history::{CompanyStatus, ListOf};
use desk_plan::{Batch, divide};
use desk_rules::{Company, RuleDay};
use std::alloc::{AllocError, Global};

/// What a company has waiting, with what it adds to the sums of the desk.
#[derive(Drop)]
pub struct CompanyWaiting {
    /// The number of entry and addenda records of the submissions that no cut has decided.
    pub held_records: u128,
    /// What each submission that a cut of the desk day would send takes of the files.
    pub loads: ListOf<Batch>,
    pub status: CompanyStatus,
}

/// What all companies of a desk have waiting.
#[derive(Drop)]
pub struct DeskWaiting {
    /// The status of each company.
    pub companies: ListOf<CompanyStatus>,
    /// The number of files that a cut of the desk day would make.
    pub due_files: u64,
    /// The number of entry and addenda records that it would send.
    pub due_records: u64,
    /// The number of entry and addenda records of the submissions that no cut has decided.
    pub held_records: u64,
}

// The sum of as many submissions as memory has always fits.
fn held_records(sizes: &[HeldSize]) -> u128
    ensures { result ≡ sum_by (λ z. z.records) sizes.now }
{
    let mut records: u128 = 0;
    for one in sizes {
        records += u128::from(one.records);
    }
    records
}

/// Says what a company has of which submissions of these sizes wait: what is held, and what a cut on
/// the desk day would do with it, which is nothing before the first day.
///
/// It is `DaysSpent` exactly where a submission would settle after 2100-01-31, and else `NoMemory`
/// where there is no room for a list. Where nothing is due it takes no memory. No sum overflows.
pub fn company_waiting(
    alloc: Global,
    day: Option<RuleDay>,
    holidays: &Calendar,
    company: &Company,
    sizes: &[HeldSize],
) -> Result<CompanyWaiting, CutFault>
    ensures value { IfOk result
        (λ found. found ≡ waiting_by_size day holidays.now company.now sizes.now) }
    ensures days { TellsBeyond (any_beyond (sent_since day holidays.now sizes.now)) result }
    ensures memory { OnErr result (any_due_since day holidays.now sizes.now ≡ true) }
{
    let due = match day {
        None => DueOnDay {
            days: ListOf::new(Vec::new(alloc)),
            lapsing: 0,
            loads: ListOf::new(Vec::new(alloc)),
        },
        Some(day) => due_on(alloc, company.id, day, holidays, sizes)?,
    };
    Ok(CompanyWaiting {
        held_records: held_records(sizes),
        loads: due.loads,
        status: CompanyStatus {
            due: due.days,
            held: held_sums(sizes),
            id: company.id,
            lapsing: due.lapsing,
            name: company.name,
        },
    })
}

// What a cut would take for all of these companies.
fn loads_of(alloc: Global, all: &[CompanyWaiting]) -> Result<Vec<Batch>, AllocError>
    ensures { IfOk result (λ loads. loads.items ≡ loads_of all.now) }
{
    let mut loads = Vec::new(alloc);
    for one in all {
        loads.extend_from_slice(one.loads.as_slice())?;
    }
    Ok(loads)
}

// The records of as many submissions as memory has always fit.
fn due_records(loads: &[Batch]) -> u128
    ensures { result ≡ sum_by (λ l. l.records) loads.now }
{
    let mut records: u128 = 0;
    for load in loads {
        records += u128::from(load.records);
    }
    records
}

// None where the sum has more than 128 bits.
fn all_held_records(all: &[CompanyWaiting]) -> Option<u128>
    ensures some { IfSome result (λ records. records ≡ sum_by (λ w. w.held_records) all.now) }
    ensures none { result ≡ None → 2 ^ 128 ≤ sum_by (λ w. w.held_records) all.now }
{
    let mut records: u128 = 0;
    for one in all {
        let Some(more) = records.checked_add(one.held_records) else {
            return None;
        };
        records = more;
    }
    Some(records)
}

fn statuses_of(alloc: Global, all: Vec<CompanyWaiting>) -> Result<Vec<CompanyStatus>, AllocError>
    ensures { IfOk result (λ statuses. statuses.items ≡ map (λ w. w.status) all.items) }
{
    let mut statuses = Vec::new(alloc);
    for one in all {
        let CompanyWaiting { status, .. } = one;
        statuses.push(status)?;
    }
    Ok(statuses)
}

/// Gives the status of each company and the sums of all: the files by the division that a cut makes.
/// None where a number has more than 64 bits.
pub fn desk_waiting(
    alloc: Global,
    all: Vec<CompanyWaiting>,
) -> Result<Option<DeskWaiting>, AllocError>
    ensures { IfOk result (λ found. IsDeskWaiting all.items found) }
{
    let loads = loads_of(alloc, &all)?;
    let due_files = divide(alloc, &loads)?.len() as u64;
    let Ok(due_records) = u64::try_from(due_records(&loads)) else {
        return Ok(None);
    };
    let Some(held_records) = all_held_records(&all) else {
        return Ok(None);
    };
    let Ok(held_records) = u64::try_from(held_records) else {
        return Ok(None);
    };
    Ok(Some(DeskWaiting {
        companies: ListOf::new(statuses_of(alloc, all)?),
        due_files,
        due_records,
        held_records,
    }))
}
