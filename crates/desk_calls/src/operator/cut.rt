//! The operator cuts files.
ghost use Rattle.std.specs.Prelude.{◌≡◌};
ghost use Rattle.desk_history.specs.Message.{Cut};
ghost use Rattle.desk_calls.specs.Cutting.{latest_of, read_in, read_on, refusal_of};
ghost use Rattle.desk_admission.specs.OverStores.{GivesAs, GivesList};
ghost use Rattle.desk_calls.specs.OverStores.{Obeys, TellsPlan, TellsPlanOrFault, WritesPlan};

use bank_days::{Calendar, Day};
use desk_admission::{refuse, rule_day};
use desk_book::HeldSubmission;
use desk_cut::{CutFault, CutPlan, number_cut, plan_cut};
use desk_history::{Answer, Identity, Outcome};
use desk_rules::{Refusal, RuleDay};
use desk_store::{CutRows, LastNumber, Store, StoreFault};
use std::alloc::Global;

/// `CutReads` are what a cut on a day is planned by.
#[derive(Drop)]
pub(crate) struct CutReads {
    pub identity: Identity,
    pub day: RuleDay,
    pub holidays: Calendar,
    /// The number of the last sent entry.
    pub last: LastNumber,
    /// The number of files that the day has.
    pub made: u64,
    /// Of what waits only what is due.
    pub due: Vec<HeldSubmission>,
}

fn reads_of<S: Store>(store: &mut S, alloc: Global, day: RuleDay) -> Result<CutReads, StoreFault>
    ensures { GivesAs S.Store store.old store.new read_in result (read_on day) }
{
    let identity = store.identity(alloc)?;
    let holidays = store.calendar(alloc)?;
    let last = store.last_number(alloc)?;
    let made = store.files_on(alloc, day.day())?;
    let due = store.due(alloc, day, &holidays)?;
    Ok(CutReads {
        identity,
        day,
        holidays,
        last,
        made,
        due,
    })
}

// For each range of sequences the latest day on which a youngest entry with one of them settled.
fn latest_of<S: Store>(
    store: &mut S,
    alloc: Global,
    ranges: &[(u32, u32)],
) -> Result<Vec<Option<Day>>, StoreFault>
    ensures { GivesList S.Store store.old store.new result (λ b. latest_of ranges.now b) }
{
    let mut latest = Vec::new(alloc);
    for range in ranges {
        let settled = store.latest_settled(alloc, range.0, range.1)?;
        latest.push(settled)?;
    }
    Ok(latest)
}

// Why a cut is refused. A settlement after the last day from which rules count refuses nothing, nor
// does being out of memory.
fn refusal_of(fault: CutFault) -> Result<Refusal, StoreFault>
    ensures { result ≡ refusal_of fault }
{
    match fault {
        CutFault::TracesSpent => Ok(Refusal::TracesSpent),
        CutFault::ModifiersSpent => Ok(Refusal::ModifiersSpent),
        CutFault::DaysSpent | CutFault::NoMemory => Err(StoreFault::Unavailable),
    }
}

// The plan of a cut, or its fault.
fn planned<S: Store>(
    store: &mut S,
    alloc: Global,
    reads: &CutReads,
) -> Result<Result<CutPlan, CutFault>, StoreFault>
    ensures { TellsPlanOrFault S.Store store.old store.new reads.now result }
{
    desk_book::entries_of_cuts();
    let (day, last) = (reads.day, reads.last.sequence);
    let numbered = match number_cut(alloc, day, &reads.holidays, last, &reads.due) {
        Ok(numbered) => numbered,
        Err(fault) => return Ok(Err(fault)),
    };
    let latest = latest_of(store, alloc, numbered.ranges())?;
    Ok(plan_cut(alloc, &reads.identity, numbered, reads.made, &latest))
}

// The plan of a cut, or why it is refused.
fn plan<S: Store>(
    store: &mut S,
    alloc: Global,
    reads: &CutReads,
) -> Result<Result<CutPlan, Refusal>, StoreFault>
    ensures { TellsPlan S.Store store.old store.new reads.now result }
{
    match planned(store, alloc, reads)? {
        Ok(plan) => Ok(Ok(plan)),
        Err(fault) => Ok(Err(refusal_of(fault)?)),
    }
}

// Writes a plan, given the number of entries sent before, and answers.
fn write<S: Store>(
    store: &mut S,
    alloc: Global,
    before: u64,
    plan: CutPlan,
) -> Result<Answer, StoreFault>
    ensures { WritesPlan S.Store store.old store.new before plan result }
{
    let rows = CutRows {
        before,
        sent: plan.sent.as_slice(),
        lapsed: plan.lapsed.as_slice(),
        entries: plan.entries.as_slice(),
        postings: plan.postings.as_slice(),
        files: plan.files.as_slice(),
    };
    store.commit_cut(alloc, &rows)?;
    Ok(Answer::Done(Outcome::Cut(plan.done)))
}

/// Sends what is due on the desk day.
pub(crate) fn cut<S: Store>(store: &mut S, alloc: Global) -> Result<Answer, StoreFault>
    ensures { Obeys S.Store store.old store.new result Cut }
{
    let day = match rule_day(store, alloc)? {
        Ok(day) => day,
        Err(why) => return Ok(refuse(why)),
    };
    let reads = reads_of(store, alloc, day)?;
    match plan(store, alloc, &reads)? {
        Ok(plan) => write(store, alloc, reads.last.place, plan),
        Err(why) => Ok(refuse(why)),
    }
}
