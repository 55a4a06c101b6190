//! The sums of what a company has waiting, and of what a cut would do with it.
ghost use Rattle.std.specs.Prelude.{◌≡◌, ◌==◌, ◌<◌, [], ◌+◌, ℕ, length, true, IfOk, OnErr, OnOk};
ghost use Rattle.desk_accounts.specs.Balance.{with_day};
ghost use Rattle.desk_cut.specs.Faults.{TellsBeyond};
ghost use Rattle.desk_cut.specs.Sizes.{any_beyond, any_due, due_days, due_on, sent_sizes, settlement_days, sums_on, tallies_of};
ghost use Rattle.desk_cut.specs.Sums.{AreWithin, IsWithin, most_held, with_size, with_sizes};

use crate::fault::CutFault;
use crate::sizes::{SentSize, decide_sizes, loads_by_size, settles_beyond};
use ach_fields::Id;
use bank_days::{Calendar, Day};
use desk_book::HeldSize;
use desk_history::{DueDay, ListOf, Tallies, Tally};
use desk_plan::Batch;
use desk_rules::{Direction, RuleDay};
use std::alloc::{AllocError, Global};
use std::collections::BTreeSet;

// One more submission: the sums of as many as memory has always fit.
fn counted(tally: Tally, size: &HeldSize) -> Tally
    requires { IsWithin most_held tally }
    ensures value { result ≡ with_size size.now tally }
    ensures within { (n : ℕ) → IsWithin n tally → IsWithin (n + 1) result }
{
    Tally {
        cents: tally.cents + u128::from(size.cents.get()),
        submissions: tally.submissions + 1,
    }
}

// The same in its direction.
fn put(sums: Tallies, size: &HeldSize) -> Tallies
    requires { AreWithin most_held sums }
    ensures value { result ≡ with_sizes size.now sums }
    ensures within { (n : ℕ) → AreWithin n sums → AreWithin (n + 1) result }
{
    match size.direction {
        Direction::Credit => Tallies {
            credits: counted(sums.credits, size),
            debits: sums.debits,
        },
        Direction::Debit => Tallies {
            credits: sums.credits,
            debits: counted(sums.debits, size),
        },
    }
}

// The sums of no submissions.
fn no_sums() -> Tallies
    ensures value { result ≡ tallies_of [] }
    ensures within { AreWithin 0 result }
{
    let none = Tally {
        cents: 0,
        submissions: 0,
    };
    Tallies {
        credits: none,
        debits: none,
    }
}

/// Sums what is held.
pub(crate) fn held_sums(sizes: &[HeldSize]) -> Tallies
    ensures { result ≡ tallies_of sizes.now }
{
    let mut sums = no_sums();
    for one in sizes {
        sums = put(sums, one);
    }
    sums
}

fn settles_on(sent: &SentSize, day: Day) -> bool
    ensures { result ≡ (sent.now.settled == day) }
{
    sent.settled == day
}

// The sums of what settles on a day.
fn sums_on(day: Day, sent: &[SentSize]) -> Tallies
    ensures { result ≡ sums_on day sent.now }
{
    let mut sums = no_sums();
    for one in sent {
        if settles_on(one, day) {
            sums = put(sums, &one.size);
        }
    }
    sums
}

fn add_day(days: &mut BTreeSet<Day>, day: Day) -> Result<(), AllocError>
    ensures { OnOk result (days.new.keys ≡ with_day day days.old.keys) }
{
    days.insert(day)?;
    Ok(())
}

// The days on which it settles, ascending.
fn days_of(alloc: Global, sent: &[SentSize]) -> Result<BTreeSet<Day>, AllocError>
    ensures { IfOk result (λ days. days.keys ≡ settlement_days sent.now) }
{
    let mut days = BTreeSet::new(alloc);
    for done in 0..sent.len() {
        // From the last one on, as the days are defined.
        let one = &sent[sent.len() - 1 - done];
        add_day(&mut days, one.settled)?;
    }
    Ok(days)
}

// Where nothing is sent it takes no memory.
fn due_by_day(alloc: Global, sent: &[SentSize]) -> Result<Vec<DueDay>, AllocError>
    ensures value { IfOk result (λ due. due.items ≡ due_days sent.now) }
    ensures memory { OnErr result (0 < length sent.now) }
{
    let mut due = Vec::new(alloc);
    if sent.is_empty() {
        return Ok(due);
    }
    let days = days_of(alloc, sent)?;
    for day in &days {
        due.push(DueDay {
            day: *day,
            sums: sums_on(*day, sent),
        })?;
    }
    Ok(due)
}

/// What a cut on a day would do with what waits.
#[derive(Drop)]
pub(crate) struct DueOnDay {
    /// What it would send, by the day on which it settles, ascending.
    pub(crate) days: ListOf<DueDay>,
    /// How many retries it would let lapse.
    pub(crate) lapsing: u64,
    /// What each submission that it would send takes of the files.
    pub(crate) loads: ListOf<Batch>,
}

/// Says what a cut on a day would do with what a company has waiting, by the sizes of it. Where nothing
/// is due it takes no memory.
pub(crate) fn due_on(
    alloc: Global,
    company: Id,
    day: RuleDay,
    holidays: &Calendar,
    sizes: &[HeldSize],
) -> Result<DueOnDay, CutFault>
    ensures value { IfOk result (λ due. due ≡ due_on company holidays.now day sizes.now) }
    ensures days { TellsBeyond (any_beyond (sent_sizes holidays.now day sizes.now)) result }
    ensures memory { OnErr result (any_due holidays.now day sizes.now ≡ true) }
{
    if settles_beyond(day, holidays, sizes) {
        return Err(CutFault::DaysSpent);
    }
    let decided = decide_sizes(alloc, day, holidays, sizes)?;
    let loads = loads_by_size(alloc, company, &decided.sent)?;
    let due = due_by_day(alloc, &decided.sent)?;
    Ok(DueOnDay {
        days: ListOf::new(due),
        lapsing: decided.lapsing,
        loads: ListOf::new(loads),
    })
}
