//! The sequences of a cut.
ghost use Rattle.std.specs.Prelude.{◌≡◌, ◌<◌, All, IfOk, IfErr, OnOk, map, true};
ghost use Rattle.std.specs.List.{list_all};
ghost use Rattle.desk_plan.specs.Batch.{IsBatch};
ghost use Rattle.desk_plan.specs.Reuse.{is_past};
ghost use Rattle.desk_plan.specs.Sequences.{are_apart};
ghost use Rattle.desk_book.specs.OnCut.{sendings, lapses_among};
ghost use Rattle.desk_cut.specs.Numbers.{IsNumbered, HasNoRanges, loads_among, ranges_among};
ghost use Rattle.desk_cut.specs.Sent.{due_in};

use crate::due::{Decision, DueSubmission, decide};
use crate::fault::CutFault;
use crate::loads::{counts_of, loads_of};
use bank_days::{Calendar, Day};
use desk_book::{HeldSubmission, LapsedRow};
use desk_plan::{Batch, NumberFault, is_past, plan_numbers};
use desk_rules::RuleDay;
use std::alloc::{AllocError, Global};

// The decisions of a cut, and what each submission that it sends takes.
#[derive(Drop)]
struct LoadedCut<'a> {
    sent: Vec<DueSubmission<'a>>,
    lapsed: Vec<LapsedRow>,
    loads: Vec<Batch>,
}

/// `CutNumbers` have what a cut sends, with the first and the last sequence of each submission.
#[derive(Drop)]
pub(crate) struct CutNumbers<'a> {
    pub(crate) sent: Vec<DueSubmission<'a>>,
    pub(crate) lapsed: Vec<LapsedRow>,
    pub(crate) loads: Vec<Batch>,
    pub(crate) ranges: Vec<(u32, u32)>,
}

fn load<'a>(
    alloc: Global,
    day: RuleDay,
    holidays: &Calendar,
    waiting: &'a [HeldSubmission],
) -> Result<LoadedCut<'a>, AllocError>
    ensures sent { IfOk result (λ l. map due_in l.sent.items ≡ sendings holidays.now day waiting.now) }
    ensures lapsed { IfOk result (λ l. l.lapsed.items ≡ lapses_among holidays.now day waiting.now) }
    ensures loads { IfOk result (λ l. l.loads.items ≡ loads_among holidays.now day waiting.now) }
    ensures batches { IfOk result (λ l. All IsBatch l.loads.items) }
    ensures later { IfOk result (λ l. All (λ b. day < b.settled) l.loads.items) }
{
    let Decision { sent, lapsed } = decide(alloc, day, holidays, waiting)?;
    let loads = loads_of(alloc, &sent)?;
    Ok(LoadedCut {
        sent,
        lapsed,
        loads,
    })
}

// Returns the sent submissions with their sequences, and the lapsed ones.
fn number<'a>(
    alloc: Global,
    day: RuleDay,
    holidays: &Calendar,
    last: u32,
    waiting: &'a [HeldSubmission],
) -> Result<CutNumbers<'a>, CutFault>
    ensures ok { IfOk result (λ n. IsNumbered holidays.now day last waiting.now n) }
    ensures err { IfErr result (HasNoRanges day last (sendings holidays.now day waiting.now)) }
{
    desk_plan::by_ranges();
    let LoadedCut {
        sent,
        lapsed,
        loads,
    } = load(alloc, day, holidays, waiting)?;
    let counts = counts_of(alloc, &loads)?;
    match plan_numbers(alloc, last, &counts) {
        Ok(ranges) => Ok(CutNumbers {
            sent,
            lapsed,
            loads,
            ranges,
        }),
        Err(NumberFault::TracesSpent) => Err(CutFault::TracesSpent),
        Err(NumberFault::NoMemory) => Err(CutFault::NoMemory),
    }
}

/// A `NumberedCut` is a cut whose batches have their sequences.
#[derive(Drop)]
pub struct NumberedCut<'a> {
    /// The day on which it is made.
    pub day: RuleDay,
    /// The holidays that decide what is due.
    pub holidays: &'a Calendar,
    /// The sequence of the entry that was sent last before it.
    pub last: u32,
    /// The submissions that wait for it.
    pub waiting: &'a [HeldSubmission],
    pub(crate) numbers: CutNumbers<'a>,
    ghost is_numbered: { IsNumbered holidays.now day last waiting.now numbers },
}

impl<'a> NumberedCut<'a> {
    /// Gives the first and the last sequence of each batch, in order.
    pub fn ranges(&self) -> &[(u32, u32)]
        ensures { result.now ≡ ranges_among self.now.holidays.now self.now.day
            self.now.last self.now.waiting.now }
    {
        &self.numbers.ranges
    }
}

/// Numbers a cut on a day, after the sequence of the last entry that was sent.
///
/// It is `TracesSpent` where two batches would have a sequence in common. Whether the entries of
/// earlier cuts leave the ranges free is for the caller to see, from the latest settlement of each.
pub fn number_cut<'a>(
    alloc: Global,
    day: RuleDay,
    holidays: &'a Calendar,
    last: u32,
    waiting: &'a [HeldSubmission],
) -> Result<NumberedCut<'a>, CutFault>
    ensures day { IfOk result (λ cut. cut.day ≡ day) }
    ensures holidays { IfOk result (λ cut. cut.holidays.now ≡ holidays.now) }
    ensures last { IfOk result (λ cut. cut.last ≡ last) }
    ensures waiting { IfOk result (λ cut. cut.waiting.now ≡ waiting.now) }
    ensures apart { OnOk result (are_apart (ranges_among holidays.now day last waiting.now) ≡ true) }
    ensures err { IfErr result (HasNoRanges day last (sendings holidays.now day waiting.now)) }
{
    let numbers = number(alloc, day, holidays, last, waiting)?;
    Ok(NumberedCut {
        day,
        holidays,
        last,
        waiting,
        numbers,
    })
}

/// May the sequences of each range be used on a day, by the latest settlement of each?
pub(crate) fn are_past(day: Day, latest: &[Option<Day>]) -> bool
    ensures { result ≡ list_all (is_past day) latest.now }
{
    for settled in latest {
        if !is_past(day, *settled) {
            return false;
        }
    }
    true
}
