//! A cut decides what is due on a day: some of it is sent, and some lapses.
ghost use Rattle.std.specs.Prelude.{◌≡◌, ◌<◌, IfOk, IfErr, OnErr, length, map, Some, All, true};
ghost use Rattle.desk_history.specs.State as history;
ghost use Rattle.desk_history.specs.State.{is_too_late};
ghost use Rattle.desk_book.specs.OnCut.{settles, sendings, lapses_among};
ghost use Rattle.desk_cut.specs.Faults.{IsUnsettled, is_any_due};
ghost use Rattle.desk_cut.specs.Sent.{due_in, sent_in};

use crate::fault::CutFault;
use bank_days::{Calendar, Day};
use desk_book::{HeldSubmission, LapsedRow};
use desk_rules::RuleDay;
use std::alloc::{AllocError, Global};

/// A `DueSubmission` is a submission that a cut would send, with the day on which it would settle.
#[derive(Clone, Copy)]
pub(crate) struct DueSubmission<'a> {
    pub(crate) waiting: &'a HeldSubmission,
    pub(crate) settled: Day,
}

/// A `Sending` is a submission that a cut sends, with the day on which it settles.
#[derive(Clone, Copy)]
pub(crate) struct Sending<'a> {
    pub(crate) waiting: &'a HeldSubmission,
    pub(crate) settled: RuleDay,
}

/// The submissions that a cut sends, and those that lapse.
#[derive(Drop)]
pub(crate) struct Decision<'a> {
    pub(crate) sent: Vec<DueSubmission<'a>>,
    pub(crate) lapsed: Vec<LapsedRow>,
}

/// The day on which a submission would settle that was asked to settle on a day.
pub(crate) fn settlement(asked: RuleDay, day: RuleDay, holidays: &Calendar) -> Day
    ensures value { result ≡ history.next_settlement holidays.now day asked }
    ensures later { day < result }
{
    holidays.roll(asked.day()).max(holidays.next(day.day()))
}

// The day on which it would settle.
fn settles(waiting: &HeldSubmission, day: RuleDay, holidays: &Calendar) -> Day
    ensures value { result ≡ settles holidays.now day waiting.now }
    ensures later { day < result }
{
    settlement(waiting.row.content.submission().day, day, holidays)
}

/// Would it settle too long after its original?
pub(crate) fn is_too_late(settles: Day, original: Option<RuleDay>) -> bool
    ensures { result ≡ is_too_late (Some settles) original }
{
    match original {
        Some(original) => desk_rules::is_too_late(original, settles),
        None => false,
    }
}

/// Gives what is sent and what lapses, in the order in which it waits. Where nothing is due it takes
/// no memory.
pub(crate) fn decide<'a>(
    alloc: Global,
    day: RuleDay,
    holidays: &Calendar,
    waiting: &'a [HeldSubmission],
) -> Result<Decision<'a>, AllocError>
    ensures sent { IfOk result (λ d. map due_in d.sent.items ≡ sendings holidays.now day waiting.now) }
    ensures later { IfOk result (λ d. All (λ s. day < s.settled) d.sent.items) }
    ensures lapsed { IfOk result (λ d. d.lapsed.items ≡ lapses_among holidays.now day waiting.now) }
    ensures memory { OnErr result (is_any_due holidays.now day waiting.now ≡ true) }
{
    let mut sent = Vec::new(alloc);
    let mut lapsed = Vec::new(alloc);
    for one in waiting {
        if one.is_due(day, holidays) {
            let settled = settles(one, day, holidays);
            if is_too_late(settled, one.original_settled) {
                lapsed.push(LapsedRow {
                    company: one.company.id,
                    order: one.row.order,
                })?;
            } else {
                sent.extend_from_slice(&[DueSubmission {
                    waiting: one,
                    settled,
                }])?;
            }
        }
    }
    Ok(Decision { sent, lapsed })
}

/// Gives what is sent, each with a day from which rules count, unless one would settle after the last.
pub(crate) fn settle<'a>(
    alloc: Global,
    due: &[DueSubmission<'a>],
) -> Result<Vec<Sending<'a>>, CutFault>
    ensures ok { IfOk result (λ sent. sent_in sent.items ≡ map due_in due.now) }
    ensures err { IfErr result (λ fault. IsUnsettled (map due_in due.now) fault) }
    ensures some { OnErr result (0 < length due.now) }
{
    let mut sent = Vec::new(alloc);
    for one in due {
        let Some(settled) = RuleDay::new(one.settled) else {
            return Err(CutFault::DaysSpent);
        };
        sent.extend_from_slice(&[Sending {
            waiting: one.waiting,
            settled,
        }])?;
    }
    Ok(sent)
}
