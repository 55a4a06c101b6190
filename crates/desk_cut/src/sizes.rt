//! What a cut would do with what waits, by the sizes of it.
ghost use Rattle.std.specs.Prelude.{◌≡◌, ◌<◌, IfOk, OnErr, length, map, true};
ghost use Rattle.desk_cut.specs.Sizes.{any_due, any_beyond, lapsing_among, load_of, sent_sizes};

use crate::due::{is_too_late, settlement};
use crate::loads::cents_if;
use ach_fields::Id;
use bank_days::{Calendar, Day};
use desk_book::{HeldSize, is_due};
use desk_plan::Batch;
use desk_rules::RuleDay;
use std::alloc::{AllocError, Global};

/// A `SentSize` is the size of a submission that a cut would send, with the day on which it would
/// settle.
#[derive(Clone, Copy)]
pub(crate) struct SentSize {
    pub(crate) size: HeldSize,
    pub(crate) settled: Day,
}

/// The sizes of the submissions that a cut would send, and how many would lapse.
#[derive(Drop)]
pub(crate) struct SizesDecided {
    pub(crate) sent: Vec<SentSize>,
    pub(crate) lapsing: u64,
}

/// Would a submission that a cut sends settle after the last day from which rules count?
pub(crate) fn settles_beyond(day: RuleDay, holidays: &Calendar, sizes: &[HeldSize]) -> bool
    ensures { result ≡ any_beyond (sent_sizes holidays.now day sizes.now) }
{
    for one in sizes {
        if is_due(one.direction, one.asked, day, holidays) {
            let settled = settlement(one.asked, day, holidays);
            if !is_too_late(settled, one.original_settled) && RuleDay::new(settled).is_none() {
                return true;
            }
        }
    }
    false
}

/// Gives what is sent, in the order in which it waits, and counts what lapses. Where nothing is due it
/// takes no memory.
pub(crate) fn decide_sizes(
    alloc: Global,
    day: RuleDay,
    holidays: &Calendar,
    sizes: &[HeldSize],
) -> Result<SizesDecided, AllocError>
    ensures sent { IfOk result (λ d. d.sent.items ≡ sent_sizes holidays.now day sizes.now) }
    ensures lapsing { IfOk result (λ d. d.lapsing ≡ lapsing_among holidays.now day sizes.now) }
    ensures memory { OnErr result (any_due holidays.now day sizes.now ≡ true) }
{
    let mut sent = Vec::new(alloc);
    let mut lapsing: u64 = 0;
    for one in sizes {
        if is_due(one.direction, one.asked, day, holidays) {
            let settled = settlement(one.asked, day, holidays);
            if is_too_late(settled, one.original_settled) {
                lapsing += 1;
            } else {
                sent.push(SentSize {
                    size: *one,
                    settled,
                })?;
            }
        }
    }
    Ok(SizesDecided { sent, lapsing })
}

fn load_of(company: Id, sent: &SentSize) -> Batch
    ensures { result ≡ load_of company sent.now }
{
    let size = &sent.size;
    let debit = size.direction.is_debit();
    Batch {
        company,
        order: size.order,
        settled: sent.settled,
        debits: cents_if(debit, size.cents),
        credits: cents_if(!debit, size.cents),
        entries: size.entries,
        records: size.records,
    }
}

/// Gives the load of each submission of a company, in order. Where nothing is sent it takes no memory.
pub(crate) fn loads_by_size(
    alloc: Global,
    company: Id,
    sent: &[SentSize],
) -> Result<Vec<Batch>, AllocError>
    ensures value { IfOk result (λ loads. loads.items ≡ map (load_of company) sent.now) }
    ensures memory { OnErr result (0 < length sent.now) }
{
    let mut loads = Vec::new(alloc);
    for one in sent {
        loads.push(load_of(company, one))?;
    }
    Ok(loads)
}
