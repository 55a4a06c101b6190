//! What the desk's status reads of a held submission: its numbers, without its entries.
ghost use Rattle.std.specs.Prelude.{◌≡◌, ◌≤◌, IfOk, length, map, sum_by};
ghost use Rattle.desk_history.specs.Sendings.{records_of};
ghost use Rattle.desk_book.specs.HeldSizes.{held_size, size_of};

use crate::HeldSubmission;
use ach_fields::Cents;
use desk_rules::{Direction, Entry, RuleDay, SizedSubmission};
use std::alloc::{AllocError, Global};

/// A `HeldSize` is what the desk's status reads of a submission that no cut has decided.
#[derive(Clone, Copy, Debug, PartialEq, Eq, Drop)]
pub struct HeldSize {
    /// Its number among the company's accepted submissions and retries, from 1.
    pub order: u64,
    pub direction: Direction,
    /// The day on which it is asked to settle.
    pub asked: RuleDay,
    pub is_retry: bool,
    /// The day on which its original settled, for a retry.
    pub original_settled: Option<RuleDay>,
    /// The cents of all its entries.
    pub cents: Cents,
    /// How many entries it has.
    pub entries: u32,
    /// How many entry and addenda records its entries have.
    pub records: u32,
}

/// Returns the number of entry and addenda records that entries have.
pub fn records_of(entries: &[Entry]) -> u32
    requires { length entries.now ≤ 1_000 }
    ensures value { result ≡ sum_by (λ e. records_of e.info) entries.now }
    ensures within { result ≤ 2_000 }
{
    let mut records = 0;
    for entry in entries {
        records += if entry.info.is_some() { 2 } else { 1 };
    }
    records
}

/// Returns the size of a submission, held under this number.
pub fn size_of(
    order: u64,
    content: &SizedSubmission,
    is_retry: bool,
    original_settled: Option<RuleDay>,
) -> HeldSize
    ensures { result ≡ size_of order content.now is_retry original_settled }
{
    let submission = content.submission();
    let entries = submission.entries.as_slice();
    HeldSize {
        order,
        direction: submission.direction,
        asked: submission.day,
        is_retry,
        original_settled,
        cents: content.total(),
        entries: entries.len() as u32,
        records: records_of(entries),
    }
}

// Returns the size of a held submission.
fn held_size(held: &HeldSubmission) -> HeldSize
    ensures { result ≡ held_size held.now }
{
    let row = &held.row;
    size_of(
        row.order,
        &row.content,
        row.retry.is_some(),
        held.original_settled,
    )
}

/// Returns the sizes of held submissions.
pub fn held_sizes(alloc: Global, held: &[HeldSubmission]) -> Result<Vec<HeldSize>, AllocError>
    ensures { IfOk result (λ sizes. sizes.items ≡ map held_size held.now) }
{
    let mut sizes = Vec::new(alloc);
    for one in held {
        sizes.push(held_size(one))?;
    }
    Ok(sizes)
}
