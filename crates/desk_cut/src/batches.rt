//! The batches of a cut, and their entries with their sequences.
ghost use Rattle.std.specs.Prelude.{◌≡◌, ◌≤◌, ◌+◌, ◌++◌, All, IfOk, OnOk, map};
ghost use Rattle.desk_history.specs.Sendings.{batch_entries};
ghost use Rattle.ach_fields.specs.Trace.{most_sequence};
ghost use Rattle.desk_cut.specs.Numbers.{batches_of, entries_of};
ghost use Rattle.desk_cut.specs.Sendable.{IsSendable};
ghost use Rattle.desk_cut.specs.Sent.{batch_in, sent_in};

use crate::due::Sending;
use desk_book::HeldSubmission;
use desk_history::SentEntry;
use desk_rules::RuleDay;
use std::alloc::{AllocError, Global};

/// A `NumberedBatch` is a submission that is sent, with the day on which it settles and the
/// sequence of its first entry.
#[derive(Clone, Copy)]
pub(crate) struct NumberedBatch<'a> {
    pub(crate) waiting: &'a HeldSubmission,
    pub(crate) settled: RuleDay,
    pub(crate) first: u32,
}

/// Gives the batches, each with its range of sequences.
pub(crate) fn batches_of<'a>(
    alloc: Global,
    sent: &[Sending<'a>],
    ranges: &[(u32, u32)],
) -> Result<Vec<NumberedBatch<'a>>, AllocError>
    ensures { IfOk result
        (λ batches. map batch_in batches.items ≡ batches_of ranges.now (sent_in sent.now)) }
{
    let mut batches = Vec::new(alloc);
    for (range, sending) in ranges.iter().zip(sent) {
        batches.extend_from_slice(&[NumberedBatch {
            waiting: sending.waiting,
            settled: sending.settled,
            first: range.0,
        }])?;
    }
    Ok(batches)
}

/// Returns the sequence of a batch's entry, by the number of entries before it.
pub(crate) fn sequence_of(batch: &NumberedBatch<'_>, before: u64) -> u32
    requires { batch.now.first + before ≤ most_sequence }
    ensures { result ≡ batch.now.first + before }
{
    batch.first + before as u32
}

// Adds a batch's entries, with their sequences.
fn push_entries(sent: &mut Vec<SentEntry>, batch: &NumberedBatch<'_>) -> Result<(), AllocError>
    requires { IsSendable (batch_in batch.now) }
    ensures { OnOk result (sent.new.items ≡ sent.old.items ++ batch_entries (batch_in batch.now)) }
{
    let row = &batch.waiting.row;
    let content = row.content.submission();
    let debit = content.direction.is_debit();
    for (index, entry) in content.entries.as_slice().iter().enumerate() {
        let sequence = sequence_of(batch, index as u64);
        sent.push(SentEntry {
            sequence,
            company: batch.waiting.company.id,
            reference: content.reference,
            order: row.order,
            index: index as u64 + 1,
            settled: batch.settled,
            sec: content.sec,
            debit,
            entry: *entry,
        })?;
    }
    Ok(())
}

// How many entries the batches have.
fn count_of(batches: &[NumberedBatch<'_>]) -> usize {
    let mut count: usize = 0;
    for batch in batches {
        count = count.saturating_add(
            batch
                .waiting
                .row
                .content
                .submission()
                .entries
                .as_slice()
                .len(),
        );
    }
    count
}

/// Gives the entries of the batches, in the order of their sequences.
pub(crate) fn entries_of(
    alloc: Global,
    batches: &[NumberedBatch<'_>],
) -> Result<Vec<SentEntry>, AllocError>
    requires { All (λ b. IsSendable (batch_in b)) batches.now }
    ensures { IfOk result (λ entries. entries.items ≡ entries_of (map batch_in batches.now)) }
{
    let mut entries = Vec::with_capacity(alloc, count_of(batches))?;
    for batch in batches {
        push_entries(&mut entries, batch)?;
    }
    Ok(entries)
}
