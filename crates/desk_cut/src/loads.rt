//! Each submission takes something of a file and of the sequences: its load.
ghost use Rattle.std.specs.Prelude.{◌≡◌, ◌<◌, IfOk, OnErr, All, length, map, if◌then◌else◌};
ghost use Rattle.desk_plan.specs.Batch.{IsBatch, IsEntryCount};
ghost use Rattle.desk_history.specs.Sendings.{plan_of};
ghost use Rattle.desk_cut.specs.Sent.{due_in};

use crate::due::DueSubmission;
use ach_fields::Cents;
use desk_book::records_of;
use desk_plan::Batch;
use std::alloc::{AllocError, Global};

/// The cents where the test holds, else none.
pub(crate) fn cents_if(test: bool, cents: Cents) -> Cents
    ensures { result ≡ (if test then cents else 0) }
{
    if test {
        return cents;
    }
    Cents::new(0).unwrap()
}

fn load_of(due: &DueSubmission<'_>) -> Batch
    ensures value { result ≡ plan_of (due_in due.now) }
    ensures batch { IsBatch result }
{
    let sized = &due.waiting.row.content;
    let content = sized.submission();
    let entries = content.entries.as_slice();
    let cents = sized.total();
    let debit = content.direction.is_debit();
    Batch {
        company: due.waiting.company.id,
        order: due.waiting.row.order,
        settled: due.settled,
        debits: cents_if(debit, cents),
        credits: cents_if(!debit, cents),
        entries: entries.len() as u32,
        records: records_of(entries),
    }
}

/// Gives the load of each submission, in order. Where nothing is sent it takes no memory.
pub(crate) fn loads_of(alloc: Global, sent: &[DueSubmission<'_>]) -> Result<Vec<Batch>, AllocError>
    ensures value { IfOk result (λ loads. loads.items ≡ map plan_of (map due_in sent.now)) }
    ensures batches { IfOk result (λ loads. All IsBatch loads.items) }
    ensures memory { OnErr result (0 < length sent.now) }
{
    let mut loads = Vec::new(alloc);
    for due in sent {
        loads.push(load_of(due))?;
    }
    Ok(loads)
}

/// Gives the number of entries of each.
pub(crate) fn counts_of(alloc: Global, loads: &[Batch]) -> Result<Vec<u32>, AllocError>
    requires { All IsBatch loads.now }
    ensures value { IfOk result (λ counts. counts.items ≡ map (λ b. b.entries) loads.now) }
    ensures counts { IfOk result (λ counts. All IsEntryCount counts.items) }
{
    let mut counts = Vec::new(alloc);
    for load in loads {
        counts.push(load.entries)?;
    }
    Ok(counts)
}
