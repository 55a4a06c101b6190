//! The sequences of the entries of a cut.
ghost use Rattle.std.specs.Prelude.{◌≡◌, All, true, IfOk, OnOk, IsErrOf};
ghost use Rattle.desk_plan.specs.Batch.{IsEntryCount};
ghost use Rattle.desk_plan.specs.Sequences.{IsRange, TakeTwice, range_after, ranges, are_apart};

use ach_fields::MOST_SEQUENCE;
use std::alloc::{AllocFailed, Global};

/// A `NumberFault` says why the entries of a cut get no sequences.
#[derive(Clone, Copy, Debug, PartialEq, Eq)]
pub enum NumberFault {
    /// A batch would take a sequence that another batch of the cut takes.
    TracesSpent,
    /// The plan is out of memory.
    NoMemory,
}

impl<T: Drop> From<AllocFailed<T>> for NumberFault {
    ghost use Rattle.desk_plan.specs.declared.numbers.NumberFault.TheVariants.{NoMemory};

    ghost from_gives = { λ _ e. e ≡ NoMemory };

    fn from(_error: AllocFailed<T>) -> NumberFault {
        NumberFault::NoMemory
    }
}

/// Returns the first and the last sequence of each batch of a cut, by their numbers of entries and
/// by the sequence of the last entry sent before, 0 if there is none.
///
/// A batch takes the next sequences in a row after the last one taken. A batch that would pass
/// 9,999,999 begins at 1, and the sequences left over stay unused in this round.
///
/// # Errors
///
/// `TracesSpent` if two batches would have a sequence in common. Whether the entries of earlier
/// cuts leave a range free is decided by `is_past`.
pub fn plan_numbers(
    alloc: Global,
    last_sequence: u32,
    entries: &[u32],
) -> Result<Vec<(u32, u32)>, NumberFault>
    requires { All IsEntryCount entries.now }
    ensures ranges { IfOk result (λ planned. planned.items ≡ ranges last_sequence entries.now) }
    ensures apart { OnOk result (are_apart (ranges last_sequence entries.now) ≡ true) }
    ensures spent { IsErrOf result NumberFault.TracesSpent → TakeTwice last_sequence entries.now }
    ensures within { IfOk result (λ planned. All IsRange planned.items) }
{
    let mut ranges = Vec::new(alloc);
    let Some((count, rest)) = entries.split_first() else {
        return Ok(ranges);
    };
    let (start, end) = range_after(last_sequence, *count);
    ranges.push((start, end))?;
    let mut last = end;
    let mut restarted = false;
    for count in rest {
        let (from, to) = range_after(last, *count);
        let restarts = from <= last;
        if restarted && restarts {
            return Err(NumberFault::TracesSpent);
        }
        restarted = restarted || restarts;
        if restarted && start <= to {
            return Err(NumberFault::TracesSpent);
        }
        ranges.push((from, to))?;
        last = to;
    }
    Ok(ranges)
}

// Returns the first and the last sequence of a batch with this many entries, after a last sequence.
fn range_after(last: u32, entries: u32) -> (u32, u32)
    requires { IsEntryCount entries }
    ensures value { result ≡ range_after last entries }
    ensures within { IsRange result }
{
    match last.checked_add(entries) {
        Some(to) if to <= MOST_SEQUENCE => (last + 1, to),
        _ => (1, entries),
    }
}
