ghost use Rattle.std.specs.Prelude.{◌≡◌, ◌≤◌, length};
ghost use Rattle.desk_rules.specs.Size.{size_of, total_of};

use crate::{Entry, Refusal, Submission};
use ach_fields::MOST_CENTS;

/// The most entries of a submission.
pub const MOST_ENTRIES: usize = 1_000;

/// Refuses a submission with too many entries or too large a total, in this order.
pub fn check_size(submission: &Submission) -> Result<(), Refusal>
    ensures { result ≡ size_of submission.now }
{
    let entries = submission.entries.as_slice();
    if entries.len() > MOST_ENTRIES {
        return Err(Refusal::TooManyEntries);
    }
    if total(entries) > MOST_CENTS {
        return Err(Refusal::TotalTooLarge);
    }
    Ok(())
}

/// Returns the sum of the entries in cents. The list has no more entries than a submission may
/// have.
pub fn total(entries: &[Entry]) -> u64
    requires { length entries.now ≤ 1_000 }
    ensures { result ≡ total_of entries.now }
{
    let mut sum = 0;
    for entry in entries {
        sum += entry.cents.get();
    }
    sum
}
