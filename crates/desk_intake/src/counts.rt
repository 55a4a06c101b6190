//! The answer to a file counts its items.
ghost use Rattle.std.specs.Prelude.{◌≡◌, count_by};
ghost use Rattle.desk_intake.specs.Plans.{counts_of};

use bank_days::Day;
use desk_book::{ChangedRow, ReturnedRow};
use desk_history::{Intake, SuspenseRow};

fn late_among(returned: &[ReturnedRow]) -> usize
    ensures { result ≡ count_by (λ r. r.row.late) returned.now }
{
    returned.iter().filter(|returned| returned.row.late).count()
}

/// Counts the rows.
pub(crate) fn counts(
    day: Day,
    returned: &[ReturnedRow],
    changed: &[ChangedRow],
    suspense: &[SuspenseRow],
) -> Intake
    ensures { result ≡ counts_of day returned.now changed.now suspense.now }
{
    Intake {
        changes: changed.len() as u64,
        day,
        late: late_among(returned) as u64,
        returns: returned.len() as u64,
        suspense: suspense.len() as u64,
    }
}
