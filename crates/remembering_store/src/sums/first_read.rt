//! What is kept of a submission that the store already has.
ghost use Rattle.std.specs.Prelude.{◌≡◌, IfSome};
ghost use Rattle.desk_book.specs.declared.row.Row.{Row};
ghost use Rattle.desk_book.specs.OpenSubmissions.{open_submission};
ghost use Rattle.remembering_store.specs.KnownRow.{Fits};

use crate::sums::open_row::OpenRow;
use desk_book::OpenSubmission;

/// Returns what to keep of an open submission, or `None` if its entries are not all held, or all sent
/// with its settlement day.
pub(crate) fn keep_open(submission: OpenSubmission) -> Option<OpenRow>
    ensures { IfSome result (λ k. (row : Row) → submission ≡ open_submission row → Fits k row) }
{
    if !submission.uniform {
        return None;
    }
    Some(OpenRow {
        reference: submission.reference,
        debit: submission.direction.is_debit(),
        settled: submission.settled,
        total: submission.total,
        cents: submission.cents.into_vec(),
    })
}
