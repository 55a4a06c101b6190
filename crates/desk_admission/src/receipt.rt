//! The receipt of a submission.
ghost use Rattle.std.specs.Prelude.{◌≡◌};
ghost use Rattle.desk_history.specs.Reports.{receipt};

use desk_history::Receipt;
use desk_rules::SizedSubmission;

/// Gives the receipt of a submission with this order number.
pub(crate) fn receipt(content: &SizedSubmission, order: u64) -> Receipt
    ensures { result ≡ receipt content.now order }
{
    let submission = content.submission();
    Receipt {
        cents: content.total(),
        entries: submission.entries.as_slice().len() as u64,
        order,
        reference: submission.reference,
    }
}
