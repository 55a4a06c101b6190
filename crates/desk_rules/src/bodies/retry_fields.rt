//! A retry's fields are checked here, in their order.
ghost use Rattle.std.specs.Prelude.{◌≡◌};
ghost use Rattle.desk_rules.specs.Retry.{retry_of};

use crate::bodies::fields;
use crate::bodies::fields::good;
use crate::{Field, Refusal, Retry, RetryDraft};

/// Gives the retry that a draft is, or its first bad field: reference, the submission's reference,
/// the entry's number, day, authorization.
pub fn check_retry_fields(draft: &RetryDraft) -> Result<Retry, Refusal>
    ensures { result ≡ retry_of draft.now }
{
    let reference = good(fields::reference(&draft.reference), Field::Reference, 0)?;
    let of = good(fields::reference(&draft.of), Field::Of, 0)?;
    let index = good(fields::entry_number(draft.index), Field::Index, 0)?;
    let day = good(fields::day(&draft.day), Field::Day, 0)?;
    let authorized = good(
        fields::optional_day(&draft.authorized),
        Field::Authorized,
        0,
    )?;
    Ok(Retry {
        reference,
        of,
        index,
        day,
        authorized,
    })
}
