//! A company's limits are asked of its exposures.
ghost use Rattle.desk_admission.specs.OverStores.{Gives};
ghost use Rattle.desk_admission.specs.Verdicts.{limited_on};

use ach_fields::Id;
use bank_days::Day;
use desk_rules::{Limits, Refusal, SizedSubmission, check_limits};
use desk_store::{Store, StoreFault};
use std::alloc::Global;

/// Gives what is within the company's limits, or its first refusal.
pub fn within_limits<S: Store>(
    store: &mut S,
    alloc: Global,
    company: Id,
    limits: &Limits,
    today: Day,
    content: SizedSubmission,
) -> Result<Result<SizedSubmission, Refusal>, StoreFault>
    ensures { Gives S.Store store.old store.new result
        (limited_on company limits.now today content) }
{
    let exposed = store.exposures(alloc, company, today)?;
    match check_limits(content.submission(), today, limits, exposed) {
        Ok(()) => Ok(Ok(content)),
        Err(why) => Ok(Err(why)),
    }
}
