//! The first checks of a call: that the company is registered, and that a day is set.
ghost use Rattle.desk_rules.specs.declared.refusals.refusal.Refusal.TheVariants.{NoDay};
ghost use Rattle.desk_history.specs.Words.{some_or};
ghost use Rattle.desk_admission.specs.OverStores.{Gives};
ghost use Rattle.desk_admission.specs.Verdicts.{limits_on};

use ach_fields::Id;
use bank_days::Day;
use desk_rules::{Limits, Refusal, RuleDay};
use desk_store::{Store, StoreFault};
use std::alloc::Global;

/// Gives the limits of a company, or `NoCompany` where it is not registered.
pub fn company_limits<S: Store>(
    store: &mut S,
    alloc: Global,
    company: Id,
) -> Result<Result<Limits, Refusal>, StoreFault>
    ensures { Gives S.Store store.old store.new result (limits_on company) }
{
    match store.company(alloc, company)? {
        Some(registered) => Ok(Ok(registered.limits)),
        None => Ok(Err(Refusal::NoCompany)),
    }
}

/// Gives the desk day as one from which rules count, or `NoDay` where none was set.
pub fn rule_day<S: Store>(
    store: &mut S,
    alloc: Global,
) -> Result<Result<RuleDay, Refusal>, StoreFault>
    ensures { Gives S.Store store.old store.new result (λ b. some_or NoDay b.day) }
{
    match store.day(alloc)? {
        Some(day) => Ok(Ok(day)),
        None => Ok(Err(Refusal::NoDay)),
    }
}

/// Gives the desk day, or `NoDay` where none was set.
pub fn desk_day<S: Store>(store: &mut S, alloc: Global) -> Result<Result<Day, Refusal>, StoreFault>
    ensures { Gives S.Store store.old store.new result (λ b. some_or NoDay b.day) }
{
    match rule_day(store, alloc)? {
        Ok(day) => Ok(Ok(day.day())),
        Err(why) => Ok(Err(why)),
    }
}
