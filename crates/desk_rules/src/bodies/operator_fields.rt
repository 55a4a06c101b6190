//! The fields of the operator's bodies are checked here, in their order.
ghost use Rattle.std.specs.Prelude.{◌≡◌, option_and_then};
ghost use Rattle.desk_rules.specs.Operator.{company_of, limits_of, new_limits_of, desk_day_of, desk_day_in};

use crate::bodies::draft::LimitDrafts;
use crate::bodies::entry_cents::MOST_ENTRY_CENTS;
use crate::bodies::fields;
use crate::bodies::fields::good;
use crate::{Company, CompanyDraft, DraftText, Field, Limits, LimitsDraft, Refusal, RuleDay};
use ach_fields::Id;

/// The highest limit of an exposure, in cents.
const MOST_EXPOSURE_LIMIT: u64 = 999_999_999_999_999;

/// The last desk day is 2096-12-31.
const LAST_DESK_DAY: i64 = 46_386;

/// Gives the company that a draft is, or its first bad field: identification, name, key, the
/// limits.
pub fn check_company_fields(draft: &CompanyDraft) -> Result<Company, Refusal>
    ensures { result ≡ company_of draft.now }
{
    let id = good(fields::id(&draft.id), Field::Id, 0)?;
    let name = good(fields::text(&draft.name), Field::Name, 0)?;
    good(fields::key(&draft.key), Field::Key, 0)?;
    let limits = check_limits(&draft.limits)?;
    Ok(Company {
        id,
        name,
        digest: draft.digest,
        limits,
    })
}

/// Gives the company and its new limits that a draft names, or its first bad field: identification,
/// the limits.
pub fn check_limits_fields(draft: &LimitsDraft) -> Result<(Id, Limits), Refusal>
    ensures { result ≡ new_limits_of draft.now }
{
    let id = good(fields::id(&draft.id), Field::Id, 0)?;
    let limits = check_limits(&draft.limits)?;
    Ok((id, limits))
}

fn check_limits(draft: &LimitDrafts) -> Result<Limits, Refusal>
    ensures { result ≡ limits_of draft.now }
{
    let entry = good(
        fields::up_to(MOST_ENTRY_CENTS, draft.entry),
        Field::EntryLimit,
        0,
    )?;
    let credit = good(
        fields::up_to(MOST_EXPOSURE_LIMIT, draft.credit),
        Field::CreditLimit,
        0,
    )?;
    let debit = good(
        fields::up_to(MOST_EXPOSURE_LIMIT, draft.debit),
        Field::DebitLimit,
        0,
    )?;
    Ok(Limits {
        entry,
        credit,
        debit,
    })
}

/// Gives the desk day that a draft names, or its bad field: a day of the calendar from 2000-01-01
/// to 2096-12-31.
pub fn check_day_field(draft: &Option<DraftText>) -> Result<RuleDay, Refusal>
    ensures { result ≡ desk_day_in draft.now }
{
    good(desk_day(draft), Field::Day, 0)
}

fn desk_day(draft: &Option<DraftText>) -> Option<RuleDay>
    ensures { result ≡ option_and_then desk_day_of draft.now }
{
    match fields::day(draft) {
        Some(day) if day.day().number() <= LAST_DESK_DAY => Some(day),
        _ => None,
    }
}
