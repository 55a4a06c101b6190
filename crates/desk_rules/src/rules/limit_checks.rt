//! A submission is judged here by the desk day and the company's limits: the desk's own rules.
ghost use Rattle.std.specs.Prelude.{◌≡◌, ◌≤◌, ◌*◌, ◌+◌, length, nat_lt};
ghost use Rattle.std.specs.List.{list_any};
ghost use Rattle.ach_fields.specs.Cents.{most_cents};
ghost use Rattle.desk_rules.specs.LimitChecks.{IsVerdictByExposures, is_date_in_range, limits_verdict};
ghost use Rattle.desk_rules.specs.Size.{total_of};

use crate::{
    Direction, Entry, EntryFact, Limits, Refusal, Submission, credit_exposure, debit_exposure,
};
use bank_days::{Calendar, Day};

/// The most days after the desk day on which a submission may ask to settle.
const MOST_DAYS: i64 = 60;

/// Refuses a submission, in this order:
///
/// - `DateRange`: the asked day is not 1 to 60 days after the desk day;
/// - `EntryLimit`: an entry has more cents than the company's limit of an entry;
/// - `CreditLimit`, `DebitLimit`: the company's exposure in the direction of the submission, and the
///   total of the submission, are more than its limit in this direction.
///
/// The facts are those of all the company's entries.
pub fn check_submission(
    submission: &Submission,
    day: Day,
    limits: &Limits,
    facts: &[EntryFact],
    calendar: &Calendar,
) -> Result<(), Refusal>
    ensures { result ≡ limits_verdict submission.now day limits.now facts.now calendar.now }
{
    let credit = credit_exposure(facts, day, calendar);
    check_limits(
        submission,
        day,
        limits,
        (credit, debit_exposure(facts, day, calendar)),
    )
}

/// Refuses a submission as `check_submission` does, by the credit exposure and the debit exposure of
/// all the company's entries in place of their facts.
pub fn check_limits(
    submission: &Submission,
    day: Day,
    limits: &Limits,
    exposed: (u128, u128),
) -> Result<(), Refusal>
    ensures { IsVerdictByExposures submission.now day limits.now exposed result }
{
    if !is_date_in_range(submission.day.day(), day) {
        return Err(Refusal::DateRange);
    }
    let entries = submission.entries.as_slice();
    if has_larger(entries, limits.entry) {
        return Err(Refusal::EntryLimit);
    }
    let total = whole_total(entries);
    match submission.direction {
        Direction::Credit => {
            if is_over(exposed.0, total, limits.credit) {
                return Err(Refusal::CreditLimit);
            }
        }
        Direction::Debit => {
            if is_over(exposed.1, total, limits.debit) {
                return Err(Refusal::DebitLimit);
            }
        }
    }
    Ok(())
}

// Are what is exposed and a total together more than a limit?
fn is_over(exposed: u128, total: u128, limit: u64) -> bool
    ensures { result ≡ nat_lt limit (exposed + total) }
{
    let limit = u128::from(limit);
    exposed > limit || total > limit - exposed
}

// Is a day 1 to 60 days after the desk day?
fn is_date_in_range(asked: Day, day: Day) -> bool
    ensures { result ≡ is_date_in_range asked day }
{
    asked > day && asked.number() - day.number() <= MOST_DAYS
}

// Has an entry more cents than a limit?
fn has_larger(entries: &[Entry], limit: u64) -> bool
    ensures { result ≡ list_any (λ e. nat_lt limit e.cents) entries.now }
{
    entries.iter().any(|entry| entry.cents.get() > limit)
}

// The cents of any number of entries.
fn whole_total(entries: &[Entry]) -> u128
    ensures value { result ≡ total_of entries.now }
    ensures within { result ≤ most_cents * length entries.now }
{
    let mut sum = 0;
    for entry in entries {
        sum += u128::from(entry.cents.get());
    }
    sum
}
