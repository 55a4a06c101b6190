//! May a returned debit be tried again? This is Nacha's rule of reinitiation.
ghost use Rattle.std.specs.Prelude.{◌≡◌, ◌<◌, length};
ghost use Rattle.desk_rules.specs.RetryRule.{is_authorized, is_retryable, is_too_late, retry_verdict};

use crate::{Attempt, Refusal, ReturnCode, RuleDay};
use bank_days::{Calendar, Day};

/// The most attempts of an entry: the original and two retries.
const MOST_ATTEMPTS: usize = 3;

/// The most days between the settlement of the original and that of a retry.
const MOST_DAYS: i64 = 180;

/// Checks a retry of a debit (Nacha's reinitiation), and returns the first refusal in this order:
///
/// - `NotReturned`: the original or the newest attempt is not returned;
/// - `NotRetryable`: the newest return is neither for lack of funds (R01, R09), nor a stopped
///   payment (R08) that the receiver authorized again, on or after the day on which that return was
///   taken and not after the desk day;
/// - `RetriesSpent`: there were two retries;
/// - `RetryTooLate`: the asked day, rolled to a banking day, is more than 180 days after the
///   settlement of the original.
///
/// The attempts are the original, first, and its retries that have not lapsed, in order.
pub fn may_retry(
    attempts: &[Attempt],
    asked: RuleDay,
    authorized: Option<Day>,
    day: Day,
    calendar: &Calendar,
) -> Result<(), Refusal>
    requires { 0 < length attempts.now }
    ensures { result ≡ retry_verdict attempts.now asked authorized day calendar.now }
{
    let Attempt::Returned {
        settled: original,
        ..
    } = attempts[0]
    else {
        return Err(Refusal::NotReturned);
    };
    let Attempt::Returned {
        code,
        day: taken,
        ..
    } = attempts[attempts.len() - 1]
    else {
        return Err(Refusal::NotReturned);
    };
    if !is_retryable(code, taken, authorized, day) {
        return Err(Refusal::NotRetryable(code));
    }
    if attempts.len() >= MOST_ATTEMPTS {
        return Err(Refusal::RetriesSpent);
    }
    if is_too_late(original, calendar.roll(asked.day())) {
        return Err(Refusal::RetryTooLate);
    }
    Ok(())
}

/// Does a retry settle too late, more than 180 days after its original settled?
pub fn is_too_late(original: RuleDay, settles: Day) -> bool
    ensures { result ≡ is_too_late original settles }
{
    settles.number() > original.day().number() + MOST_DAYS
}

fn is_retryable(code: ReturnCode, taken: Day, authorized: Option<Day>, day: Day) -> bool
    ensures { result ≡ is_retryable code taken authorized day }
{
    match code.number() {
        1 | 9 => true,
        8 => is_authorized(authorized, taken, day),
        _ => false,
    }
}

// Did the receiver authorize it again after the return was taken, and not after the desk day?
fn is_authorized(authorized: Option<Day>, taken: Day, day: Day) -> bool
    ensures { result ≡ is_authorized authorized taken day }
{
    match authorized {
        Some(authorized) => taken <= authorized && authorized <= day,
        None => false,
    }
}
