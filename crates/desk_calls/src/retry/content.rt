//! A retry gets its content from the entry that it names.
ghost use Rattle.std.specs.Prelude.{◌≡◌};
ghost use Rattle.desk_history.specs.Acceptance.{is_same_retry};
ghost use Rattle.desk_admission.specs.OverStores.{Gives};
ghost use Rattle.desk_admission.specs.Verdicts.{retry_content_on};
ghost use Rattle.desk_calls.specs.Retrying.{retried};

use crate::retry::attempts::{content_of, entry_named, first_of_attempts};
use ach_fields::Id;
use bank_days::Day;
use desk_admission::within_limits;
use desk_book::Row;
use desk_rules::{Entry, Limits, Refusal, Retry, SizedSubmission};
use desk_store::{Store, StoreFault};
use std::alloc::Global;

/// Gives the content of a retry of an entry of a row, or its first refusal.
fn retry_content_of<S: Store>(
    store: &mut S,
    alloc: Global,
    company: Id,
    limits: &Limits,
    today: Day,
    retry: &Retry,
    row: &Row,
    entry: Entry,
) -> Result<Result<SizedSubmission, Refusal>, StoreFault>
    ensures { Gives S.Store store.old store.new result
        (retried company limits.now today retry.now row.now entry) }
{
    let original = row.content.submission();
    let retries = store.retries_of(alloc, company, original.reference, retry.index)?;
    let calendar = store.calendar(alloc)?;
    if let Err(why) = first_of_attempts(alloc, &retries, row, retry, today, &calendar)? {
        return Ok(Err(why));
    }
    let content = content_of(alloc, retry, original, entry)?;
    within_limits(store, alloc, company, limits, today, content)
}

/// Is it this retry?
pub(crate) fn is_same_retry(retry: &Retry, first: Option<Retry>) -> bool
    ensures { result ≡ is_same_retry retry.now first }
{
    match first {
        Some(first) => first.is_same(retry),
        None => false,
    }
}

/// Gives the content of a retry, or its first refusal.
pub(crate) fn retry_content<S: Store>(
    store: &mut S,
    alloc: Global,
    company: Id,
    limits: &Limits,
    today: Day,
    retry: &Retry,
) -> Result<Result<SizedSubmission, Refusal>, StoreFault>
    ensures { Gives S.Store store.old store.new result
        (retry_content_on company limits.now today retry.now) }
{
    let Some(row) = store.submission(alloc, company, retry.of)? else {
        return Ok(Err(Refusal::NoEntry));
    };
    let Some(entry) = entry_named(&row, retry.index) else {
        return Ok(Err(Refusal::NoEntry));
    };
    retry_content_of(store, alloc, company, limits, today, retry, &row, entry)
}
