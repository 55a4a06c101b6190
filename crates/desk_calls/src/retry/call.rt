//! A company asks for a retry.
ghost use Rattle.desk_history.specs.Request as request;
ghost use Rattle.desk_admission.specs.Verdicts.{fresh_retry, retry_draft_verdict, retry_on};
ghost use Rattle.desk_admission.specs.OverStores.{Gives, RepliesAdding};

use crate::retry::content::{is_same_retry, retry_content};
use ach_fields::Id;
use bank_days::Day;
use desk_admission::{
    Verdict, add, fresh_verdict, known_verdict, limits_and_day, next_order, refused_verdict,
};
use desk_history::Answer;
use desk_rules::{Limits, Retry, RetryDraft, check_retry_fields};
use desk_store::{Store, StoreFault};
use std::alloc::Global;

/// Gives the verdict of a retry under a new reference.
fn new_retry<S: Store>(
    store: &mut S,
    alloc: Global,
    company: Id,
    limits: &Limits,
    today: Day,
    retry: &Retry,
) -> Result<Verdict, StoreFault>
    ensures { Gives S.Store store.old store.new result
        (fresh_retry company limits.now today retry.now) }
{
    let content = retry_content(store, alloc, company, limits, today, retry)?;
    let order = next_order(store, alloc, company)?;
    Ok(fresh_verdict(order, Some(*retry), content))
}

/// Gives the verdict of a retry whose fields are right.
fn retry_on<S: Store>(
    store: &mut S,
    alloc: Global,
    company: Id,
    limits: &Limits,
    today: Day,
    retry: &Retry,
) -> Result<Verdict, StoreFault>
    ensures { Gives S.Store store.old store.new result
        (λ b. retry_on b company limits.now today retry.now) }
{
    if let Some(row) = store.submission(alloc, company, retry.reference)? {
        return Ok(known_verdict(&row, is_same_retry(retry, row.retry)));
    }
    new_retry(store, alloc, company, limits, today, retry)
}

/// Gives the verdict of a retry's draft.
fn retry_verdict<S: Store>(
    store: &mut S,
    alloc: Global,
    company: Id,
    draft: &RetryDraft,
) -> Result<Verdict, StoreFault>
    ensures { Gives S.Store store.old store.new result (retry_draft_verdict company draft.now) }
{
    let (limits, today) = match limits_and_day(store, alloc, company)? {
        Ok(asked) => asked,
        Err(why) => return Ok(refused_verdict(why)),
    };
    match check_retry_fields(draft) {
        Ok(retry) => retry_on(store, alloc, company, &limits, today, &retry),
        Err(why) => Ok(refused_verdict(why)),
    }
}

/// Adds a company's retry of a returned debit, or refuses it.
pub(crate) fn retry<S: Store>(
    store: &mut S,
    alloc: Global,
    company: Id,
    draft: &RetryDraft,
) -> Result<Answer, StoreFault>
    ensures { RepliesAdding S.Store store.old store.new result company (request.Retry draft.now) }
{
    let verdict = retry_verdict(store, alloc, company, draft)?;
    add(store, alloc, company, verdict)
}
