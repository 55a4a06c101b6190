//! A company's submission.
ghost use Rattle.std.specs.Prelude.{◌≡◌};
ghost use Rattle.desk_history.specs.Request as request;
ghost use Rattle.desk_history.specs.Acceptance.{is_same_submission};
ghost use Rattle.desk_admission.specs.Verdicts.{draft_verdict, fresh_submission, submission_on};
ghost use Rattle.desk_admission.specs.OverStores.{Gives, RepliesAdding};

use ach_fields::Id;
use bank_days::Day;
use desk_admission::{
    Verdict, add, fresh_verdict, known_verdict, limits_and_day, next_order, refused_verdict,
    within_limits,
};
use desk_book::Row;
use desk_history::Answer;
use desk_rules::{Draft, Limits, RuleFault, SizedSubmission, Submission, check_fields};
use desk_store::{Store, StoreFault};
use std::alloc::Global;

/// Is a row of no retry, with the same content?
fn is_plain_row(content: &Submission, row: &Row) -> bool
    ensures { result ≡ is_same_submission content.now row.now.content row.now.retry }
{
    match row.retry {
        None => row.content.submission().is_same(content),
        Some(_) => false,
    }
}

/// Gives the verdict of a submission under a new reference.
fn new_submission<S: Store>(
    store: &mut S,
    alloc: Global,
    company: Id,
    limits: &Limits,
    today: Day,
    content: Submission,
) -> Result<Verdict, StoreFault>
    ensures { Gives S.Store store.old store.new result
        (fresh_submission company limits.now today content) }
{
    let content = match SizedSubmission::new(content) {
        Ok(content) => content,
        Err(why) => return Ok(refused_verdict(why)),
    };
    let judged = within_limits(store, alloc, company, limits, today, content)?;
    let order = next_order(store, alloc, company)?;
    Ok(fresh_verdict(order, None, judged))
}

/// Gives the verdict of a submission whose fields are right.
fn submission_on<S: Store>(
    store: &mut S,
    alloc: Global,
    company: Id,
    limits: &Limits,
    today: Day,
    content: Submission,
) -> Result<Verdict, StoreFault>
    ensures { Gives S.Store store.old store.new result
        (λ b. submission_on b company limits.now today content) }
{
    if let Some(row) = store.submission(alloc, company, content.reference)? {
        return Ok(known_verdict(&row, is_plain_row(&content, &row)));
    }
    new_submission(store, alloc, company, limits, today, content)
}

/// Gives the verdict of a submission's draft.
fn submission_verdict<S: Store>(
    store: &mut S,
    alloc: Global,
    company: Id,
    draft: &Draft,
) -> Result<Verdict, StoreFault>
    ensures { Gives S.Store store.old store.new result (draft_verdict company draft.now) }
{
    let (limits, today) = match limits_and_day(store, alloc, company)? {
        Ok(asked) => asked,
        Err(why) => return Ok(refused_verdict(why)),
    };
    match check_fields(alloc, draft) {
        Ok(content) => submission_on(store, alloc, company, &limits, today, content),
        Err(RuleFault::Refused(why)) => Ok(refused_verdict(why)),
        Err(RuleFault::NoMemory) => Err(StoreFault::Unavailable),
    }
}

/// Adds a company's submission, or refuses it. A submission that was accepted before under its
/// reference gets its first answer, and nothing is added.
pub(crate) fn submit<S: Store>(
    store: &mut S,
    alloc: Global,
    company: Id,
    draft: &Draft,
) -> Result<Answer, StoreFault>
    ensures { RepliesAdding S.Store store.old store.new result company (request.Submit draft.now) }
{
    let verdict = submission_verdict(store, alloc, company, draft)?;
    add(store, alloc, company, verdict)
}
