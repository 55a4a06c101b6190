//! A submission and a retry share what is asked first, the verdict, and its write.
ghost use Rattle.std.specs.Prelude.{◌≡◌, ◌+◌, length};
ghost use Rattle.desk_admission.specs.Verdicts.{limits_and_day, refused_verdict, known_verdict, fresh_verdict};
ghost use Rattle.desk_admission.specs.OverStores.{AnswersVerdict, Gives};

use crate::guards::{company_limits, desk_day};
use crate::receipt::receipt;
use crate::refusal::refuse;
use crate::verdict::{NewRow, Verdict};
use ach_fields::Id;
use bank_days::Day;
use desk_book::Row;
use desk_history::{Answer, Outcome};
use desk_rules::{Limits, Refusal, Retry, SizedSubmission};
use desk_store::{Store, StoreFault};
use std::alloc::Global;

/// Gives the limits of a registered company, and the desk day.
pub fn limits_and_day<S: Store>(
    store: &mut S,
    alloc: Global,
    company: Id,
) -> Result<Result<(Limits, Day), Refusal>, StoreFault>
    ensures { Gives S.Store store.old store.new result (λ b. limits_and_day b company) }
{
    let limits = match company_limits(store, alloc, company)? {
        Ok(limits) => limits,
        Err(why) => return Ok(Err(why)),
    };
    match desk_day(store, alloc)? {
        Ok(today) => Ok(Ok((limits, today))),
        Err(why) => Ok(Err(why)),
    }
}

/// Gives the order number that a company's next submission or retry gets.
pub fn next_order<S: Store>(store: &mut S, alloc: Global, company: Id) -> Result<u64, StoreFault>
    ensures { Gives S.Store store.old store.new result (λ b. length (b.rows company) + 1) }
{
    let count = store.submission_count(alloc, company)?;
    match count.checked_add(1) {
        Some(order) => Ok(order),
        None => Err(StoreFault::Unavailable),
    }
}

/// Gives the verdict of a refusal.
pub fn refused_verdict(why: Refusal) -> Verdict
    ensures { result ≡ refused_verdict why }
{
    Verdict {
        answer: refuse(why),
        added: None,
    }
}

/// Gives the verdict where a row has the reference: what is the same is answered as it was the
/// first time.
pub fn known_verdict(row: &Row, same: bool) -> Verdict
    ensures { result ≡ known_verdict same row.now }
{
    if !same {
        return refused_verdict(Refusal::RefReused);
    }
    Verdict {
        answer: Answer::Done(Outcome::Submitted(receipt(&row.content, row.order))),
        added: None,
    }
}

/// Gives the verdict where no row has the reference.
pub fn fresh_verdict(
    order: u64,
    retry: Option<Retry>,
    content: Result<SizedSubmission, Refusal>,
) -> Verdict
    ensures { result ≡ fresh_verdict order retry content }
{
    match content {
        Err(why) => refused_verdict(why),
        Ok(content) => Verdict {
            answer: Answer::Done(Outcome::Submitted(receipt(&content, order))),
            added: Some(NewRow {
                order,
                content,
                retry,
            }),
        },
    }
}

/// Adds what a verdict adds, and answers.
pub fn add<S: Store>(
    store: &mut S,
    alloc: Global,
    company: Id,
    verdict: Verdict,
) -> Result<Answer, StoreFault>
    ensures { AnswersVerdict S.Store store.old store.new result company verdict }
{
    if let Some(new) = &verdict.added {
        store.add_submission(alloc, company, new.order, &new.content, new.retry)?;
    }
    Ok(verdict.answer)
}
