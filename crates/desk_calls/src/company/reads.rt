//! A company's reads: its returns, changes, submissions, statement, rates and exposure.
ghost use Rattle.desk_history.specs.Request as request;
ghost use Rattle.desk_admission.specs.Answering.{Answers};
ghost use Rattle.desk_admission.specs.OverStores.{RepliesAsked};

use crate::company::report::report_or_none;
use crate::company::statement::statement;
use ach_fields::{Id, Ref};
use desk_accounts::Account;
use desk_admission::{company_limits, desk_day, refuse};
use desk_history::{Answer, DayRates, Exposure, ListOf, Outcome};
use desk_store::{Store, StoreFault};
use std::alloc::Global;

/// Answers with the returns of a company's entries, in the order in which they were taken.
pub(crate) fn returns_of<S: Store>(
    store: &mut S,
    alloc: Global,
    company: Id,
) -> Result<Answer, StoreFault>
    ensures { RepliesAsked S.Store store.old store.new result company request.Returns }
{
    if let Err(why) = company_limits(store, alloc, company)? {
        return Ok(refuse(why));
    }
    let returns = store.returns_of(alloc, company)?;
    Ok(Answer::Done(Outcome::Returns(ListOf::new(returns))))
}

/// Answers with the notifications of change for a company's entries, in the order in which they were taken.
pub(crate) fn changes_of<S: Store>(
    store: &mut S,
    alloc: Global,
    company: Id,
) -> Result<Answer, StoreFault>
    ensures { RepliesAsked S.Store store.old store.new result company request.Changes }
{
    if let Err(why) = company_limits(store, alloc, company)? {
        return Ok(refuse(why));
    }
    let changes = store.changes_of(alloc, company)?;
    Ok(Answer::Done(Outcome::Changes(ListOf::new(changes))))
}

/// Answers with a company's submission or retry, by its reference.
pub(crate) fn look_up<S: Store>(
    store: &mut S,
    alloc: Global,
    company: Id,
    reference: Ref,
) -> Result<Answer, StoreFault>
    ensures { RepliesAsked S.Store store.old store.new result company (request.LookUp reference) }
{
    if let Err(why) = company_limits(store, alloc, company)? {
        return Ok(refuse(why));
    }
    let row = store.submission(alloc, company, reference)?;
    Ok(Answer::Done(Outcome::Found(report_or_none(alloc, &row)?)))
}

/// Answers with a company's statement on the desk day.
pub(crate) fn statement_of<S: Store>(
    store: &mut S,
    alloc: Global,
    company: Id,
) -> Result<Answer, StoreFault>
    ensures { RepliesAsked S.Store store.old store.new result company request.Statement }
{
    desk_accounts::balances_by_day();
    if let Err(why) = company_limits(store, alloc, company)? {
        return Ok(refuse(why));
    }
    let day = match desk_day(store, alloc)? {
        Ok(day) => day,
        Err(why) => return Ok(refuse(why)),
    };
    let sums = store.balances_of(alloc, Account::Company(company))?;
    let postings = store.postings_of(alloc, Account::Company(company))?;
    let statement = statement(alloc, day, &sums, postings)?;
    Ok(Answer::Done(Outcome::Statement(statement)))
}

/// Answers with a company's return rates on the desk day.
pub(crate) fn rates_of<S: Store>(
    store: &mut S,
    alloc: Global,
    company: Id,
) -> Result<Answer, StoreFault>
    ensures { RepliesAsked S.Store store.old store.new result company request.Rates }
{
    if let Err(why) = company_limits(store, alloc, company)? {
        return Ok(refuse(why));
    }
    let day = match desk_day(store, alloc)? {
        Ok(day) => day,
        Err(why) => return Ok(refuse(why)),
    };
    let rates = store.rates(alloc, company, day)?;
    Ok(Answer::Done(Outcome::Rates(DayRates { day, rates })))
}

/// Answers with a company's exposures on the desk day, and its limits.
pub(crate) fn exposure_of<S: Store>(
    store: &mut S,
    alloc: Global,
    company: Id,
) -> Result<Answer, StoreFault>
    ensures { RepliesAsked S.Store store.old store.new result company request.Exposure }
{
    let limits = match company_limits(store, alloc, company)? {
        Ok(limits) => limits,
        Err(why) => return Ok(refuse(why)),
    };
    let day = match desk_day(store, alloc)? {
        Ok(day) => day,
        Err(why) => return Ok(refuse(why)),
    };
    let (credit, debit) = store.exposures(alloc, company, day)?;
    Ok(Answer::Done(Outcome::Exposure(Exposure {
        credit,
        debit,
        day,
        limits,
    })))
}
