//! The operator's read of all companies: their exposures, limits and return rates.
ghost use Rattle.desk_admission.specs.OverStores.{AnswersAsked, Gives, GivesList};
ghost use Rattle.desk_book.specs.OnCompanies.{company_risk, companies_answer};
ghost use Rattle.desk_calls.specs.Companies.{risks};

use bank_days::Day;
use desk_admission::{desk_day, refuse};
use desk_history::{Answer, CompanyRisk, DayRates, DeskCompanies, Exposure, ListOf, Outcome};
use desk_rules::Company;
use desk_store::{Store, StoreFault};
use std::alloc::Global;

// Reads a company's exposures and return rates on a day.
fn risk_of<S: Store>(
    store: &mut S,
    alloc: Global,
    day: Day,
    company: &Company,
) -> Result<CompanyRisk, StoreFault>
    ensures { Gives S.Store store.old store.new result (company_risk day company.now) }
{
    let (credit, debit) = store.exposures(alloc, company.id, day)?;
    let rates = store.rates(alloc, company.id, day)?;
    Ok(CompanyRisk {
        exposure: Exposure {
            credit,
            debit,
            day,
            limits: company.limits,
        },
        id: company.id,
        name: company.name,
        rates: DayRates { day, rates },
    })
}

// Reads those of each of these companies.
fn risks_of<S: Store>(
    store: &mut S,
    alloc: Global,
    day: Day,
    companies: &[Company],
) -> Result<Vec<CompanyRisk>, StoreFault>
    ensures { GivesList S.Store store.old store.new result (risks day companies.now) }
{
    let mut found = Vec::with_capacity(alloc, companies.len())?;
    for company in companies {
        let risk = risk_of(store, alloc, day, company)?;
        found.push(risk)?;
    }
    Ok(found)
}

/// Answers with the exposures, limits and return rates of all companies on the desk day.
pub(crate) fn companies<S: Store>(store: &mut S, alloc: Global) -> Result<Answer, StoreFault>
    ensures { AnswersAsked S.Store store.old store.new result companies_answer }
{
    let day = match desk_day(store, alloc)? {
        Ok(day) => day,
        Err(why) => return Ok(refuse(why)),
    };
    let companies = store.companies(alloc)?;
    let risks = risks_of(store, alloc, day, &companies)?;
    Ok(Answer::Done(Outcome::Companies(DeskCompanies {
        companies: ListOf::new(risks),
        day,
    })))
}
