//! Computes a company's exposures and return rates on a day.
ghost use Rattle.std.specs.Prelude.{◌≡◌, ◌++◌, IfOk, OnOk};
ghost use Rattle.desk_rules.specs.ReturnRates.{rates};
ghost use Rattle.desk_book.specs.Standing.{row_facts, facts_in};
ghost use Rattle.desk_book.specs.Sums.{exposures_on};

use crate::Row;
use bank_days::{Calendar, Day};
use desk_rules::{EntryFact, Rates, credit_exposure, debit_exposure, rates};
use std::alloc::{AllocError, Global};

/// Adds a fact for each entry of a row.
pub(crate) fn push_facts(facts: &mut Vec<EntryFact>, row: &Row) -> Result<(), AllocError>
    ensures { OnOk result (facts.new.items ≡ facts.old.items ++ row_facts row.now) }
{
    let content = row.content.submission();
    let debit = content.direction.is_debit();
    let entries = content.entries.as_slice();
    for (entry, state) in entries.iter().zip(row.states.as_slice()) {
        facts.push(EntryFact {
            debit,
            prenote: entry.prenote,
            cents: entry.cents.as_cents(),
            state: *state,
        })?;
    }
    Ok(())
}

// Gives a fact for each entry of the rows.
fn facts_of(alloc: Global, rows: &[Row]) -> Result<Vec<EntryFact>, AllocError>
    ensures { IfOk result (λ facts. facts.items ≡ facts_in rows.now) }
{
    let mut facts = Vec::new(alloc);
    for row in rows {
        push_facts(&mut facts, row)?;
    }
    Ok(facts)
}

/// Gives the credit exposure and the debit exposure of rows on a day.
pub fn exposures_among(
    alloc: Global,
    rows: &[Row],
    today: Day,
    calendar: &Calendar,
) -> Result<(u128, u128), AllocError>
    ensures { IfOk result (λ sums. sums ≡ exposures_on rows.now today calendar.now) }
{
    let facts = facts_of(alloc, rows)?;
    let credit = credit_exposure(&facts, today, calendar);
    Ok((credit, debit_exposure(&facts, today, calendar)))
}

/// Gives the return rates of rows on a day.
pub fn rates_among(alloc: Global, rows: &[Row], today: Day) -> Result<Rates, AllocError>
    ensures { IfOk result (λ found. found ≡ rates (facts_in rows.now) today) }
{
    let facts = facts_of(alloc, rows)?;
    Ok(rates(&facts, today))
}
