//! The writes of a store of lists are made of these, but for those of cuts and incoming files.
ghost use Rattle.std.specs.Prelude.{◌≡◌, ◌≤◌, map, length, replicate, IfOk, None};
ghost use Rattle.desk_rules.specs.declared.rules.entry_fact.EntryState.TheVariants.{Held};
ghost use Rattle.desk_history.specs.History.{with_limits};
ghost use Rattle.desk_store.specs.Held.{held_row};
ghost use Rattle.memory_store.specs.Finds.{IsPlaceOf};
ghost use Rattle.memory_store.specs.Kept.{row_in};

use crate::list_store::KeptSubmission;
use ach_fields::Id;
use desk_rules::{Company, EntryState, Limits, Retry, SizedSubmission};
use std::alloc::{AllocError, Global};

/// Gives the place of a company, in the byte order of identifications.
pub(crate) fn place_of(companies: &[Company], id: Id) -> usize
    ensures within { result ≤ length companies.now }
    ensures place { IsPlaceOf id companies.now result }
{
    let mut at = 0;
    for company in companies {
        if id.bytes() < company.id.bytes() {
            break;
        }
        at += 1;
    }
    at
}

/// Gives the company, with these limits where it has the identification.
fn with_limits(company: Company, id: Id, limits: Limits) -> Company
    ensures { result ≡ with_limits id limits company }
{
    if company.id.bytes() == id.bytes() {
        Company { limits, ..company }
    } else {
        company
    }
}

fn limit_each(companies: &mut [Company], id: Id, limits: Limits)
    ensures { companies.new ≡ map (with_limits id limits) companies.old }
{
    for company in companies.iter_mut() {
        *company = with_limits(*company, id, limits);
    }
}

/// Sets the limits of the company that has the identification.
pub(crate) fn limit_company(companies: &mut Vec<Company>, id: Id, limits: Limits)
    ensures { companies.new.items ≡ map (with_limits id limits) companies.old.items }
{
    limit_each(companies, id, limits);
}

fn states_held(alloc: Global, count: usize) -> Result<Vec<EntryState>, AllocError>
    ensures { IfOk result (λ states. states.items ≡ replicate count Held) }
{
    Ok(vec![in alloc; EntryState::Held; count]?)
}

/// Makes a company's next submission or retry, with all its entries held.
pub(crate) fn held_row(
    alloc: Global,
    company: Id,
    order: u64,
    content: &SizedSubmission,
    retry: Option<Retry>,
) -> Result<KeptSubmission, AllocError>
    ensures { IfOk result (λ kept. row_in kept ≡ held_row company order content.now retry) }
{
    let entries = content.submission().entries.as_slice();
    let states = states_held(alloc, entries.len())?;
    let content = content.copy(alloc)?;
    Ok(KeptSubmission {
        company,
        order,
        content,
        retry,
        settled: None,
        lapsed: false,
        states,
    })
}
