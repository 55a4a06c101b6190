//! The submissions in memory that wait for a cut are found without going through all rows.
ghost use Rattle.std.specs.Prelude.{◌≡◌, option_and_then, IfOk, OnOk};
ghost use Rattle.memory_store.specs.Covers.{HasReferences};
ghost use Rattle.memory_store.specs.Finds.{found_row};
ghost use Rattle.memory_store.specs.Waits.{AddsHeld, AddsHeldAt, FindsWaiting, IsHeldOf, original_among, waiting_in, waiting_in_all};

use crate::entries::{RowFilter, passes_of, submission_among};
use crate::list_store::KeptSubmission;
use crate::place_index::PlaceIndex;
use crate::reads::row_like;
use crate::row_key::RowKey;
use ach_fields::Id;
use desk_book::HeldSubmission;
use desk_rules::{Company, Retry, RuleDay};
use std::alloc::{AllocError, Global};

/// Gives the day on which a row that was found settled.
fn settlement_of(found: Option<&KeptSubmission>) -> Option<RuleDay>
    ensures { result ≡ option_and_then (λ row. row.settled) (found_row found.entry) }
{
    match found {
        Some(one) => one.settled,
        None => None,
    }
}

/// Gives the day on which the original of a retry settled, by an index of the references.
fn original_settlement(
    kept: &[KeptSubmission],
    references: &PlaceIndex,
    company: Id,
    retry: Option<Retry>,
) -> Option<RuleDay>
    ensures { HasReferences kept.now references.now →
        result ≡ original_among kept.now company retry }
{
    match retry {
        None => None,
        Some(retry) => {
            let places = references.of(RowKey::under(company, retry.of));
            settlement_of(submission_among(kept, places, company, retry.of))
        }
    }
}

/// Gives a submission with its company.
fn waiting_like(
    alloc: Global,
    kept: &[KeptSubmission],
    references: &PlaceIndex,
    one: &KeptSubmission,
    company: Company,
) -> Result<HeldSubmission, AllocError>
    ensures { IfOk result (IsHeldOf kept.now references.now company one.now) }
{
    let row = row_like(alloc, one)?;
    let original_settled = original_settlement(kept, references, company.id, one.retry);
    Ok(HeldSubmission {
        company,
        row,
        original_settled,
    })
}

/// Appends the submission at a place, if it is the company's and undecided.
fn push_waiting_at(
    alloc: Global,
    found: &mut Vec<HeldSubmission>,
    kept: &[KeptSubmission],
    references: &PlaceIndex,
    place: usize,
    company: &Company,
) -> Result<(), AllocError>
    ensures { OnOk result
        (AddsHeldAt kept.now references.now place company.now found.old found.new) }
{
    if place < kept.len() {
        let one = &kept[place];
        if passes_of(one, company.id, &RowFilter::Held) {
            found.push(waiting_like(alloc, kept, references, one, *company)?)?;
        }
    }
    Ok(())
}

/// Appends a company's held submissions among those at these places.
fn push_waiting(
    alloc: Global,
    found: &mut Vec<HeldSubmission>,
    kept: &[KeptSubmission],
    references: &PlaceIndex,
    places: &[usize],
    company: &Company,
) -> Result<(), AllocError>
    ensures { OnOk result
        (AddsHeld kept.now references.now places.now company.now found.old found.new) }
{
    for place in places {
        push_waiting_at(alloc, found, kept, references, *place, company)?;
    }
    Ok(())
}

/// Gives the held submissions of a company, which one index finds, and another their originals.
pub(crate) fn company_waiting(
    alloc: Global,
    company: &Company,
    kept: &[KeptSubmission],
    index: &PlaceIndex,
    references: &PlaceIndex,
) -> Result<Vec<HeldSubmission>, AllocError>
    ensures { IfOk result
        (FindsWaiting kept.now index.now references.now (waiting_in kept.now company.now)) }
{
    let mut found = Vec::new(alloc);
    let places = index.of(RowKey::whole(company.id));
    push_waiting(alloc, &mut found, kept, references, places, company)?;
    Ok(found)
}

/// Gives the held submissions of all companies, which one index finds, and another their originals.
pub(crate) fn all_waiting(
    alloc: Global,
    companies: &[Company],
    kept: &[KeptSubmission],
    index: &PlaceIndex,
    references: &PlaceIndex,
) -> Result<Vec<HeldSubmission>, AllocError>
    ensures { IfOk result
        (FindsWaiting kept.now index.now references.now (waiting_in_all kept.now companies.now)) }
{
    let mut found = Vec::new(alloc);
    for company in companies {
        let places = index.of(RowKey::whole(company.id));
        push_waiting(alloc, &mut found, kept, references, places, company)?;
    }
    Ok(found)
}
