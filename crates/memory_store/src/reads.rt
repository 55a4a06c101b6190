//! The lists in memory have companies and their submissions.
ghost use Rattle.std.specs.Prelude.{◌≡◌, ◌≢◌, [], find, IfOk, OnErr};
ghost use Rattle.desk_history.specs.Operator.{has_id};
ghost use Rattle.memory_store.specs.Finds.{is_submission_of, rows_for};
ghost use Rattle.memory_store.specs.Kept.{row_in};

use crate::list_store::KeptSubmission;
use ach_fields::{Id, Ref};
use desk_book::Row;
use desk_history::ListOf;
use desk_rules::Company;
use std::alloc::{AllocError, Global};

/// Gives the company with an identification.
pub(crate) fn company_among(companies: &[Company], id: Id) -> Option<Company>
    ensures { result ≡ find (has_id id) companies.now }
{
    for company in companies {
        if company.id.bytes() == id.bytes() {
            return Some(*company);
        }
    }
    None
}

/// Copies a list. The copy of an empty one takes no memory.
pub(crate) fn copy_of<T: Copy>(alloc: Global, items: &[T]) -> Result<Vec<T>, AllocError>
    ensures copy { IfOk result (λ copy. copy.items ≡ items.now) }
    ensures memory { OnErr result (items.now ≢ []) }
{
    let mut copy = Vec::new(alloc);
    copy.extend_from_slice(items)?;
    Ok(copy)
}

/// Copies a submission with its entries.
pub(crate) fn row_like(alloc: Global, kept: &KeptSubmission) -> Result<Row, AllocError>
    ensures { IfOk result (λ row. row ≡ (row_in kept.now).row) }
{
    let states = copy_of(alloc, &kept.states)?;
    Ok(Row {
        order: kept.order,
        content: kept.content.copy(alloc)?,
        retry: kept.retry,
        settled: kept.settled,
        lapsed: kept.lapsed,
        states: ListOf::new(states),
    })
}

/// Gives a company's submissions with their entries.
pub(crate) fn rows_of(
    alloc: Global,
    kept: &[KeptSubmission],
    company: Id,
) -> Result<Vec<Row>, AllocError>
    ensures { IfOk result (λ rows. rows.items ≡ rows_for kept.now company) }
{
    let mut rows = Vec::new(alloc);
    for one in kept {
        if one.company.bytes() == company.bytes() {
            rows.push(row_like(alloc, one)?)?;
        }
    }
    Ok(rows)
}

/// Is it the company's submission with the reference?
pub(crate) fn is_submission_of(kept: &KeptSubmission, company: Id, reference: Ref) -> bool
    ensures { result ≡ is_submission_of kept.now company reference }
{
    kept.company.bytes() == company.bytes()
        && kept.content.submission().reference.bytes() == reference.bytes()
}
