//! What exposures read of a submission: its cents, without names, accounts and texts.
ghost use Rattle.std.specs.Prelude.{◌≡◌, [], if◌then◌else◌, map, sum_by, IfOk};
ghost use Rattle.desk_book.specs.OpenSubmissions.{open_cents, open_submission, settle_as, settles_as, standing_cents};

use crate::Row;
use crate::sums::push_facts;
use ach_fields::Ref;
use desk_history::ListOf;
use desk_rules::{Direction, EntryFact, EntryState, RuleDay};
use std::alloc::{AllocError, Global};

/// An `OpenSubmission` is what exposures read of an accepted submission or retry.
#[derive(Drop)]
pub struct OpenSubmission {
    /// Its number among the company's accepted submissions and retries, from 1.
    pub order: u64,
    pub reference: Ref,
    pub direction: Direction,
    /// The day on which it settles, once a cut has sent it.
    pub settled: Option<RuleDay>,
    /// Whether all its entries are held, or all settle on its day, returned or not. This holds for
    /// every submission that a desk writes, except for a retry that has lapsed.
    pub uniform: bool,
    /// The cents of all its entries.
    pub total: u128,
    /// For debits: the cents of each entry, 0 once it is returned. Empty for credits.
    pub cents: ListOf<u64>,
}

// Reports whether an entry is held if there is no day, and settles on the day otherwise.
fn settles_as(settled: Option<RuleDay>, state: EntryState) -> bool
    ensures { result ≡ settles_as settled state }
{
    match (settled, state) {
        (None, EntryState::Held) => true,
        (Some(day), EntryState::Sent { settled }) => settled == day,
        (Some(day), EntryState::Returned { settled, .. }) => settled == day,
        _ => false,
    }
}

// Reports whether all entries are held if there is no day, and settle on the day otherwise.
fn settle_as(settled: Option<RuleDay>, facts: &[EntryFact]) -> bool
    ensures { result ≡ settle_as settled facts.now }
{
    facts.iter().all(|fact| settles_as(settled, fact.state))
}

/// Returns the sum of the cents of entries, also of those that are returned.
pub fn total_of(facts: &[EntryFact]) -> u128
    ensures { result ≡ sum_by (λ f. f.cents) facts.now }
{
    let mut total = 0;
    for fact in facts {
        total += u128::from(fact.cents.get());
    }
    total
}

// Returns the cents that an entry counts: none once it is returned.
fn standing_cents(fact: &EntryFact) -> u64
    ensures { result ≡ standing_cents fact.now }
{
    match fact.state {
        EntryState::Returned { .. } => 0,
        _ => fact.cents.get(),
    }
}

/// Returns the cents of each debit, 0 once it is returned, or an empty list for credits.
pub fn open_cents(
    alloc: Global,
    direction: Direction,
    facts: &[EntryFact],
) -> Result<Vec<u64>, AllocError>
    ensures { IfOk result (λ cents. cents.items ≡ open_cents direction facts.now) }
{
    let mut cents = Vec::new(alloc);
    if !direction.is_debit() {
        return Ok(cents);
    }
    for fact in facts {
        cents.push(standing_cents(fact))?;
    }
    Ok(cents)
}

// Returns what exposures read of a row.
fn open_submission(alloc: Global, row: &Row) -> Result<OpenSubmission, AllocError>
    ensures { IfOk result (λ found. found ≡ open_submission row.now) }
{
    let content = row.content.submission();
    let mut facts = Vec::new(alloc);
    push_facts(&mut facts, row)?;
    let cents = open_cents(alloc, content.direction, &facts)?;
    Ok(OpenSubmission {
        order: row.order,
        reference: content.reference,
        direction: content.direction,
        settled: row.settled,
        uniform: settle_as(row.settled, &facts),
        total: total_of(&facts),
        cents: ListOf::new(cents),
    })
}

/// Returns what exposures read of rows.
pub fn open_submissions(alloc: Global, rows: &[Row]) -> Result<Vec<OpenSubmission>, AllocError>
    ensures { IfOk result (λ found. found.items ≡ map open_submission rows.now) }
{
    let mut found = Vec::new(alloc);
    for row in rows {
        found.push(open_submission(alloc, row)?)?;
    }
    Ok(found)
}
