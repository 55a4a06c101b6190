//! What exposures read of a company's open submissions, by the cents of their entries.
ghost use Rattle.std.specs.Prelude.{◌≡◌, ◌∷◌, [], List, IfOk};
ghost use Rattle.desk_rules.specs.declared.bodies.submission.Direction.TheVariants.{Credit};
ghost use Rattle.desk_book.specs.declared.open_submission.OpenSubmission.{OpenSubmission as Open};
ghost use Rattle.sql_tables.specs.TableReads.{whole_row};
ghost use Rattle.sql_queries.specs.Asking.{Asks, AreThe};
ghost use Rattle.sql_measures.specs.OpenEntries.{IsReadOf, if_open, open_entries_in, open_with};

use crate::facts::facts;
use ach_fields::Id;
use bank_days::Day;
use desk_book::{OpenSubmission, open_cents, total_of};
use desk_history::ListOf;
use desk_rules::{Direction, is_open_credit};
use desk_store::StoreFault;
use sql_queries::{cents_of, open_submissions};
use sql_read_steps::{ItemRead, joined, or_unavailable, read_each};
use sql_tables::{SubmissionHead, entry_state};
use sqlite::{Alter, Connection};
use std::alloc::Global;

// Returns a list of one submission, whose entries are all held, or all settle on its day.
fn one(
    alloc: Global,
    head: &SubmissionHead,
    total: u128,
    cents: Vec<u64>,
) -> Result<Vec<OpenSubmission>, StoreFault>
    ensures { IfOk result (λ found. found.items ≡ open_with head.now total cents.items ∷ []) }
{
    let mut found = Vec::new(alloc);
    found.push(OpenSubmission {
        order: head.order,
        reference: head.reference,
        direction: head.direction,
        settled: head.settled,
        uniform: true,
        total,
        cents: ListOf::new(cents),
    })?;
    Ok(found)
}

// Reads a submission by the facts of its entries. Returns an empty list if it has none.
fn by_facts<S: Alter>(
    conn: &mut Connection<S>,
    alloc: Global,
    head: &SubmissionHead,
) -> Result<Vec<OpenSubmission>, StoreFault>
    ensures { Asks S.Store conn.old conn.new result (IsReadOf head.now) }
{
    let facts = facts(conn, alloc, head)?;
    if facts.is_empty() {
        return Ok(Vec::new(alloc));
    }
    let cents = open_cents(alloc, head.direction, &facts)?;
    let found = one(alloc, head, total_of(&facts), cents)?;
    Ok(found)
}

// Reads a submission of credits by the sum of their cents. If that is 0, it is read by its entries, since
// it may have none.
fn by_sum<S: Alter>(
    conn: &mut Connection<S>,
    alloc: Global,
    head: &SubmissionHead,
) -> Result<Vec<OpenSubmission>, StoreFault>
    requires { head.now.direction ≡ Credit }
    ensures { Asks S.Store conn.old conn.new result (IsReadOf head.now) }
{
    let total = or_unavailable(cents_of(conn, head.company, head.order))?;
    if total == 0 {
        let found = by_facts(conn, alloc, head)?;
        Ok(found)
    } else {
        let found = one(alloc, head, u128::from(total), Vec::new(alloc))?;
        Ok(found)
    }
}

// What exposures read of each submission of a list that is open.
#[derive(Clone, Copy)]
struct OpenEntries {
    since: Day,
}

impl ItemRead for OpenEntries {
    type Item = SubmissionHead;

    type Found = Vec<OpenSubmission>;

    ghost Shown = { List Open };

    ghost shown = { λ found. found.items };

    ghost value = { λ read t head. if_open read.since (whole_row t head) };

    fn read_item<S: Alter>(
        &self,
        conn: &mut Connection<S>,
        alloc: Global,
        head: &SubmissionHead,
    ) -> Result<Vec<OpenSubmission>, StoreFault> {
        if !is_open_credit(entry_state(head, None), self.since) {
            return Ok(Vec::new(alloc));
        }
        match head.direction {
            Direction::Credit => {
                let found = by_sum(conn, alloc, head)?;
                Ok(found)
            }
            Direction::Debit => {
                let found = by_facts(conn, alloc, head)?;
                Ok(found)
            }
        }
    }
}

/// Reads what exposures depend on of a company's open submissions, by order number: of credits the sum of
/// their cents, of debits the cents of each.
pub fn open_entries<S: Alter>(
    conn: &mut Connection<S>,
    alloc: Global,
    company: Id,
    since: Day,
) -> Result<Vec<OpenSubmission>, StoreFault>
    ensures { Asks S.Store conn.old conn.new result (AreThe (open_entries_in company since)) }
{
    let heads = or_unavailable(open_submissions(conn, alloc, company, since))?;
    let lists = read_each(conn, alloc, &OpenEntries { since }, heads)?;
    let all = joined(alloc, lists)?;
    Ok(all)
}
