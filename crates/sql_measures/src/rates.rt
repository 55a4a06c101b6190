//! Return rates, of what lies in their window.
ghost use Rattle.std.specs.Prelude.{◌≡◌, ℕ, List, Contains};
ghost use Rattle.std.specs.Ordering.{nat_cmp};
ghost use Rattle.std.specs.List.Sorted.{IsStrictlySortedBy};
ghost use Rattle.sql_tables.specs.Composed.{rates_in};
ghost use Rattle.sql_tables.specs.TableReads.{is_since};
ghost use Rattle.sql_queries.specs.Asking.{Asks, AreThe, IsThe};
ghost use Rattle.sql_measures.specs.Counted.{AreReturned, earlier_facts, settled_debit_facts};
ghost use Rattle.desk_rules.specs.declared.rules.entry_fact.EntryFact.{EntryFact as Fact};

use crate::facts::facts_of_debits;
use ach_fields::Id;
use bank_days::Day;
use desk_rules::{EntryFact, Rates, rates};
use desk_store::StoreFault;
use sql_queries::{numbered_submission, orders_returned, settled_submissions};
use sql_read_steps::{ItemRead, joined, or_unavailable, read_each};
use sql_tables::{SubmissionHead, number_of};
use sqlite::{Alter, Connection};
use std::alloc::Global;

/// The window of the rates begins so many days before the desk day.
const DAYS_BEFORE: u64 = 59;

// Does the submission settle on the day with this number or later?
fn is_since(head: &SubmissionHead, since: u64) -> bool
    ensures { result ≡ is_since since head.now.settled }
{
    match head.settled {
        Some(settled) => number_of(settled.day()) >= since,
        None => false,
    }
}

// The facts of the debits of the submission with each number of a list in its company, unless it settles
// on a day or later.
#[derive(Clone, Copy)]
struct EarlierFacts {
    company: Id,
    since: u64,
}

impl ItemRead for EarlierFacts {
    type Item = u64;

    type Found = Vec<EntryFact>;

    ghost Shown = { List Fact };

    ghost shown = { λ facts. facts.items };

    ghost value = { λ read t order. earlier_facts read.company read.since t order };

    fn read_item<S: Alter>(
        &self,
        conn: &mut Connection<S>,
        alloc: Global,
        order: &u64,
    ) -> Result<Vec<EntryFact>, StoreFault> {
        let mut heads = or_unavailable(numbered_submission(conn, alloc, self.company, *order))?;
        let since = self.since;
        heads.retain(|head| !is_since(head, since));
        let found = facts_of_debits(conn, alloc, heads)?;
        Ok(found)
    }
}

// The numbers in their order, each once.
fn distinct(mut numbers: Vec<u64>) -> Vec<u64>
    ensures rise { IsStrictlySortedBy nat_cmp result.items }
    ensures all { (n : ℕ) → Contains numbers.items n → Contains result.items n }
{
    numbers.sort_unstable();
    numbers.dedup();
    numbers
}

// The facts of debits that settled earlier, of submissions of which an entry came back on a day or later.
fn returned_facts<S: Alter>(
    conn: &mut Connection<S>,
    alloc: Global,
    company: Id,
    since: u64,
) -> Result<Vec<EntryFact>, StoreFault>
    ensures { Asks S.Store conn.old conn.new result
        (λ all t. AreReturned company since t all.items) }
{
    let orders = or_unavailable(orders_returned(conn, alloc, company, since))?;
    let orders = distinct(orders);
    let lists = read_each(conn, alloc, &EarlierFacts { company, since }, orders)?;
    let all = joined(alloc, lists)?;
    Ok(all)
}

// The facts of debits that settled on a day or later.
fn settled_facts<S: Alter>(
    conn: &mut Connection<S>,
    alloc: Global,
    company: Id,
    since: u64,
) -> Result<Vec<EntryFact>, StoreFault>
    ensures { Asks S.Store conn.old conn.new result (AreThe (settled_debit_facts company since)) }
{
    let heads = or_unavailable(settled_submissions(conn, alloc, company, since))?;
    let all = facts_of_debits(conn, alloc, heads)?;
    Ok(all)
}

/// Reads a company's return rates on a day. Of submissions it reads those of debits that settled in the
/// 60 days that end on the day, or later, and those of which a return was taken in them.
pub fn rates_of<S: Alter>(
    conn: &mut Connection<S>,
    alloc: Global,
    company: Id,
    today: Day,
) -> Result<Rates, StoreFault>
    ensures { Asks S.Store conn.old conn.new result (IsThe (rates_in company today)) }
{
    let since = number_of(today).saturating_sub(DAYS_BEFORE);
    let mut all = settled_facts(conn, alloc, company, since)?;
    let mut returned = returned_facts(conn, alloc, company, since)?;
    all.append(&mut returned)?;
    Ok(rates(&all, today))
}
