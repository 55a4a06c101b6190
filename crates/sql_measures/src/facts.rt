//! What the rules read of the entries of submissions, without their names and texts.
ghost use Rattle.std.specs.Prelude.{List};
ghost use Rattle.sql_tables.specs.TableReads.{whole_row};
ghost use Rattle.sql_queries.specs.Asking.{Asks, AreThe};
ghost use Rattle.sql_read_steps.specs.Answers.{LearnsOn};
ghost use Rattle.sql_measures.specs.Counted.{debit_facts, head_debit_facts, head_facts, heads_debit_facts};
ghost use Rattle.desk_rules.specs.declared.rules.entry_fact.EntryFact.{EntryFact as Fact};

use desk_rules::{Direction, EntryFact};
use desk_store::StoreFault;
use sql_queries::{amounts_of, returns};
use sql_read_steps::{ItemRead, joined, or_unavailable, read_each};
use sql_tables::{SubmissionHead, facts_from};
use sqlite::{Alter, Connection};
use std::alloc::Global;

/// Reads the facts of the entries of a submission of which the head is known.
pub(crate) fn facts<S: Alter>(
    conn: &mut Connection<S>,
    alloc: Global,
    head: &SubmissionHead,
) -> Result<Vec<EntryFact>, StoreFault>
    ensures { Asks S.Store conn.old conn.new result (AreThe (head_facts head.now)) }
{
    let amounts = or_unavailable(amounts_of(conn, alloc, head.company, head.order))?;
    let returns = or_unavailable(returns(conn, alloc, head.company, head.order))?;
    let found = facts_from(alloc, head, &amounts, &returns)?;
    Ok(found)
}

// Those of a submission of debits. Of one of credits nothing is asked.
fn debit_facts<S: Alter>(
    conn: &mut Connection<S>,
    alloc: Global,
    head: &SubmissionHead,
) -> Result<Vec<EntryFact>, StoreFault>
    ensures { LearnsOn S.Store conn.old conn.new result (AreThe (head_debit_facts head.now)) }
{
    match head.direction {
        Direction::Credit => Ok(Vec::new(alloc)),
        Direction::Debit => {
            let found = facts(conn, alloc, head)?;
            Ok(found)
        }
    }
}

// The facts of each submission of debits of a list.
#[derive(Clone, Copy)]
struct DebitFacts;

impl ItemRead for DebitFacts {
    type Item = SubmissionHead;

    type Found = Vec<EntryFact>;

    ghost Shown = { List Fact };

    ghost shown = { λ facts. facts.items };

    ghost value = { λ _ t head. debit_facts (whole_row t head) };

    fn read_item<S: Alter>(
        &self,
        conn: &mut Connection<S>,
        alloc: Global,
        head: &SubmissionHead,
    ) -> Result<Vec<EntryFact>, StoreFault> {
        debit_facts(conn, alloc, head)
    }
}

/// Reads the facts of the entries of submissions of debits, of which the heads are known.
pub(crate) fn facts_of_debits<S: Alter>(
    conn: &mut Connection<S>,
    alloc: Global,
    heads: Vec<SubmissionHead>,
) -> Result<Vec<EntryFact>, StoreFault>
    ensures { LearnsOn S.Store conn.old conn.new result (AreThe (heads_debit_facts heads.items)) }
{
    let lists = read_each(conn, alloc, &DebitFacts, heads)?;
    let all = joined(alloc, lists)?;
    Ok(all)
}
