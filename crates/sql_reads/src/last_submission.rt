//! What a submission says of its entries, which is asked for once where entries of one submission follow one
//! another.
ghost use Rattle.std.specs.Prelude.{◌≡◌, IfSome, true};
ghost use Rattle.sql_tables.specs.TableReads.{facts_in};
ghost use Rattle.sql_tables.specs.Tables.{Tables};
ghost use Rattle.sql_reads.specs.Known.{AreFactsOf, IsKnown, LearnsNext};

use ach_fields::Id;
use desk_store::StoreFault;
use sql_queries::facts;
use sql_read_steps::or_unavailable;
use sql_tables::SubmissionFacts;
use sqlite::{Alter, Connection};

/// A `LastSubmission` is what was found last of a submission.
#[derive(Clone, Copy)]
pub(crate) struct LastSubmission {
    company: Id,
    order: u64,
    facts: SubmissionFacts,
}

// Is the submission the one that has this number in its company?
fn is_the(known: &LastSubmission, company: Id, order: u64) -> bool
    ensures company { result ≡ true → known.now.company ≡ company }
    ensures order { result ≡ true → known.now.order ≡ order }
{
    known.order == order && known.company.bytes() == company.bytes()
}

// What is known of the submission with a number in its company, if it was asked for last.
fn known_of(last: &Option<LastSubmission>, company: Id, order: u64) -> Option<SubmissionFacts>
    ensures { (t : Tables) → IsKnown last.now t → IfSome result (AreFactsOf company order t) }
{
    match last {
        Some(known) if is_the(known, company, order) => Some(known.facts),
        _ => None,
    }
}

/// Reads what the submission with a number in its company says of its entries, which is asked for unless it
/// was asked for last.
pub(crate) fn facts_of<S: Alter>(
    conn: &mut Connection<S>,
    last: &mut Option<LastSubmission>,
    company: Id,
    order: u64,
) -> Result<Option<SubmissionFacts>, StoreFault>
    ensures { LearnsNext S.Store conn.old conn.new last.old last.new result
        (facts_in company order) }
{
    let known = known_of(last, company, order);
    if known.is_some() {
        return Ok(known);
    }
    let found = or_unavailable(facts(conn, company, order))?;
    if let Some(facts) = &found {
        *last = Some(LastSubmission {
            company,
            order,
            facts: *facts,
        });
    }
    Ok(found)
}
