//! What traces name: entries that were sent, and whether they came back. Entries that come back one after
//! another are often of one submission.
ghost use Rattle.std.specs.Prelude.{◌≡◌, option_map};
ghost use Rattle.sql_tables.specs.Composed.{sent_entry_of, sent_at, sent_in, traced_in, with_return_in};
ghost use Rattle.sql_queries.specs.Asking.{Asks, AreThe};
ghost use Rattle.sql_read_steps.specs.Answers.{LearnsOn};
ghost use Rattle.sql_reads.specs.Known.{AsksNext, LearnsNext};
ghost use Rattle.sql_reads.specs.TracedEntries.{AreTraced, each_traced_in, named_in, sent_of};

use crate::last_submission::{LastSubmission, facts_of};
use ach_fields::Trace;
use desk_book::NamedEntry;
use desk_history::SentEntry;
use desk_store::StoreFault;
use sql_queries::{entry_return, identity, place, sent_entry};
use sql_read_steps::or_unavailable;
use sql_tables::{PlacedEntry, SubmissionFacts};
use sqlite::{Alter, Connection};
use std::alloc::Global;

// An entry with the facts of its submission, once that is sent.
fn sent_entry_from(
    sequence: u32,
    placed: &PlacedEntry,
    facts: &SubmissionFacts,
) -> Option<SentEntry>
    ensures { result ≡ option_map (sent_entry_of sequence placed.now facts.now) facts.now.settled }
{
    let settled = facts.settled?;
    Some(SentEntry {
        sequence,
        company: placed.company,
        reference: facts.reference,
        order: placed.order,
        index: placed.index,
        settled,
        sec: facts.sec,
        debit: facts.direction.is_debit(),
        entry: placed.entry,
    })
}

// An entry with what its submission says of it.
fn sent_with<S: Alter>(
    conn: &mut Connection<S>,
    last: &mut Option<LastSubmission>,
    sequence: u32,
    placed: &PlacedEntry,
) -> Result<Option<SentEntry>, StoreFault>
    ensures { LearnsNext S.Store conn.old conn.new last.old last.new result
        (sent_of sequence placed.now) }
{
    match facts_of(conn, last, placed.company, placed.order)? {
        Some(facts) => Ok(sent_entry_from(sequence, placed, &facts)),
        None => Ok(None),
    }
}

// The entry that was sent at a place.
fn sent_at<S: Alter>(
    conn: &mut Connection<S>,
    last: &mut Option<LastSubmission>,
    sequence: u32,
    place: u64,
) -> Result<Option<SentEntry>, StoreFault>
    ensures { AsksNext S.Store conn.old conn.new last.old last.new result (sent_at sequence place) }
{
    match or_unavailable(sent_entry(conn, place))? {
        Some(placed) => sent_with(conn, last, sequence, &placed),
        None => Ok(None),
    }
}

// The youngest that has a sequence.
fn sent_in<S: Alter>(
    conn: &mut Connection<S>,
    last: &mut Option<LastSubmission>,
    sequence: u32,
) -> Result<Option<SentEntry>, StoreFault>
    ensures { AsksNext S.Store conn.old conn.new last.old last.new result (sent_in sequence) }
{
    match or_unavailable(place(conn, sequence))? {
        Some(place) => sent_at(conn, last, sequence, place),
        None => Ok(None),
    }
}

// An entry, and whether it came back.
fn with_return<S: Alter>(
    conn: &mut Connection<S>,
    entry: SentEntry,
) -> Result<NamedEntry, StoreFault>
    ensures { Asks S.Store conn.old conn.new result (λ found t. found ≡ with_return_in t entry) }
{
    let back = or_unavailable(entry_return(conn, entry.company, entry.order, entry.index))?;
    let returned = back.is_some();
    Ok(NamedEntry { entry, returned })
}

// The youngest that has a sequence, and whether it came back.
fn named_in<S: Alter>(
    conn: &mut Connection<S>,
    last: &mut Option<LastSubmission>,
    sequence: u32,
) -> Result<Option<NamedEntry>, StoreFault>
    ensures { AsksNext S.Store conn.old conn.new last.old last.new result (named_in sequence) }
{
    match sent_in(conn, last, sequence)? {
        Some(entry) => {
            let named = with_return(conn, entry)?;
            Ok(Some(named))
        }
        None => Ok(None),
    }
}

// What a trace names at a bank whose number has these eight digits.
fn traced_entry<S: Alter>(
    conn: &mut Connection<S>,
    last: &mut Option<LastSubmission>,
    dfi: u32,
    trace: &Option<Trace>,
) -> Result<Option<NamedEntry>, StoreFault>
    ensures { LearnsNext S.Store conn.old conn.new last.old last.new result
        (λ t. traced_in dfi t trace.now) }
{
    let Some(trace) = trace else {
        return Ok(None);
    };
    let _digits = trace.text();
    if dfi != trace.dfi() {
        return Ok(None);
    }
    named_in(conn, last, trace.sequence())
}

// What each trace names at this bank.
fn each_traced<S: Alter>(
    conn: &mut Connection<S>,
    alloc: Global,
    dfi: u32,
    traces: &[Option<Trace>],
) -> Result<Vec<Option<NamedEntry>>, StoreFault>
    ensures { LearnsOn S.Store conn.old conn.new result (AreThe (each_traced_in dfi traces.now)) }
{
    let mut last = None;
    let mut all = Vec::new(alloc);
    for trace in traces {
        all.push(traced_entry(conn, &mut last, dfi, trace)?)?;
    }
    Ok(all)
}

/// Finds for each trace the youngest entry that has it, and whether that came back.
pub fn traced_entries<S: Alter>(
    conn: &mut Connection<S>,
    alloc: Global,
    traces: &[Option<Trace>],
) -> Result<Vec<Option<NamedEntry>>, StoreFault>
    ensures { Asks S.Store conn.old conn.new result
        (λ found t. AreTraced traces.now found.items t) }
{
    let identity = or_unavailable(identity(conn))?;
    each_traced(conn, alloc, identity.odfi.dfi(), traces)
}
