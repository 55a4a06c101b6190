//! When sent entries settled. Entries that stand at places one after another are found by one query, with one
//! more for each submission.
ghost use Rattle.std.specs.Prelude.{◌≡◌, ◌+◌, ℕ, Option, Some, IfSome, filter_map, length, map, max, true};
ghost use Rattle.std.specs.List.{range_with_len, reduce};
ghost use Rattle.sql_tables.specs.Composed.{settled_at, latest_in};
ghost use Rattle.sql_queries.specs.Asking.{Asks, AreThe, IsThe};
ghost use Rattle.sql_read_steps.specs.Answers.{LearnsOn};
ghost use Rattle.sql_reads.specs.Known.{LearnsNext};
ghost use Rattle.sql_reads.specs.SettledPlaces.{SettleAs, settled_in, settlements_at, settlements_of};

use crate::last_submission::{LastSubmission, facts_of};
use ach_fields::Id;
use bank_days::Day;
use desk_rules::RuleDay;
use desk_store::StoreFault;
use sql_queries::{entry_places, places, sent_entry};
use sql_read_steps::{ItemRead, or_unavailable, read_each};
use sql_tables::EntryPlace;
use sqlite::{Alter, Connection};
use std::alloc::Global;

// The day on which the submission with a number in its company settles.
fn settlement_of<S: Alter>(
    conn: &mut Connection<S>,
    company: Id,
    order: u64,
) -> Result<Option<Day>, StoreFault>
    ensures { LearnsOn S.Store conn.old conn.new result (IsThe (settled_in company order)) }
{
    let mut last = None;
    let day = settled_with(conn, &mut last, company, order)?;
    Ok(day)
}

fn day_of(settled: Option<RuleDay>) -> Option<Day>
    ensures { result ≡ settled }
{
    Some(settled?.day())
}

// The day on which the entry at each place of a list settles.
#[derive(Clone, Copy)]
struct Settlements;

impl ItemRead for Settlements {
    type Item = u64;

    type Found = Option<Day>;

    ghost Shown = { Option ℕ };

    ghost shown = { λ day. day };

    ghost value = { λ _ t place. settled_at place t };

    fn read_item<S: Alter>(
        &self,
        conn: &mut Connection<S>,
        _alloc: Global,
        place: &u64,
    ) -> Result<Option<Day>, StoreFault> {
        match or_unavailable(sent_entry(conn, *place))? {
            Some(placed) => settlement_of(conn, placed.company, placed.order),
            None => Ok(None),
        }
    }
}

// The place behind the last of these, where they follow one another from the first one on.
fn place_behind(first: u64, places: &[u64]) -> Option<u64>
    ensures behind { IfSome result (λ behind. behind ≡ first + length places.now) }
    ensures follow { IfSome result
        (λ behind. places.now ≡ range_with_len first (length places.now)) }
{
    let mut next = first;
    for place in places {
        if *place != next {
            return None;
        }
        next = next.checked_add(1)?;
    }
    Some(next)
}

// Do entries have the places that stand beside them?
fn have_places(sent: &[EntryPlace], places: &[u64]) -> bool
    ensures { result ≡ true → map (λ e. e.place) sent.now ≡ map (λ p. Some p) places.now }
{
    if sent.len() != places.len() {
        return false;
    }
    for at in 0..places.len() {
        if sent[at].place != Some(places[at]) {
            return false;
        }
    }
    true
}

// The entries at these places, where the places follow one another and each has one.
fn sent_together<S: Alter>(
    conn: &mut Connection<S>,
    alloc: Global,
    places: &[u64],
) -> Result<Option<Vec<EntryPlace>>, StoreFault>
    ensures { LearnsOn S.Store conn.old conn.new result (SettleAs places.now) }
{
    let Some(first) = places.first() else {
        return Ok(None);
    };
    let Some(behind) = place_behind(*first, places) else {
        return Ok(None);
    };
    let sent = or_unavailable(entry_places(conn, alloc, *first, behind.saturating_sub(1)))?;
    if have_places(&sent, places) {
        Ok(Some(sent))
    } else {
        Ok(None)
    }
}

// That day, which is asked for unless the submission was asked for last.
fn settled_with<S: Alter>(
    conn: &mut Connection<S>,
    last: &mut Option<LastSubmission>,
    company: Id,
    order: u64,
) -> Result<Option<Day>, StoreFault>
    ensures { LearnsNext S.Store conn.old conn.new last.old last.new result
        (settled_in company order) }
{
    match facts_of(conn, last, company, order)? {
        Some(facts) => Ok(day_of(facts.settled)),
        None => Ok(None),
    }
}

// The day on which the submission of each of these entries settles.
fn each_settled<S: Alter>(
    conn: &mut Connection<S>,
    alloc: Global,
    sent: &[EntryPlace],
) -> Result<Vec<Option<Day>>, StoreFault>
    ensures { LearnsOn S.Store conn.old conn.new result (AreThe (settlements_of sent.now)) }
{
    let mut last = None;
    let mut all = Vec::new(alloc);
    for entry in sent {
        all.push(settled_with(conn, &mut last, entry.company, entry.order)?)?;
    }
    Ok(all)
}

// The day on which the entry at each of these places settles.
fn days_at<S: Alter>(
    conn: &mut Connection<S>,
    alloc: Global,
    places: Vec<u64>,
) -> Result<Vec<Option<Day>>, StoreFault>
    ensures { LearnsOn S.Store conn.old conn.new result (AreThe (settlements_at places.items)) }
{
    match sent_together(conn, alloc, &places)? {
        Some(sent) => {
            let days = each_settled(conn, alloc, &sent)?;
            Ok(days)
        }
        None => {
            let days = read_each(conn, alloc, &Settlements, places)?;
            Ok(days)
        }
    }
}

// The latest of the days that there are.
fn latest_of(days: &[Option<Day>]) -> Option<Day>
    ensures { result ≡ reduce max (filter_map (λ day. day) days.now) }
{
    let mut latest = None;
    for day in days {
        latest = latest.max(*day);
    }
    latest
}

/// Reads the latest day on which a youngest entry settled that has a sequence from the first to the
/// last.
pub fn latest_settled<S: Alter>(
    conn: &mut Connection<S>,
    alloc: Global,
    from: u32,
    to: u32,
) -> Result<Option<Day>, StoreFault>
    ensures { Asks S.Store conn.old conn.new result (IsThe (latest_in from to)) }
{
    let places = or_unavailable(places(conn, alloc, from, to))?;
    let days = days_at(conn, alloc, places)?;
    Ok(latest_of(&days))
}
