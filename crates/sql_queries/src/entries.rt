//! Entries, and the places of those that were sent.
ghost use Rattle.sql_tables.specs.TableReads.{entries_in, amounts_in, infos_in, cents_in, entry_at_place, entry_places_in, place_in, places_between, IsLastNumber};
ghost use Rattle.sql_queries.specs.Asking.{Asks, AreThe, IsThe};

use crate::rows::{all_of, cell_of, column_of, first_of};
use ach_fields::{Id, ShortText};
use sql_tables::{
    EntryAmount, EntryPlace, NumberRecord, NumberedEntry, PlacedEntry, characters, natural,
};
use sqlite::{Alter, Connection, Error};
use std::alloc::Global;

/// Gives the entries of the submission with a number in its company.
pub fn entries_of<S: Alter>(
    conn: &mut Connection<S>,
    alloc: Global,
    company: Id,
    order: u64,
) -> Result<Vec<NumberedEntry>, Error>
    ensures { Asks S.Store conn.old conn.new result (AreThe (entries_in company order)) }
{
    all_of(
        conn,
        alloc,
        "SELECT idx, routing, account, savings, prenote, cents, ident, name, info FROM entries WHERE company = ?1 AND ord = ?2 ORDER BY company, ord, idx",
        &[characters(company.bytes()), natural(order)?],
    )
}

/// Gives what the entries of the submission with a number in its company count for.
pub fn amounts_of<S: Alter>(
    conn: &mut Connection<S>,
    alloc: Global,
    company: Id,
    order: u64,
) -> Result<Vec<EntryAmount>, Error>
    ensures { Asks S.Store conn.old conn.new result (AreThe (amounts_in company order)) }
{
    all_of(
        conn,
        alloc,
        "SELECT idx, prenote, cents FROM entries WHERE company = ?1 AND ord = ?2 ORDER BY company, ord, idx",
        &[characters(company.bytes()), natural(order)?],
    )
}

/// Gives the addenda of the entries of the submission with a number in its company.
pub fn infos_of<S: Alter>(
    conn: &mut Connection<S>,
    alloc: Global,
    company: Id,
    order: u64,
) -> Result<Vec<Option<ShortText<80>>>, Error>
    ensures { Asks S.Store conn.old conn.new result (AreThe (infos_in company order)) }
{
    column_of(
        conn,
        alloc,
        "SELECT info FROM entries WHERE company = ?1 AND ord = ?2 ORDER BY company, ord, idx",
        &[characters(company.bytes()), natural(order)?],
    )
}

/// Gives the sum of their cents. `Error::InvalidQuery` says that it is past 2^63 - 1.
pub fn cents_of<S: Alter>(conn: &mut Connection<S>, company: Id, order: u64) -> Result<u64, Error>
    ensures { Asks S.Store conn.old conn.new result (IsThe (cents_in company order)) }
{
    match cell_of(
        conn,
        "SELECT coalesce(sum(cents), 0) FROM entries WHERE company = ?1 AND ord = ?2",
        &[characters(company.bytes()), natural(order)?],
    )? {
        Some(cents) => Ok(cents),
        None => Err(Error::InvalidQuery),
    }
}

/// Finds the entry that has a place among all sent entries.
pub fn sent_entry<S: Alter>(
    conn: &mut Connection<S>,
    place: u64,
) -> Result<Option<PlacedEntry>, Error>
    ensures { Asks S.Store conn.old conn.new result (IsThe (entry_at_place place)) }
{
    first_of(
        conn,
        "SELECT company, ord, idx, routing, account, savings, prenote, cents, ident, name, info FROM entries WHERE seq = ?1 ORDER BY company, ord, idx",
        &[natural(place)?],
    )
}

/// Gives of the entries that have the places of a range their submissions and their places, by company,
/// submission and number.
pub fn entry_places<S: Alter>(
    conn: &mut Connection<S>,
    alloc: Global,
    from: u64,
    to: u64,
) -> Result<Vec<EntryPlace>, Error>
    ensures { Asks S.Store conn.old conn.new result (AreThe (entry_places_in from to)) }
{
    all_of(
        conn,
        alloc,
        "SELECT company, ord, seq FROM entries WHERE seq >= ?1 AND seq <= ?2 ORDER BY company, ord, idx",
        &[natural(from)?, natural(to)?],
    )
}

// One sequence is a range of its own, so that the engine keeps one plan for both.
const PLACES: &str =
    "SELECT nth FROM numbers WHERE sequence >= ?1 AND sequence <= ?2 ORDER BY sequence";

/// Finds the place of the youngest sent entry that has a sequence.
pub fn place<S: Alter>(conn: &mut Connection<S>, sequence: u32) -> Result<Option<u64>, Error>
    ensures { Asks S.Store conn.old conn.new result (IsThe (place_in sequence)) }
{
    cell_of(
        conn,
        PLACES,
        &[natural(u64::from(sequence))?, natural(u64::from(sequence))?],
    )
}

/// Gives the places of the youngest sent entries that have the sequences of a range.
pub fn places<S: Alter>(
    conn: &mut Connection<S>,
    alloc: Global,
    from: u32,
    to: u32,
) -> Result<Vec<u64>, Error>
    ensures { Asks S.Store conn.old conn.new result (AreThe (places_between from to)) }
{
    column_of(
        conn,
        alloc,
        PLACES,
        &[natural(u64::from(from))?, natural(u64::from(to))?],
    )
}

/// Finds the sequence of the last place among all sent entries, with that place.
pub fn last_number<S: Alter>(conn: &mut Connection<S>) -> Result<Option<NumberRecord>, Error>
    ensures { Asks S.Store conn.old conn.new result IsLastNumber }
{
    first_of(
        conn,
        "SELECT sequence, nth FROM numbers ORDER BY nth DESC LIMIT 1",
        &[],
    )
}
