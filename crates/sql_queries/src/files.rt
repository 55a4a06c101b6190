//! Files: those that were cut, and those that were taken.
ghost use Rattle.sql_tables.specs.TableReads.{modifiers_in, taken_in};
ghost use Rattle.sql_queries.specs.Asking.{Asks, AreThe, IsTextOf, IsThe};

use crate::rows::{blob_of, column_of, first_of};
use bank_days::Day;
use desk_history::TakenFile;
use sql_tables::{characters, date};
use sqlite::{Alter, Connection, Error};
use std::alloc::Global;

/// Gives the modifiers of the files of a day, from the least.
pub fn modifiers<S: Alter>(
    conn: &mut Connection<S>,
    alloc: Global,
    day: Day,
) -> Result<Vec<u8>, Error>
    ensures { Asks S.Store conn.old conn.new result (AreThe (modifiers_in day)) }
{
    column_of(
        conn,
        alloc,
        "SELECT modifier FROM files WHERE day = ?1 ORDER BY day, modifier",
        &[date(day)],
    )
}

/// Finds the incoming file that was taken under a key.
pub fn taken_file<S: Alter>(
    conn: &mut Connection<S>,
    key: [u8; 21],
) -> Result<Option<TakenFile>, Error>
    ensures { Asks S.Store conn.old conn.new result (IsThe (taken_in key)) }
{
    first_of(
        conn,
        "SELECT file_key, digest, day, returns, changes, late, suspense FROM taken WHERE file_key = ?1 ORDER BY file_key",
        &[characters(&key)],
    )
}

/// Finds the text of the file that was cut on a day with a modifier.
pub fn file_text<S: Alter>(
    conn: &mut Connection<S>,
    alloc: Global,
    day: Day,
    modifier: u8,
) -> Result<Option<Vec<u8>>, Error>
    ensures { Asks S.Store conn.old conn.new result (IsTextOf day modifier) }
{
    let letter = [modifier];
    blob_of(
        conn,
        alloc,
        "SELECT text FROM files WHERE day = ?1 AND modifier = ?2 ORDER BY day, modifier",
        &[date(day), characters(&letter)],
    )
}
