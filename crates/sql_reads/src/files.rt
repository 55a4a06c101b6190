//! Files that were cut.
ghost use Rattle.std.specs.Prelude.{◌≡◌, length};
ghost use Rattle.sql_tables.specs.TableReads.{modifiers_in, text_in};
ghost use Rattle.sql_queries.specs.Asking.{Asks, IsThe};

use bank_days::Day;
use desk_history::ListOf;
use desk_store::StoreFault;
use sql_queries::{file_text, modifiers};
use sql_read_steps::or_unavailable;
use sqlite::{Alter, Connection};
use std::alloc::Global;

/// Says how many files a day has.
pub fn files_on<S: Alter>(
    conn: &mut Connection<S>,
    alloc: Global,
    day: Day,
) -> Result<u64, StoreFault>
    ensures { Asks S.Store conn.old conn.new result
        (λ found t. found ≡ length (modifiers_in day t)) }
{
    let modifiers = or_unavailable(modifiers(conn, alloc, day))?;
    Ok(modifiers.len() as u64)
}

/// Finds the text of a file, by its day and modifier.
pub fn file<S: Alter>(
    conn: &mut Connection<S>,
    alloc: Global,
    day: Day,
    modifier: u8,
) -> Result<Option<ListOf<u8>>, StoreFault>
    ensures { Asks S.Store conn.old conn.new result (IsThe (text_in day modifier)) }
{
    match or_unavailable(file_text(conn, alloc, day, modifier))? {
        Some(text) => Ok(Some(ListOf::new(text))),
        None => Ok(None),
    }
}
