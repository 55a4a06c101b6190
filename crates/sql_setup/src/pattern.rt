//! The tables of a desk are made in memory, so that others can be compared with them.
ghost use Rattle.std.specs.Prelude.{◌≡◌, IfOk};
ghost use Rattle.sqlite.specs.Held.{state};
ghost use Rattle.sqlite.specs.Steps.{over_memory};
ghost use Rattle.sql_tables.specs.Schema.{desk_schema};

use crate::create::create_tables;
use sqlite::{Connection, Error, MemStore};
use std::alloc::Global;

/// Gives a connection in memory that has a desk's tables, with no rows.
pub fn empty_tables(alloc: Global) -> Result<Connection<MemStore>, Error>
    ensures { IfOk result (λ c. (state over_memory c).now.schema ≡ desk_schema) }
{
    let mut conn = Connection::open_in_memory(alloc)?;
    let mut tx = conn.transaction();
    create_tables(&mut tx)?;
    tx.commit()?;
    Ok(conn)
}
