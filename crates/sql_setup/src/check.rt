//! A connection is checked to have a desk's tables.
ghost use Rattle.std.specs.Prelude.{◌≡◌, ◌≢◌, Err, IfErr, IsTrue};
ghost use Rattle.sql_statements.specs.Promises.{SucceedsIn, LeavesNothingNew, SeesStill};
ghost use Rattle.sql_tables.specs.Schema.{desk_schema};
ghost use Rattle.sql_tables.specs.DeskTables.{version};
ghost use Rattle.sql_setup.specs.Checked.{IsDesk, TellsSchema};
ghost use Rattle.sql_setup.specs.Refusals.{IsRefused, TellsNoDesk};

use crate::fault::{DeskFault, OpenFault};
use crate::pattern::empty_tables;
use crate::same::is_same_schema;
use crate::version::{VERSION, check_version};
use sqlite::{Alter, Connection};
use sqlite_schema::schema::Schema;
use std::alloc::Global;

// Checks that the tables and indexes are those of a desk.
fn check_schema(alloc: Global, schema: &Schema) -> Result<(), DeskFault>
    ensures { TellsSchema desk_schema schema.now result }
{
    match empty_tables(alloc) {
        Ok(pattern) => same_schema(pattern.schema(), schema),
        Err(error) => Err(DeskFault::Failed(error)),
    }
}

fn same_schema(pattern: &Schema, schema: &Schema) -> Result<(), DeskFault>
    requires { pattern.now ≡ desk_schema }
    ensures { TellsSchema desk_schema schema.now result }
{
    if is_same_schema(pattern, schema) {
        Ok(())
    } else {
        Err(DeskFault::Told(OpenFault::Unavailable))
    }
}

/// Checks that a connection has a desk's tables: their version, and that all tables and indexes are those
/// that `make_desk` makes. It changes nothing.
///
/// Where there is no table `desk`, or no row in it, it is `OpenFault::NotADesk`. Where its row says
/// another version it is `OpenFault::WrongVersion`, whatever else the schema is. Every other schema, and
/// a connection that is inside a transaction, is `OpenFault::Unavailable`. The error is given of a
/// database that failed, and of memory that ran out.
pub fn check_desk<S: Alter>(alloc: Global, conn: &mut Connection<S>) -> Result<(), DeskFault>
    ensures checked { SucceedsIn S.Store conn.old conn.new result IsDesk }
    ensures absent { TellsNoDesk S.Store conn.old result }
    ensures inside { IsTrue conn.old.in_transaction →
        (result ≡ Err (DeskFault.Told OpenFault.Unavailable)) × (conn.new ≡ conn.old) }
    ensures refused { IfErr result (IsRefused S.Store version conn.old conn.new) }
    ensures otherwise { IfErr result (λ why. why ≢ DeskFault.Told OpenFault.Exists) }
    ensures stays { SeesStill S.Store conn.old conn.new }
    ensures survives { LeavesNothingNew S.Store conn.old conn.new }
{
    if !conn.is_autocommit() {
        return Err(DeskFault::Told(OpenFault::Unavailable));
    }
    if conn.schema().table_named(b"desk").is_none() {
        return Err(DeskFault::Told(OpenFault::NotADesk));
    }
    match check_version(conn, VERSION) {
        Ok(()) => check_schema(alloc, conn.schema()),
        Err(why) => Err(why),
    }
}
