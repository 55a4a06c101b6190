//! A connection is checked to have a desk's tables of version 1.
ghost use Rattle.std.specs.Prelude.{◌≡◌, ◌≢◌, false, pos, Err, IfErr, OnOk};
ghost use Rattle.sqlite.specs.Held.{state};
ghost use Rattle.sql_statements.specs.Promises.{SucceedsIn, LeavesNothingNew, SeesStill};
ghost use Rattle.sql_tables.specs.Schema.{desk_schema};
ghost use Rattle.sql_setup.specs.Checked.{TellsSchema};
ghost use Rattle.sql_setup.specs.Refusals.{IsRefused};
ghost use Rattle.sql_setup.specs.Setup.{HasDesk};
ghost use Rattle.sql_setup.specs.Versions.{ShowsVersion};
ghost use Rattle.sql_migration.specs.FirstVersion.{first_version, first_schema};

use crate::first::is_first_schema;
use sql_setup::{DeskFault, OpenFault, check_version, empty_tables};
use sqlite::{Alter, Connection};
use sqlite_schema::schema::Schema;
use std::alloc::Global;

// The version that is migrated.
const FIRST_VERSION: i64 = 1;

// Checks that the tables and indexes are those of version 1.
fn check_schema(alloc: Global, schema: &Schema) -> Result<(), DeskFault>
    ensures { TellsSchema first_schema schema.now result }
{
    match empty_tables(alloc) {
        Ok(pattern) => same_schema(pattern.schema(), schema),
        Err(error) => Err(DeskFault::Failed(error)),
    }
}

// The same by a schema of version 2.
fn same_schema(pattern: &Schema, schema: &Schema) -> Result<(), DeskFault>
    requires { pattern.now ≡ desk_schema }
    ensures { TellsSchema first_schema schema.now result }
{
    if is_first_schema(pattern, schema) {
        Ok(())
    } else {
        Err(DeskFault::Told(OpenFault::Unavailable))
    }
}

/// Checks that a connection, which is outside of a transaction, has a desk's tables of version 1. It
/// changes nothing.
pub(crate) fn check_first<S: Alter>(
    alloc: Global,
    conn: &mut Connection<S>,
) -> Result<(), DeskFault>
    requires { conn.old.in_transaction ≡ false }
    ensures checked { OnOk result ((state S.Store conn.new).now.schema ≡ first_schema) }
    ensures version { SucceedsIn S.Store conn.old conn.new result
        (λ before after. ShowsVersion before after (pos first_version)) }
    ensures absent { ¬ HasDesk (state S.Store conn.old).now.schema
        → result ≡ Err (DeskFault.Told OpenFault.NotADesk) }
    ensures refused { IfErr result (IsRefused S.Store first_version conn.old conn.new) }
    ensures otherwise { IfErr result (λ why. why ≢ DeskFault.Told OpenFault.Exists) }
    ensures stays { SeesStill S.Store conn.old conn.new }
    ensures survives { LeavesNothingNew S.Store conn.old conn.new }
    ensures ended { conn.new.in_transaction ≡ false }
{
    if conn.schema().table_named(b"desk").is_none() {
        return Err(DeskFault::Told(OpenFault::NotADesk));
    }
    match check_version(conn, FIRST_VERSION) {
        Ok(()) => check_schema(alloc, conn.schema()),
        Err(why) => Err(why),
    }
}
