//! A connection that was opened becomes one to a desk: its tables are checked, made or migrated.
//!
//! Each call takes the connection and returns it, whether it is refused or not. Which files it is to is
//! left out here, so that the prover does not compare calls with so long a type.
ghost use Rattle.std.specs.Prelude.{◌≢◌, IfOk, IfErr};
ghost use Rattle.sqlite.specs.Held.{state};
ghost use Rattle.sql_tables.specs.DeskTables.{version};
ghost use Rattle.sql_setup.specs.Checked.{IsDesk};
ghost use Rattle.sql_setup.specs.Refusals.{IsGivenBack, IsLeftUnmade};
ghost use Rattle.sql_setup.specs.Setup.{HasNewDesk};
ghost use Rattle.sql_migration.specs.FirstVersion.{first_version};
ghost use Rattle.sql_migration.specs.Migration.{HasMigrated};
ghost use Rattle.sql_files.specs.Connections.{IfClean, WasClean, WasFirst};
ghost use Rattle.sql_files.specs.Opened.{leaves_migrated, leaves_new};

use desk_history::Identity;
use sql_migration::migrate;
use sql_setup::{DeskFault, OpenFault, check_desk, make_desk};
use sqlite::{Alter, Connection};
use std::alloc::Global;

/// Checks that a connection sees a desk's tables, as `check_desk` does.
///
/// # Errors
///
/// That of `check_desk`, with the connection, which is unchanged.
pub fn with_desk<P: Alter>(
    alloc: Global,
    conn: Connection<P>,
) -> Result<Connection<P>, (DeskFault, Connection<P>)>
    ensures before { IfOk result (IfClean P.Store WasClean conn) }
    ensures desk { IfOk result (IfClean P.Store IsDesk conn) }
    ensures refused { IfErr result
        (λ why. IsGivenBack P.Store version (λ _. ⊥) conn why.1 why.0) }
    ensures otherwise { IfErr result (λ why. why.0 ≢ DeskFault.Told OpenFault.Exists) }
{
    let mut conn = conn;
    match check_desk(alloc, &mut conn) {
        Ok(()) => Ok(conn),
        Err(why) => Err((why, conn)),
    }
}

/// Makes the tables of a new desk on a connection, with the SHA-256 digest of the operator's key, as
/// `make_desk` does.
///
/// # Errors
///
/// That of `make_desk`, with the connection, on which no desk was made.
pub fn with_new_desk<P: Alter>(
    conn: Connection<P>,
    identity: Identity,
    operator_key: [u8; 32],
) -> Result<Connection<P>, (DeskFault, Connection<P>)>
    ensures before { IfOk result (IfClean P.Store WasClean conn) }
    ensures desk { IfOk result (IfClean P.Store (HasNewDesk identity operator_key) conn) }
    ensures unmade { IfErr result
        (λ why. IsLeftUnmade P.Store (leaves_new identity operator_key) conn why.1 why.0) }
{
    let mut conn = conn;
    match make_desk(&mut conn, identity, operator_key) {
        Ok(()) => Ok(conn),
        Err(why) => Err((why, conn)),
    }
}

/// Migrates the tables of version 1 that a connection sees, as `migrate` does.
///
/// # Errors
///
/// That of `migrate`, with the connection, whose tables were not migrated.
pub fn with_second_version<P: Alter>(
    alloc: Global,
    conn: Connection<P>,
) -> Result<Connection<P>, (DeskFault, Connection<P>)>
    ensures before { IfOk result (IfClean P.Store WasClean conn) }
    ensures migrated { IfOk result (IfClean P.Store HasMigrated conn) }
    ensures first { IfOk result (IfClean P.Store WasFirst conn) }
    ensures refused { IfErr result (λ why.
        IsGivenBack P.Store first_version (leaves_migrated (state P.Store conn)) conn why.1 why.0) }
    ensures otherwise { IfErr result (λ why. why.0 ≢ DeskFault.Told OpenFault.Exists) }
{
    let mut conn = conn;
    match migrate(alloc, &mut conn) {
        Ok(()) => Ok(conn),
        Err(why) => Err((why, conn)),
    }
}
