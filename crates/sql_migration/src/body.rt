//! Version 1's tables become version 2's.
ghost use Rattle.std.specs.Prelude.{◌≡◌, ◌≢◌, false, Err, IfErr, IsTrue};
ghost use Rattle.sql_statements.specs.Promises.{SucceedsIn, FailsUnchanged};
ghost use Rattle.sql_setup.specs.Refusals.{IsRefused, TellsNoDesk};
ghost use Rattle.sql_setup.specs.Setup.{MayLeave};
ghost use Rattle.sql_migration.specs.FirstVersion.{first_version, WasFirst, KeepsBooksOf};
ghost use Rattle.sql_migration.specs.Migration.{migration_layout, migration_edit, HasMigrated};

use crate::check::check_first;
use crate::entries::number_entries;
use desk_book::unauthorized_books;
use sql_setup::{DeskFault, OpenFault};
use sql_statements::{TransactionBody, commit, execute};
use sqlite::{Alter, Connection, Error, Transaction};
use std::alloc::Global;

// The tables that version 2 adds are made, the version is set, and sent entries are numbered.
#[derive(Clone, Copy)]
struct Migration;

impl TransactionBody for Migration {
    ghost layout = { migration_layout };

    ghost edit = { λ _. migration_edit };

    fn run<S: Alter>(&self, tx: &mut Transaction<'_, S>) -> Result<(), Error> {
        execute(
            tx,
            "CREATE TABLE numbers (sequence INTEGER PRIMARY KEY, nth INT NOT NULL, UNIQUE (nth)) STRICT",
            &[],
        )?;
        execute(
            tx,
            "CREATE TABLE authorizations (company TEXT NOT NULL, ord INT NOT NULL, day INT NOT NULL, PRIMARY KEY (company, ord)) STRICT",
            &[],
        )?;
        execute(tx, "UPDATE desk SET version = 2 WHERE id = 1", &[])?;
        number_entries(tx)?;
        Ok(())
    }
}

/// Makes a desk's tables of version 1 those of version 2, in one transaction: every book that they kept
/// is kept. A crash leaves the tables of version 1 or those of version 2, whole.
///
/// A desk of version 1 did not read the key `authorized` of a retry. What its tables stood for is its
/// history without that key, in whose book no retry was authorized again: they stand for it afterwards.
///
/// Where there is no table `desk`, or no row in it, it is `OpenFault::NotADesk`. Where its row says
/// another version it is `OpenFault::WrongVersion`, whatever else the schema is. Every other schema, and
/// a connection that is inside a transaction, is `OpenFault::Unavailable`. The error is given of a
/// database that failed, and of memory that ran out. The tables are then as they were.
pub fn migrate<S: Alter>(alloc: Global, conn: &mut Connection<S>) -> Result<(), DeskFault>
    ensures migrated { SucceedsIn S.Store conn.old conn.new result HasMigrated }
    ensures absent { TellsNoDesk S.Store conn.old result }
    ensures inside { IsTrue conn.old.in_transaction →
        (result ≡ Err (DeskFault.Told OpenFault.Unavailable)) × (conn.new ≡ conn.old) }
    ensures first { SucceedsIn S.Store conn.old conn.new result WasFirst }
    ensures refused { IfErr result (IsRefused S.Store first_version conn.old conn.new) }
    ensures otherwise { IfErr result (λ why. why ≢ DeskFault.Told OpenFault.Exists) }
    ensures unmigrated { FailsUnchanged S.Store conn.old conn.new result }
    ensures survives { MayLeave S.Store conn.old conn.new (KeepsBooksOf S.Store conn.old) }
    ensures ended { conn.old.in_transaction ≡ false → conn.new.in_transaction ≡ false }
{
    if !conn.is_autocommit() {
        return Err(DeskFault::Told(OpenFault::Unavailable));
    }
    check_first(alloc, conn)?;
    unauthorized_books();
    match commit(conn, &Migration) {
        Ok(()) => Ok(()),
        Err(error) => Err(DeskFault::Failed(error)),
    }
}
