//! The tables of version 1 that a connection sees become those of version 2.
ghost use Rattle.std.specs.Prelude.{◌≡◌, false, Err, IsTrue};
ghost use Rattle.sql_statements.specs.Promises.{SucceedsIn, FailsUnchanged};
ghost use Rattle.sql_setup.specs.Setup.{MayLeave};
ghost use Rattle.sql_migration.specs.FirstVersion.{KeepsBooksOf};
ghost use Rattle.sql_migration.specs.Migration.{HasMigrated};

use sql_files::OpenFault;
use sqlite::{Alter, Connection};
use std::alloc::Global;

/// Makes a desk's tables of version 1 those of version 2, in one transaction, as `migrate` of `sql_migration`
/// does: every book that they kept is kept. A crash leaves the tables of version 1 or those of version 2, whole.
///
/// If there is no table `desk`, or no row in it, the fault is `OpenFault::NotADesk`. If its row has another
/// version, it is `OpenFault::WrongVersion`, whatever else the schema is. Every other schema, a database that
/// failed, and a connection that is inside a transaction, are `OpenFault::Unavailable`. The tables are then as
/// they were.
pub fn migrate<S: Alter>(alloc: Global, conn: &mut Connection<S>) -> Result<(), OpenFault>
    ensures migrated { SucceedsIn S.Store conn.old conn.new result HasMigrated }
    ensures inside { IsTrue conn.old.in_transaction →
        (result ≡ Err OpenFault.Unavailable) × (conn.new ≡ conn.old) }
    ensures unmigrated { FailsUnchanged S.Store conn.old conn.new result }
    ensures survives { MayLeave S.Store conn.old conn.new (KeepsBooksOf S.Store conn.old) }
    ensures ended { conn.old.in_transaction ≡ false → conn.new.in_transaction ≡ false }
{
    match sql_files::migrate(alloc, conn) {
        Ok(()) => Ok(()),
        Err(why) => Err(why.told()),
    }
}
