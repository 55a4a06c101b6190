//! The desk of version 1 in the file at a path becomes one of version 2.
ghost use Rattle.std.specs.Prelude.{◌≡◌, IfOk, IfErr, MatchResult, OnOk};
ghost use Rattle.sql_files.specs.Opened.{IfCleanFiles, IsMigratedIn};
ghost use Rattle.sql_files.specs.Refusals.{RefusesFirst};
ghost use Rattle.sql_files.specs.Steps.{FailsToConnect, Migrates};

use crate::checked::with_second_version;
use crate::desk_files::DeskFiles;
use crate::presence::Presence;
use crate::refusal::Refusal;
use sqlite::{Connection, FileStore};
use std::alloc::Global;

/// Makes the desk of version 1 in the database file at a path one of version 2, in one transaction, and
/// gives the connection. Each book that the file and its log kept is kept, whatever moment a crash left
/// them at, and whatever moment the next one comes at. The file system said this of the path.
///
/// Where there is no file, an empty one, or a database with no table `desk` or no row in it, it is
/// `OpenFault::NotADesk`, and no file is made. Where that row says another version, also after an
/// earlier migration, it is `OpenFault::WrongVersion`, whatever else the file has. Every other file is
/// `OpenFault::Unavailable`. A refused call changes nothing in the files. The clauses `told` and `refused`
/// read as those of `open`.
pub fn migrate_file<F: DeskFiles>(
    alloc: Global,
    files: &mut F,
    path: &str,
    presence: Presence,
) -> Result<Connection<FileStore<F::Device>>, Refusal<F::Device>>
    ensures told { MatchResult result
        (λ c. Migrates F.DeskFiles F.Device.Disk files.old path.now c files.new)
        (λ why. FailsToConnect F.DeskFiles F.Device.Disk files.old path.now why files.new) }
    ensures migrated { IfOk result (IfCleanFiles (IsMigratedIn (F.holds files.old path.now))) }
    ensures present { OnOk result (presence ≡ Presence.File) }
    ensures refused { IfErr result (RefusesFirst F.is_fresh (F.holds files.old path.now) presence) }
{
    if let Some(fault) = presence.fault() {
        return Err(Refusal::NoFile(fault));
    }
    match files.connect(path) {
        Ok(conn) => match with_second_version(alloc, conn) {
            Ok(conn) => Ok(conn),
            Err((why, conn)) => Err(Refusal::Refused(why, conn)),
        },
        Err((error, left)) => Err(Refusal::Unopened(error, left)),
    }
}
