//! The desk in the file at a path is opened.
ghost use Rattle.std.specs.Prelude.{◌≡◌, IfOk, IfErr, MatchResult, OnOk};
ghost use Rattle.sql_files.specs.Opened.{IfCleanFiles, IsFoundIn};
ghost use Rattle.sql_files.specs.Refusals.{RefusesDesk};
ghost use Rattle.sql_files.specs.Steps.{FailsToConnect, Opens};

use crate::checked::with_desk;
use crate::desk_files::DeskFiles;
use crate::presence::Presence;
use crate::refusal::Refusal;
use sqlite::{Connection, FileStore};
use std::alloc::Global;

/// Opens the desk in the database file at a path, of which the file system said this. The connection
/// then sees each book that the file and its log keep, whatever moment a crash left them at.
///
/// Where there is no file, an empty one, or a database with no table `desk` or no row in it, it is
/// `OpenFault::NotADesk`, and no file is made. Where that row says another version it is
/// `OpenFault::WrongVersion`, whatever else the file has. Every other file is `OpenFault::Unavailable`.
/// A refused call changes nothing in the files.
///
/// By the clause `told` one connection was opened at this path, and nothing else was asked of the files.
/// By the clause `refused` the fault is what the file system said, or an error that has its cause in
/// what is left of the files, or what `check_desk` says of the connection that is given back.
pub fn open<F: DeskFiles>(
    alloc: Global,
    files: &mut F,
    path: &str,
    presence: Presence,
) -> Result<Connection<FileStore<F::Device>>, Refusal<F::Device>>
    ensures told { MatchResult result
        (λ c. Opens F.DeskFiles F.Device.Disk files.old path.now c files.new)
        (λ why. FailsToConnect F.DeskFiles F.Device.Disk files.old path.now why files.new) }
    ensures found { IfOk result (IfCleanFiles (IsFoundIn (F.holds files.old path.now))) }
    ensures present { OnOk result (presence ≡ Presence.File) }
    ensures refused { IfErr result (RefusesDesk F.is_fresh (F.holds files.old path.now) presence) }
{
    if let Some(fault) = presence.fault() {
        return Err(Refusal::NoFile(fault));
    }
    match files.connect(path) {
        Ok(conn) => match with_desk(alloc, conn) {
            Ok(conn) => Ok(conn),
            Err((why, conn)) => Err(Refusal::Refused(why, conn)),
        },
        Err((error, left)) => Err(Refusal::Unopened(error, left)),
    }
}
