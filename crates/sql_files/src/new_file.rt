//! A new desk is made in the file at a path.
ghost use Rattle.std.specs.Prelude.{◌≡◌, codes, IfOk, IfErr, IsErrAnd, MatchResult};
ghost use Rattle.sql_files.specs.Opened.{IfCleanFiles, IsMadeIn, leaves_new};
ghost use Rattle.sql_files.specs.Refusals.{RefusesNew, fault_of};
ghost use Rattle.sql_files.specs.Steps.{Creates, FailsToCreate};

use crate::checked::with_new_desk;
use crate::desk_files::DeskFiles;
use crate::private_file::make_private;
use crate::refusal::Refusal;
use desk_history::Identity;
use sql_setup::OpenFault;
use sqlite::{Connection, FileStore};

/// Makes a new desk in the database file at a path, with the SHA-256 digest of the operator's key. A
/// file that is missing is made, and its log beside it, and only their owner reads them. The connection
/// sees the desk.
///
/// Over a table `desk` it is `OpenFault::Exists`. A file that has something else in it, or that cannot
/// be opened, is `OpenFault::Unavailable`. A refused call changes nothing in a file that was there.
///
/// By the clause `told` the file at this path was made, or found and made private if it is empty, one
/// connection was opened to it, and nothing else was asked of the files.
pub fn create<F: DeskFiles>(
    files: &mut F,
    path: &str,
    identity: Identity,
    operator_key: [u8; 32],
) -> Result<Connection<FileStore<F::Device>>, Refusal<F::Device>>
    ensures told { MatchResult result
        (λ c. Creates F.DeskFiles F.Device.Disk files.old path.now identity operator_key c files.new)
        (λ why. FailsToCreate F.DeskFiles F.Device.Disk files.old path.now why files.new) }
    ensures created { IfOk result
        (IfCleanFiles (IsMadeIn (F.holds files.old path.now) identity operator_key)) }
    ensures unmade { IfErr result
        (RefusesNew F.is_fresh (F.holds files.old path.now) (leaves_new identity operator_key)) }
    ensures memory { path.now ≡ codes ":memory:" →
        IsErrAnd result (λ why. fault_of why ≡ OpenFault.Unavailable) }
{
    if let Err(fault) = make_private(files, path) {
        return Err(Refusal::NoFile(fault));
    }
    match files.connect(path) {
        Ok(conn) => match with_new_desk(conn, identity, operator_key) {
            Ok(conn) => Ok(conn),
            Err((why, conn)) => Err(Refusal::Refused(why, conn)),
        },
        Err((error, left)) => Err(Refusal::Unopened(error, left)),
    }
}
