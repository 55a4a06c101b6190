//! A file that only its owner can read.
ghost use Rattle.std.specs.Prelude.{◌≡◌, codes, IsErr, MatchResult};
ghost use Rattle.sql_files.specs.Steps.{names_no_file, FailsToMakePrivate, MakesOrRestricts, MakesPrivate, RestrictsEmpty};

use crate::desk_files::DeskFiles;
use crate::presence::Presence;
use sql_setup::OpenFault;
use std::io::{self, ErrorKind};

/// Makes sure that only its owner can read and write the file at a path that a desk is to be made in,
/// whatever the process takes off the modes of its files: makes an empty file if there is none, and
/// changes the mode of an empty one. A database that a connection makes of it has a log with the same
/// mode. A file that is not empty is left unchanged.
///
/// # Errors
///
/// `OpenFault::Unavailable` if the file cannot be made or its mode cannot be changed, which leaves it
/// unchanged, and for a path that a connection does not take for a file: no file of that name is made.
pub(crate) fn make_private<F: DeskFiles>(files: &mut F, path: &str) -> Result<(), OpenFault>
    ensures told { MatchResult result
        (λ _. MakesPrivate F.DeskFiles files.old path.now files.new)
        (λ fault. (fault ≡ OpenFault.Unavailable) × FailsToMakePrivate F.DeskFiles files.old path.now files.new) }
    ensures memory { path.now ≡ codes ":memory:" → IsErr result }
    ensures stays { F.holds files.new ≡ F.holds files.old }
{
    if names_no_file(path) {
        return Err(OpenFault::Unavailable);
    }
    match make_or_restrict(files, path) {
        Ok(()) => Ok(()),
        Err(_) => Err(OpenFault::Unavailable),
    }
}

// A connection takes these paths for something else than a file.
fn names_no_file(path: &str) -> bool
    ensures { result ≡ names_no_file path.now }
{
    path == ":memory:" || path.starts_with("file:")
}

// Makes an empty file, or changes the mode of the one that is there.
fn make_or_restrict<F: DeskFiles>(files: &mut F, path: &str) -> io::Result<()>
    ensures told { MakesOrRestricts F.DeskFiles files.old path.now result files.new }
    ensures stays { F.holds files.new ≡ F.holds files.old }
{
    match files.make_new(path) {
        Err(error) if error.kind() == ErrorKind::AlreadyExists => restrict_empty(files, path),
        made => made,
    }
}

// What is no file, as a device, keeps its mode.
fn restrict_empty<F: DeskFiles>(files: &mut F, path: &str) -> io::Result<()>
    ensures told { RestrictsEmpty F.DeskFiles files.old path.now result files.new }
    ensures stays { F.holds files.new ≡ F.holds files.old }
{
    match files.look(path) {
        Presence::Nothing => files.restrict(path),
        Presence::File | Presence::Unknown => Ok(()),
    }
}
