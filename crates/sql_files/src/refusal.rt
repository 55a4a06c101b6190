//! Why there is no desk in a file, with what is left of the file.
ghost use Rattle.std.specs.Prelude.{◌≡◌};
ghost use Rattle.sql_files.specs.Closing.{HasFiles};
ghost use Rattle.sql_files.specs.Refusals.{fault_of};

use crate::closing::close_files;
use sql_setup::{DeskFault, OpenFault};
use sqlite::{Connection, Error, FileStore, Leftover};
use sqlite_disk::{Disk, Files};

/// A `Refusal` says why a call found, made or migrated no desk in a file. It has what is left of the
/// file, so that a contract can say of that why the call refused.
pub enum Refusal<D: Disk> {
    /// The file system said so, and no connection was asked for.
    NoFile(OpenFault),
    /// No connection could be opened. If the files were open by then, what is left of them is here.
    Unopened(Error, Option<Leftover<D>>),
    /// The connection was opened and refused.
    Refused(DeskFault, Connection<FileStore<D>>),
}

impl<D: Disk> Refusal<D> {
    /// Gives the fault that is reported. An error of the engine is reported as
    /// `OpenFault::Unavailable`.
    pub fn fault(&self) -> OpenFault
        ensures { result ≡ fault_of self.now }
    {
        match self {
            Refusal::NoFile(fault) => *fault,
            Refusal::Unopened(_, _) => OpenFault::Unavailable,
            Refusal::Refused(why, _) => why.told(),
        }
    }
}

impl<D: Disk + Drop> Refusal<D> {
    /// Closes what was opened and returns the files: those of the connection, or what is left of them if
    /// none could be opened. If no file was opened there are none.
    pub fn into_files(self) -> Option<Files<D>>
        ensures { HasFiles self result }
    {
        match self {
            Refusal::NoFile(_) | Refusal::Unopened(_, None) => None,
            Refusal::Unopened(_, Some(left)) => Some(left.into_files()),
            Refusal::Refused(_, conn) => Some(close_files(conn)),
        }
    }
}

// It is written out, so that a caller does not prove again how each part is dropped.
impl<D: Disk + Drop> Drop for Refusal<D> {
    fn drop(self) {
        match self {
            Refusal::NoFile(_fault) => {}
            Refusal::Unopened(_error, _left) => {}
            Refusal::Refused(_why, _conn) => {}
        }
    }
}
