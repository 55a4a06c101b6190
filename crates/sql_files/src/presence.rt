//! What the file system says of a path.
ghost use Rattle.std.specs.Prelude.{◌≡◌};
ghost use Rattle.sql_files.specs.Refusals.{presence_fault, SaysPresence};

use sql_setup::OpenFault;
use std::fs::Metadata;
use std::io::ErrorKind;
use std::{fs, io};

/// A `Presence` is what the file system says of a path.
#[derive(Clone, Copy, Debug, PartialEq, Eq, Drop)]
pub enum Presence {
    /// There is a file, and it is not empty.
    File,
    /// There is no file, or an empty one. A connection would make the one, and begin a database in the
    /// other.
    Nothing,
    /// There is something that is no file, or the file system could not say.
    Unknown,
}

impl Presence {
    /// Gives the fault of a path at which no desk is opened: `OpenFault::NotADesk` where there is nothing,
    /// and `OpenFault::Unavailable` where what is there is unknown.
    pub fn fault(self) -> Option<OpenFault>
        ensures { result ≡ presence_fault self }
    {
        match self {
            Presence::File => None,
            Presence::Nothing => Some(OpenFault::NotADesk),
            Presence::Unknown => Some(OpenFault::Unavailable),
        }
    }
}

/// Asks the file system what is at a path.
///
/// No contract knows what is there: what the answer means is the contract of `presence_in`, and which
/// path is asked for rests on this line.
pub fn look(rt: &HostRuntime, path: &str) -> Presence {
    presence_in(&fs::metadata(rt, path))
}

// What an answer of the file system means.
fn presence_in(found: &io::Result<Metadata>) -> Presence
    ensures { SaysPresence found.now result }
{
    match found {
        Ok(found) if !found.is_file() => Presence::Unknown,
        Ok(found) if found.len() == 0 => Presence::Nothing,
        Ok(_) => Presence::File,
        Err(error) if error.kind() == ErrorKind::NotFound => Presence::Nothing,
        Err(_) => Presence::Unknown,
    }
}
