//! Why a database is not opened as a desk.
ghost use Rattle.std.specs.Prelude.{◌≡◌};
ghost use Rattle.sql_setup.specs.Faults.{number_of, told_of};

use sqlite::Error;

/// An `OpenFault` says why a database is not opened as a desk, or made one.
#[derive(Clone, Copy, Debug, PartialEq, Eq, Drop)]
pub enum OpenFault {
    /// There is no table `desk`, or no row in it.
    NotADesk,
    /// The row of the desk says this version, which is another than the one that was asked for.
    WrongVersion(i64),
    /// The schema is not a desk's of the version that the row says, or the row says none. The database
    /// could not act, memory ran out, or the connection is inside a transaction. A database that is to
    /// become a desk has something else in it.
    Unavailable,
    /// A database that is to become a desk has a table `desk`.
    Exists,
}

impl OpenFault {
    /// Gives the number of the fault.
    pub fn number(self) -> u8
        ensures { result ≡ number_of self }
    {
        match self {
            OpenFault::NotADesk => 1,
            OpenFault::WrongVersion(_) => 2,
            OpenFault::Unavailable => 3,
            OpenFault::Exists => 4,
        }
    }
}

/// A `DeskFault` says why a call found, made or migrated no desk on a connection.
#[derive(Debug, Drop)]
pub enum DeskFault {
    /// What the connection sees is at fault, or the connection is inside a transaction.
    Told(OpenFault),
    /// The database failed with this error, or memory ran out.
    Failed(Error),
}

impl DeskFault {
    /// Gives the fault that is reported: an error is reported as `OpenFault::Unavailable`.
    pub fn told(&self) -> OpenFault
        ensures { result ≡ told_of self.now }
    {
        match self {
            DeskFault::Told(fault) => *fault,
            DeskFault::Failed(_) => OpenFault::Unavailable,
        }
    }
}
