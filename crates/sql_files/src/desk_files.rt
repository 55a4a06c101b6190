//! A file system that has the files of desks, by their paths.
//!
//! It has facts that its calls alone give: this was found at that path, this connection was opened there.
//! Code that is generic in its `DeskFiles` can show such a fact by making the call and by nothing else. Each
//! call, also one that only looks or reads, takes the file system from one state to the next. A clause that
//! leads from one state to another therefore allows no further call.
use crate::presence::Presence;
use crate::refusal::Refusal;
use io_retries::Source;
use sqlite::{Connection, Error, FileStore, Leftover};
use sqlite_disk::Disk;
use std::io;

/// What a command opened of a desk's files: the connection, or why there is none. A command that asks for
/// no desk's file opened nothing.
pub type Opened<D> = Option<Result<Connection<FileStore<D>>, Refusal<D>>>;

/// A `DeskFiles` makes the database files that it has, by their paths, opens connections to them, and reads
/// other files.
pub trait DeskFiles {
    ghost use Rattle.std.specs.Prelude.{◌≡◌, ℕ, Bool, List, Option, IfErr, IfOk, MatchResult, Result};
    ghost use Rattle.std.specs.declared.io.Error.{Error as IoError};
    ghost use Rattle.sqlite.specs.Files.{file_state, IsOpened};
    ghost use Rattle.sqlite.specs.Held.{Held};
    ghost use Rattle.sqlite.specs.Start.{FindsIn};
    ghost use Rattle.sqlite.specs.declared.error.Error.{Error};
    ghost use Rattle.sqlite.specs.declared.file.Leftover.{Leftover};
    ghost use Rattle.sqlite_disk.specs.declared.Disk as disk;
    ghost use Rattle.sqlite_store.specs.declared.store.FileStore.{FileStore};
    ghost use Rattle.sqlite_wal.specs.Recovery.{Image};
    ghost use Rattle.sql_files.specs.Opened.{IfCleanFiles};
    ghost use Rattle.sql_files.specs.Refusals.{FailsToOpen};
    ghost use Rattle.sql_files.specs.declared.presence.Presence.{Presence};

    /// A file of a desk, once it is open.
    type Device: Disk + Drop;

    /// Another file, once it is open to be read.
    type Input: Source + Drop;

    /// What the files at a path hold.
    ghost holds: { Self → (path : List ℕ) → Image };

    /// The file is as a call opened it.
    ghost is_fresh: { Bool → Self.Device → Type 0 };

    /// It opened the file at a path to be read.
    ghost reads: { Self → (path : List ℕ) → Self.Input → Self → Type 0 };

    /// It could not open the file at a path to be read.
    ghost fails_to_read: { Self → (path : List ℕ) → Self → Type 0 };

    /// It took back an input, which had been read so far.
    ghost ends_reading: { Self → Self.Input → Self → Type 0 };

    /// It said this of a path.
    ghost finds: { Self → (path : List ℕ) → Presence → Self → Type 0 };

    /// It was asked to make an empty file at a path that its owner alone can read, and answered so.
    ghost makes: { Self → (path : List ℕ) → Result (Unit {0}) IoError → Self → Type 0 };

    /// It was asked to let the owner alone read the file at a path, and answered so.
    ghost restricts: { Self → (path : List ℕ) → Result (Unit {0}) IoError → Self → Type 0 };

    /// It opened this connection to the files at a path.
    ghost connects: { Self → (path : List ℕ) → (d : disk.Ghosts Self.Device) → Held (FileStore Self.Device d) → Self → Type 0 };

    /// It opened no connection there, with this error and what is left of the files.
    ghost fails_to_connect: { Self → (path : List ℕ) → (d : disk.Ghosts Self.Device) → Error → Option (Leftover Self.Device d) → Self → Type 0 };

    /// Opens the file at a path to be read.
    fn read(&mut self, path: &str) -> io::Result<Self::Input>
        ensures { MatchResult result
            (λ input. reads self.old path.now input self.new)
            (λ _. fails_to_read self.old path.now self.new) };

    /// Takes back an input and closes it.
    fn end_reading(&mut self, input: Self::Input)
        ensures { ends_reading self.old input self.new };

    /// Reports what is at a path. What the files hold stays the same.
    fn look(&mut self, path: &str) -> Presence
        ensures found { finds self.old path.now result self.new }
        ensures stays { holds self.new ≡ holds self.old };

    /// Makes an empty file at a path, which its owner alone can read and write. If there is a file, the error
    /// is `AlreadyExists`. What the files hold stays the same.
    fn make_new(&mut self, path: &str) -> io::Result<()>
        ensures told { makes self.old path.now result self.new }
        ensures stays { holds self.new ≡ holds self.old };

    /// Lets its owner alone read and write the file at a path. What the files hold stays the same.
    fn restrict(&mut self, path: &str) -> io::Result<()>
        ensures told { restricts self.old path.now result self.new }
        ensures stays { holds self.new ≡ holds self.old };

    /// Opens a connection to the database file at a path and its log, and makes those that are missing.
    fn connect(
        &mut self,
        path: &str,
    ) -> Result<Connection<FileStore<Self::Device>>, (Error, Option<Leftover<Self::Device>>)>
        ensures told { MatchResult result
            (λ c. connects self.old path.now Self.Device.Disk c self.new)
            (λ why. fails_to_connect self.old path.now Self.Device.Disk why.0 why.1 self.new) }
        ensures opened { IfOk result (IfCleanFiles IsOpened) }
        ensures found { IfOk result
            (IfCleanFiles (λ c. FindsIn (holds self.old path.now) (file_state c))) }
        ensures unopened { IfErr result (λ why. FailsToOpen is_fresh why.0 why.1) };
}

/// A `Closes<T>` takes a value and closes it. That it closed the value is a fact that its call alone gives.
pub trait Closes<T> {
    /// It took this value and closed it.
    ghost closes: { Self → T → Self → Type 0 };

    /// Closes a value.
    fn close(&mut self, value: T)
        ensures { closes self.old value self.new };
}
