//! The two files of a desk, while no connection has them.
ghost use Rattle.std.specs.Prelude.{◌≡◌, IsTrue};
ghost use Rattle.sqlite_disk.specs.Memory.{memory_is_usable};

use sqlite_disk::{Crash, Disk, Files, Memory};

/// The log and the database file of a desk. No sync of them has failed.
#[derive(Drop)]
pub struct KeptFiles {
    pub log: Memory,
    pub db: Memory,
    ghost log_is_usable: { IsTrue (memory_is_usable log) },
    ghost db_is_usable: { IsTrue (memory_is_usable db) },
}

impl KeptFiles {
    ghost use Rattle.memory_files.specs.Kept.{IsKeptOf};

    /// Keeps files that were closed. If a sync of one has failed, it is kept as a crash leaves it.
    pub(crate) fn left(files: Files<Memory>) -> KeptFiles
        ensures { IsKeptOf ⟦<Memory as Disk>⟧ files result }
    {
        KeptFiles {
            log: usable(files.log),
            db: usable(files.db),
        }
    }

    /// Gives the files to be opened.
    pub(crate) fn into_files(self) -> Files<Memory>
        ensures same { (result.log ≡ self.log) × (result.db ≡ self.db) }
        ensures usable { IsTrue (memory_is_usable result.log) × IsTrue (memory_is_usable result.db) }
    {
        Files {
            log: self.log,
            db: self.db,
        }
    }
}

// A file as a crash leaves it, if a sync of it has failed.
fn usable(file: Memory) -> Memory
    ensures same { IsTrue (memory_is_usable file) → result ≡ file }
    ensures left { ⟦<Memory as Disk>⟧.may_leave file (⟦<Memory as Disk>⟧.seen result) }
    ensures usable { IsTrue (memory_is_usable result) }
{
    let mut file = file;
    if !file.may_be_used() {
        file.crash();
    }
    file
}
