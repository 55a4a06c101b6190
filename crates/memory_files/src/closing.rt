//! A connection to files in memory is closed, and its files return to the place that they were taken from.
ghost use Rattle.memory_files.specs.Opening.{PutsBack};

use crate::kept_files::KeptFiles;
use crate::memory_files::MemoryFiles;
use crate::places::exchange;
use sql_files::{Closes, Opened, close_files};
use sqlite_disk::{Disk, Files, Memory};

impl MemoryFiles<'_> {
    // Puts files back to the place that was given out last.
    fn put_back(&mut self, files: Files<Memory>)
        ensures { PutsBack ⟦<Memory as Disk>⟧ self.old files self.new }
    {
        let Some(at) = self.opened else {
            return;
        };
        self.opened = None;
        let kept = KeptFiles::left(files);
        if at < self.places.len() {
            let _before = exchange(&mut self.places, at, Some(kept));
        }
    }
}

impl Closes<Opened<Memory>> for MemoryFiles<'_> {
    ghost use Rattle.memory_files.specs.Opening.{ComesBack};

    ghost closes = { ComesBack ⟦<Memory as Disk>⟧ };

    fn close(&mut self, opened: Opened<Memory>) {
        match opened {
            None => {}
            Some(Ok(conn)) => self.put_back(close_files(conn)),
            Some(Err(why)) => {
                if let Some(files) = why.into_files() {
                    self.put_back(files);
                }
            }
        }
    }
}
