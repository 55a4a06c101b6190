//! The two files of a connection that is closed.
ghost use Rattle.sql_files.specs.Closing.{IsLeftBy};

use sqlite::{Connection, FileStore};
use sqlite_disk::{Disk, Files};

/// Closes a connection and returns its files, also if its log cannot be copied into the database file.
pub fn close_files<D: Disk + Drop>(conn: Connection<FileStore<D>>) -> Files<D>
    ensures { IsLeftBy conn result }
{
    match conn.close_files() {
        Ok(files) => files,
        Err((_error, store)) => store.close(),
    }
}
