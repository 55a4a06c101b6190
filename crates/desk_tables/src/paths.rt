//! The store of a desk is made, opened or migrated at a path of the host, with the start that supposes the least of
//! a write that a crash interrupts. A refused call closes what it opened.
ghost use Rattle.std.specs.Prelude.{◌≡◌, codes, Err, IfOk};
ghost use Rattle.sqlite_wal.specs.Files.{image_at};
ghost use Rattle.sql_files.specs.Opened.{IfCleanFiles, IsFoundIn, IsMadeIn, IsMigratedIn};

use crate::files::{create_in, migrate_file_in, open_in};
use desk_history::Identity;
use sql_files::{DeskFiles, FileFrom, FileStore, HostFiles, OpenFault, Start, Wary};
use sql_store::SqlStore;

/// Makes a new desk in the file at a path, with the SHA-256 digest of the operator's key, as `create_in` does.
/// The store holds the book of the empty history, which is all that a crash leaves.
pub fn create(
    rt: &HostRuntime,
    path: &str,
    identity: Identity,
    operator_key: [u8; 32],
) -> Result<SqlStore<FileStore<FileFrom<Wary>>>, OpenFault>
    ensures created { IfOk result
        (λ s. IfCleanFiles (IsMadeIn (image_at ⟦<Wary as Start>⟧) identity operator_key) s.conn) }
    ensures memory { path.now ≡ codes ":memory:" → result ≡ Err OpenFault.Unavailable }
{
    match create_in(&mut HostFiles::new(rt, Wary), path, identity, operator_key) {
        Ok(store) => Ok(store),
        Err(why) => Err(why.fault()),
    }
}

/// Opens the desk in the file at a path, as `open_in` does, after a look at the path. The store holds each book
/// that the file and its log keep, whatever moment a crash left them at.
pub fn open(rt: &HostRuntime, path: &str) -> Result<SqlStore<FileStore<FileFrom<Wary>>>, OpenFault>
    ensures { IfOk result
        (λ s. IfCleanFiles (IsFoundIn (image_at ⟦<Wary as Start>⟧)) s.conn) }
{
    let mut files = HostFiles::new(rt, Wary);
    let presence = files.look(path);
    match open_in(rt.alloc(), &mut files, path, presence) {
        Ok(store) => Ok(store),
        Err(why) => Err(why.fault()),
    }
}

/// Makes the desk of version 1 in the file at a path one of version 2, as `migrate_file_in` does, after a look
/// at the path. The store holds each book that the file and its log kept.
pub fn migrate_file(
    rt: &HostRuntime,
    path: &str,
) -> Result<SqlStore<FileStore<FileFrom<Wary>>>, OpenFault>
    ensures { IfOk result
        (λ s. IfCleanFiles (IsMigratedIn (image_at ⟦<Wary as Start>⟧)) s.conn) }
{
    let mut files = HostFiles::new(rt, Wary);
    let presence = files.look(path);
    match migrate_file_in(rt.alloc(), &mut files, path, presence) {
        Ok(store) => Ok(store),
        Err(why) => Err(why.fault()),
    }
}
