//! Visits of a database's files: they are opened over disks in memory, some of whose calls may fail, and
//! looked at afterwards.
use super::full::Full;
use super::images::{Image, copy};
use super::limits::{Both, Limits};
use super::tasks::{Task, carry_out};
use sql_setup::OpenFault;
use sqlite::{Connection, FileStore, Files, Options};
use sqlite_disk::{Crash, Disk, Fuse, Memory};
use std::alloc::Global;
use std::process::Abort;

/// A file in memory that has no room for some writes, passes a number of calls on, and then fails
/// each one.
type Frail = Fuse<Full<Memory>>;

/// The findings of a visit of a database's files, and the files after it.
#[derive(Drop)]
pub(super) struct Visited {
    /// The output of its tasks.
    pub told: Vec<u8>,
    /// Why the files were not opened, or a task was not done.
    pub fault: Option<OpenFault>,
    /// All was done, and the files were closed.
    pub is_closed: bool,
    /// All that was written: what a process that ends leaves.
    pub written: Image,
    /// Nothing that was not synced: what a machine that stops may leave.
    pub synced: Image,
    /// The number of writes that found no room.
    pub refusals: u64,
}

// A file with these bytes, all of them synced.
fn frail(rt: &(impl Abort + Alloc<A = Global>), bytes: &[u8], limits: Limits) -> Frail {
    let mut memory = Memory::new(rt.alloc());
    memory.write_at(0, bytes).ok().expect(rt, "memory");
    memory.sync().ok().expect(rt, "memory");
    Fuse::new(Full::new(memory, limits.room), limits.calls)
}

// The log is copied into the database file some times while messages are answered.
fn options() -> Options {
    let mut options = Options::new(1);
    options.checkpoint_frames = 60;
    options
}

// Copies the log into the database file and closes both. Did that succeed?
fn close<D: Disk + Drop>(conn: Connection<FileStore<D>>) -> (Files<D>, bool) {
    match conn.close_files() {
        Ok(files) => (files, true),
        Err((_, store)) => (store.close(), false),
    }
}

// Leaves the files unchanged if a task was not done, and otherwise closes them.
fn end<D: Disk + Drop>(conn: Connection<FileStore<D>>, is_done: bool) -> (Files<D>, bool) {
    if is_done {
        close(conn)
    } else {
        (conn.into_store().close(), false)
    }
}

// Opens the files, and carries out the tasks. Why was one not done, and were the files closed?
fn carry_out_on<D: Disk + Drop>(
    rt: &(impl Abort + Alloc<A = Global>),
    files: Files<D>,
    tasks: &[Task<'_>],
    told: &mut Vec<u8>,
) -> (Files<D>, Option<OpenFault>, bool) {
    assert!(rt; files.log.may_be_used() && files.db.may_be_used());
    match Connection::open_files_with(rt.alloc(), files, options(), true) {
        Ok(conn) => {
            let (conn, fault) = carry_out(rt, conn, tasks, told);
            let (files, is_closed) = end(conn, fault.is_none());
            (files, fault, is_closed)
        }
        Err((_, left)) => (left.into_files(), Some(OpenFault::Unavailable), false),
    }
}

fn image_of(rt: &(impl Abort + Alloc<A = Global>), files: &Files<Frail>) -> Image {
    Image {
        log: copy(rt, files.log.inner().inner().bytes()),
        db: copy(rt, files.db.inner().inner().bytes()),
    }
}

/// Opens files with these bytes, carries out the tasks up to one that is not done, and closes the
/// files if there is none.
pub(super) fn visit(
    rt: &(impl Abort + Alloc<A = Global>),
    image: &Image,
    limits: Both,
    tasks: &[Task<'_>],
) -> Visited {
    let files = Files {
        log: frail(rt, &image.log, limits.log),
        db: frail(rt, &image.db, limits.db),
    };
    let mut told = Vec::new(rt.alloc());
    let (files, fault, is_closed) = carry_out_on(rt, files, tasks, &mut told);
    let refusals = files.tally().refused;
    let written = image_of(rt, &files);
    let mut files = files;
    files.log.crash();
    files.db.crash();
    Visited {
        told,
        fault,
        is_closed,
        written,
        synced: image_of(rt, &files),
        refusals,
    }
}

/// A visit none of whose calls fails.
pub(super) fn free_visit(
    rt: &(impl Abort + Alloc<A = Global>),
    image: &Image,
    tasks: &[Task<'_>],
) -> Visited {
    visit(rt, image, Both::NONE, tasks)
}
