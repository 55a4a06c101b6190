//! Desks in files of the system.
use super::bank::{OPERATOR_DIGEST, identity};
use super::commands::{ACCEPTED, COMMANDS, give, is_done};
use crate::tables::add_tables;
use desk_core::{Desk, Store};
use desk_tables::{FileStore, OpenFault, SqlStore, create, migrate_file, open};
use sqlite::{Alter, Connection, Error};
use sqlite_disk::Disk;
use std::alloc::Global;
use std::fs;
use std::process::Abort;
use std::test::Fail;

/// How the file at a path is opened.
#[derive(Clone, Copy)]
pub(crate) enum Way {
    Create,
    Migrate,
    Open,
}

// The first of these speak of any tables or disk, since the type of a store in files is so long that each
// function which passes one on or drops it takes the prover half a minute. None has a clause, so that
// the proof of a test does not carry the state of each call.

// Runs these statements, and closes the files: then the database file has all that its log had.
fn change<D: Disk + Drop>(
    rt: &impl Abort,
    opened: Option<Connection<FileStore<D>>>,
    sql: &str,
) -> Result<(), Error> {
    let mut conn = opened.expect(rt, "a database");
    conn.execute_batch(sql)?;
    conn.close()
}

fn connection<D: Disk + Drop>(
    opened: Result<SqlStore<FileStore<D>>, OpenFault>,
) -> Option<Connection<FileStore<D>>> {
    Some(opened.ok()?.into_connection())
}

fn fault<D: Disk + Drop>(opened: Result<SqlStore<FileStore<D>>, OpenFault>) -> Option<OpenFault> {
    opened.err()
}

// Gives the commands from this number on, and once more what is accepted again.
fn give_all<S: Store>(rt: &(impl Abort + Alloc<A = Global>), desk: &mut Desk<S>, from: usize) {
    assert!(rt; give(rt, desk, from) == COMMANDS);
    for number in &ACCEPTED {
        assert!(rt; is_done(rt, desk, *number));
    }
}

// The rows of all tables. The files are left as a program leaves them that ends at once.
fn rows_of<P: Alter + Drop>(
    rt: &impl Alloc<A = Global>,
    store: SqlStore<P>,
) -> Result<Vec<u8>, Error> {
    let mut rows = Vec::new(rt.alloc());
    let mut conn = store.into_connection();
    add_tables(&mut conn, &mut rows)?;
    Ok(rows)
}

// Gives the commands from this number on. The rows of all tables are then these.
fn go_on<P: Alter + Drop>(
    rt: &(impl Abort + Alloc<A = Global>),
    opened: Option<SqlStore<P>>,
    from: usize,
) -> Result<Vec<u8>, Error> {
    let mut desk = Desk::new(opened.expect(rt, "a desk"));
    give_all(rt, &mut desk, from);
    rows_of(rt, desk.into_store())
}

/// Makes a desk in the file, and gives it the commands of some days. Its rows are then these.
pub(super) fn go_on_with_new(
    host: &HostRuntime,
    rt: &(impl Abort + Alloc<A = Global>),
    path: &str,
) -> Result<Vec<u8>, Error> {
    go_on(
        rt,
        create(host, path, identity(rt), OPERATOR_DIGEST).ok(),
        0,
    )
}

fn go_on_with_found(
    host: &HostRuntime,
    rt: &(impl Abort + Alloc<A = Global>),
    path: &str,
) -> Result<Vec<u8>, Error> {
    go_on(rt, open(host, path).ok(), COMMANDS)
}

/// Opens a desk, runs these statements, and closes it.
pub(super) fn change_desk(
    host: &HostRuntime,
    rt: &impl Abort,
    path: &str,
    sql: &str,
) -> Result<(), Error> {
    change(rt, connection(open(host, path)), sql)
}

/// Runs these statements over a database, and closes it.
pub(crate) fn change_database(
    host: &HostRuntime,
    rt: &impl Abort,
    path: &str,
    sql: &str,
) -> Result<(), Error> {
    change(rt, Connection::open(host, path).ok(), sql)
}

/// Tells why a desk is not made, migrated or opened in the file.
pub(crate) fn fault_of(
    host: &HostRuntime,
    rt: &impl Abort,
    path: &str,
    way: Way,
) -> Option<OpenFault> {
    let opened = match way {
        Way::Create => create(host, path, identity(rt), OPERATOR_DIGEST),
        Way::Migrate => migrate_file(host, path),
        Way::Open => open(host, path),
    };
    fault(opened)
}

// Tells why an open desk is not opened a second time meanwhile.
fn second_fault(host: &HostRuntime, rt: &impl Abort, path: &str) -> Option<OpenFault> {
    let _first = open(host, path);
    fault_of(host, rt, path, Way::Open)
}

fn log_of(rt: &HostRuntime, path: &str) -> Result<String, Fail> {
    Ok(format!(in rt.alloc(); "{path}-wal")?)
}

/// Removes the file and its log, if they exist.
pub(super) fn clear(rt: &HostRuntime, path: &str) -> Result<(), Fail> {
    let _ = fs::remove_file(rt, path);
    let _ = fs::remove_file(rt, log_of(rt, path)?.as_str());
    Ok(())
}

#[test]
fn a_desk_stays_in_its_file(rt: HostRuntime) -> Result<(), Fail> {
    let path = "desk_that_stays.db";
    clear(&rt, path)?;
    let before = go_on_with_new(&rt, &rt, path)?;
    assert!(rt; second_fault(&rt, &rt, path) == Some(OpenFault::Unavailable));
    assert!(rt; fault_of(&rt, &rt, path, Way::Create) == Some(OpenFault::Exists));
    assert!(rt; go_on_with_found(&rt, &rt, path)? == before);
    change_desk(&rt, &rt, path, "")?;
    assert!(rt; go_on_with_found(&rt, &rt, path)? == before);
    change_desk(&rt, &rt, path, "UPDATE desk SET version = 9")?;
    assert!(rt; fault_of(&rt, &rt, path, Way::Open) == Some(OpenFault::WrongVersion(9)));
    assert!(rt; fault_of(&rt, &rt, path, Way::Create) == Some(OpenFault::Exists));
    clear(&rt, path)
}

#[test]
fn what_is_not_there_is_not_made(rt: HostRuntime) -> Result<(), Fail> {
    let path = "desk_that_is_not_there.db";
    clear(&rt, path)?;
    assert!(rt; fault_of(&rt, &rt, path, Way::Open) == Some(OpenFault::NotADesk));
    assert!(rt; !fs::exists(&rt, path)? && !fs::exists(&rt, log_of(&rt, path)?.as_str())?);
    fs::write(&rt, path, b"".as_slice())?;
    assert!(rt; fault_of(&rt, &rt, path, Way::Open) == Some(OpenFault::NotADesk));
    assert!(rt; fs::metadata(&rt, path)?.len() == 0);
    assert!(rt; fault_of(&rt, &rt, path, Way::Create).is_none());
    assert!(rt; fault_of(&rt, &rt, path, Way::Open).is_none());
    clear(&rt, path)
}

#[test]
fn other_files_are_no_desks(rt: HostRuntime) -> Result<(), Fail> {
    let path = "notes_of_others.db";
    clear(&rt, path)?;
    change_database(&rt, &rt, path, "CREATE TABLE notes (id INT)")?;
    assert!(rt; fault_of(&rt, &rt, path, Way::Open) == Some(OpenFault::NotADesk));
    assert!(rt; fault_of(&rt, &rt, path, Way::Create) == Some(OpenFault::Unavailable));
    clear(&rt, path)?;
    let text = b"routing,account,cents\n091000019,123456789,150000\n".as_slice();
    fs::write(&rt, path, text)?;
    assert!(rt; fault_of(&rt, &rt, path, Way::Open) == Some(OpenFault::Unavailable));
    assert!(rt; fault_of(&rt, &rt, path, Way::Create) == Some(OpenFault::Unavailable));
    assert!(rt; fs::read(&rt, path)?.as_slice() == text);
    clear(&rt, path)
}
