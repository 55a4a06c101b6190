//! Databases are migrated, or refused as they are.
use super::first_version::{INDEXES, ROWS, TABLES};
use desk_tables::migrate;
use sql_queries::places;
use sql_setup::{OpenFault, check_desk};
use sqlite::{Connection, Error, MemStore};
use std::alloc::Global;
use std::test::Fail;

// These have no clause, so that the proof of a test does not carry the state of each call.

fn batch(conn: &mut Connection<MemStore>, sql: &str) -> Result<(), Error> {
    conn.execute_batch(sql)
}

fn migrate_desk(alloc: Global, conn: &mut Connection<MemStore>) -> Result<(), OpenFault> {
    migrate(alloc, conn)
}

fn check(alloc: Global, conn: &mut Connection<MemStore>) -> Result<(), OpenFault> {
    check_desk(alloc, conn).map_err(|why| why.told())
}

// The places of the sequences up to 9.
fn first_places(alloc: Global, conn: &mut Connection<MemStore>) -> Result<Vec<u64>, Error> {
    places(conn, alloc, 1, 9)
}

/// Gives a database of version 1 after these statements.
fn first_desk(alloc: Global, sql: &str) -> Result<Connection<MemStore>, Fail> {
    let mut conn = Connection::open_in_memory(alloc)?;
    batch(&mut conn, TABLES)?;
    batch(&mut conn, INDEXES)?;
    batch(&mut conn, ROWS)?;
    batch(&mut conn, sql)?;
    Ok(conn)
}

#[test]
fn what_was_sent_is_numbered(rt: HostRuntime) -> Result<(), Fail> {
    let alloc = rt.alloc();
    let mut conn = first_desk(alloc, "")?;
    assert!(rt; check(alloc, &mut conn) == Err(OpenFault::WrongVersion(1)));
    assert!(rt; migrate_desk(alloc, &mut conn) == Ok(()));
    assert!(rt; check(alloc, &mut conn) == Ok(()));
    let found = first_places(alloc, &mut conn)?;
    assert!(rt; found.as_slice() == [1, 2].as_slice());
    Ok(())
}

#[test]
fn a_desk_is_migrated_once(rt: HostRuntime) -> Result<(), Fail> {
    let alloc = rt.alloc();
    let mut conn = first_desk(alloc, "")?;
    assert!(rt; migrate_desk(alloc, &mut conn) == Ok(()));
    assert!(rt; migrate_desk(alloc, &mut conn) == Err(OpenFault::WrongVersion(2)));
    assert!(rt; check(alloc, &mut conn) == Ok(()));
    Ok(())
}

#[test]
fn what_is_no_first_version_is_refused(rt: HostRuntime) -> Result<(), Fail> {
    let refusals = [
        ("UPDATE desk SET version = 9", OpenFault::WrongVersion(9)),
        (
            "UPDATE desk SET version = 9; DROP TABLE balances",
            OpenFault::WrongVersion(9),
        ),
        ("DELETE FROM desk", OpenFault::NotADesk),
        ("DROP TABLE desk", OpenFault::NotADesk),
        ("DROP TABLE balances", OpenFault::Unavailable),
        ("DROP INDEX entries_seq", OpenFault::Unavailable),
        ("CREATE TABLE notes (id INT)", OpenFault::Unavailable),
        ("BEGIN", OpenFault::Unavailable),
    ];
    for (sql, fault) in &refusals {
        let mut conn = first_desk(rt.alloc(), sql)?;
        assert!(rt; migrate_desk(rt.alloc(), &mut conn) == Err(*fault), "{sql}");
    }
    Ok(())
}

#[test]
fn what_fails_leaves_the_first_version(rt: HostRuntime) -> Result<(), Fail> {
    let alloc = rt.alloc();
    let mut conn = first_desk(alloc, "UPDATE entries SET seq = 1")?;
    assert!(rt; migrate_desk(alloc, &mut conn) == Err(OpenFault::Unavailable));
    assert!(rt; check(alloc, &mut conn) == Err(OpenFault::WrongVersion(1)));
    batch(&mut conn, "UPDATE entries SET seq = NULL")?;
    assert!(rt; migrate_desk(alloc, &mut conn) == Ok(()));
    let found = first_places(alloc, &mut conn)?;
    assert!(rt; found.is_empty());
    Ok(())
}
