//! A desk is made and checked in memory.
use crate::samples::{party_name, routing};
use desk_history::Identity;
use sql_setup::{OpenFault, check_desk, make_desk};
use sqlite::{Alter, Connection, Error, MemStore};
use std::alloc::Global;
use std::process::Abort;
use std::test::Fail;

fn identity(rt: &impl Abort) -> Identity {
    Identity {
        odfi: routing(rt, b"121042882"),
        odfi_name: party_name(rt, b"OUR BANK"),
        destination: routing(rt, b"061000146"),
        destination_name: party_name(rt, b"ACH OPERATOR"),
    }
}

// These have no clause, so that the proof of a test does not carry the state of each call.

fn make<S: Alter>(conn: &mut Connection<S>, identity: Identity) -> Result<(), OpenFault> {
    make_desk(conn, identity, [7; 32]).map_err(|why| why.told())
}

fn check<S: Alter>(alloc: Global, conn: &mut Connection<S>) -> Result<(), OpenFault> {
    check_desk(alloc, conn).map_err(|why| why.told())
}

fn batch(conn: &mut Connection<MemStore>, sql: &str) -> Result<(), Error> {
    conn.execute_batch(sql)
}

/// Tells what a check says of a new desk after these statements.
fn checked_after(
    rt: &(impl Abort + Alloc<A = Global>),
    sql: &str,
) -> Result<Result<(), OpenFault>, Fail> {
    let mut conn = Connection::open_in_memory(rt.alloc())?;
    assert!(rt; make(&mut conn, identity(rt)) == Ok(()));
    batch(&mut conn, sql)?;
    Ok(check(rt.alloc(), &mut conn))
}

#[test]
fn a_new_desk_is_a_desk(rt: HostRuntime) -> Result<(), Fail> {
    assert!(rt; checked_after(&rt, "")? == Ok(()));
    Ok(())
}

#[test]
fn a_desk_is_made_once(rt: HostRuntime) -> Result<(), Fail> {
    let mut conn = Connection::open_in_memory(rt.alloc())?;
    assert!(rt; make(&mut conn, identity(&rt)) == Ok(()));
    assert!(rt; make(&mut conn, identity(&rt)) == Err(OpenFault::Exists));
    assert!(rt; check(rt.alloc(), &mut conn) == Ok(()));
    Ok(())
}

#[test]
fn what_is_not_blank_becomes_no_desk(rt: HostRuntime) -> Result<(), Fail> {
    let mut conn = Connection::open_in_memory(rt.alloc())?;
    batch(&mut conn, "CREATE TABLE notes (id INT)")?;
    assert!(rt; make(&mut conn, identity(&rt)) == Err(OpenFault::Unavailable));
    assert!(rt; check(rt.alloc(), &mut conn) == Err(OpenFault::NotADesk));
    Ok(())
}

#[test]
fn what_is_blank_is_no_desk(rt: HostRuntime) -> Result<(), Fail> {
    let mut conn = Connection::open_in_memory(rt.alloc())?;
    assert!(rt; check(rt.alloc(), &mut conn) == Err(OpenFault::NotADesk));
    Ok(())
}

#[test]
fn a_version_is_told_whatever_else_there_is(rt: HostRuntime) -> Result<(), Fail> {
    let changes = [
        ("UPDATE desk SET version = 9", 9),
        ("UPDATE desk SET version = 1; DROP TABLE numbers", 1),
        (
            "UPDATE desk SET version = 3; CREATE TABLE notes (id INT)",
            3,
        ),
        (
            "DROP TABLE desk; CREATE TABLE desk (id INTEGER PRIMARY KEY, version INTEGER, note TEXT); INSERT INTO desk VALUES (1, 9, 'other columns')",
            9,
        ),
    ];
    for (sql, version) in &changes {
        assert!(rt;
            checked_after(&rt, sql)? == Err(OpenFault::WrongVersion(*version)),
            "{sql}"
        );
    }
    Ok(())
}

#[test]
fn what_has_no_row_of_a_desk_is_no_desk(rt: HostRuntime) -> Result<(), Fail> {
    let losses = [
        "DELETE FROM desk",
        "DROP TABLE desk",
        "DROP TABLE desk; CREATE TABLE desk (note TEXT)",
        "DROP TABLE desk; CREATE VIEW desk AS SELECT name FROM companies",
    ];
    for sql in &losses {
        assert!(rt;
            checked_after(&rt, sql)? == Err(OpenFault::NotADesk),
            "{sql}"
        );
    }
    Ok(())
}

#[test]
fn what_has_other_tables_is_unavailable(rt: HostRuntime) -> Result<(), Fail> {
    let changes = [
        "DROP TABLE authorizations",
        "DROP INDEX entries_seq",
        "CREATE TABLE notes (id INT)",
        "CREATE VIEW companies_by_name AS SELECT name FROM companies",
        "DROP TABLE authorizations; CREATE TABLE authorizations (company TEXT NOT NULL, ord INT NOT NULL, day INT, PRIMARY KEY (company, ord)) STRICT",
        "DROP TABLE desk; CREATE TABLE desk (id INTEGER PRIMARY KEY, version TEXT); INSERT INTO desk VALUES (1, 'two')",
        "DROP TABLE desk; CREATE TABLE desk (note TEXT); INSERT INTO desk VALUES ('no version')",
    ];
    for sql in &changes {
        assert!(rt;
            checked_after(&rt, sql)? == Err(OpenFault::Unavailable),
            "{sql}"
        );
    }
    Ok(())
}

#[test]
fn nothing_is_done_inside_a_transaction(rt: HostRuntime) -> Result<(), Fail> {
    assert!(rt; checked_after(&rt, "BEGIN")? == Err(OpenFault::Unavailable));
    let mut conn = Connection::open_in_memory(rt.alloc())?;
    batch(&mut conn, "BEGIN")?;
    assert!(rt; make(&mut conn, identity(&rt)) == Err(OpenFault::Unavailable));
    Ok(())
}
