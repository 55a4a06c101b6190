//! A list is written row by row.
use super::bodies::{Deposit, Marked, bank, totals};
use sql_statements::commit;
use sqlite::{Connection, Error, ErrorCode, MemStore};
use std::test::Fail;

fn mark(conn: &mut Connection<MemStore>, first: u64, rows: &[u8]) -> Result<(), Error> {
    commit(conn, &Marked { first, rows })
}

fn deposit(conn: &mut Connection<MemStore>) -> Result<(), Error> {
    let lines = [4, 5, 6];
    let body = Deposit {
        account: 1,
        cents: 15,
        first: 20,
        lines: &lines,
    };
    commit(conn, &body)
}

#[test]
fn each_row_has_its_number(rt: HostRuntime) -> Result<(), Fail> {
    let mut conn = bank(&rt)?;
    deposit(&mut conn)?;
    for (no, cents) in [(20, 4), (21, 5), (22, 6)] {
        assert!(rt; line(&mut conn, no)? == cents);
    }
    assert!(rt; totals(&mut conn)? == (3, 15));
    Ok(())
}

fn line(conn: &mut Connection<MemStore>, no: i64) -> Result<i64, Error> {
    conn.query_row(
        "SELECT cents FROM lines WHERE no = ?1",
        &[sql_statements::number(no)],
    )?
    .get(0)
}

#[test]
fn a_row_needs_a_number_after_its_own(rt: HostRuntime) -> Result<(), Fail> {
    let mut conn = bank(&rt)?;
    let past = Error::SqliteFailure(ErrorCode::IntegerOverflow);
    let cases: [(u64, &[u8], Result<(), Error>); 3] = [
        (u64::MAX, &[], Ok(())),
        (u64::MAX - 1, &[7], Ok(())),
        (u64::MAX, &[7], Err(past)),
    ];
    for (first, rows, end) in cases {
        assert!(rt; mark(&mut conn, first, rows) == end);
    }
    Ok(())
}
