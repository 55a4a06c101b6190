//! A body reads what its transaction sees.
use super::bodies::{NextLine, bank, shown};
use sql_statements::commit;
use sqlite::{Connection, Error, MemStore};
use std::test::Fail;

// The sum of the numbers and of the cents, after one line more.
fn sums_after_next(conn: &mut Connection<MemStore>) -> Result<(i64, i64), Error> {
    commit(conn, &NextLine)?;
    sums(conn)
}

fn sums(conn: &mut Connection<MemStore>) -> Result<(i64, i64), Error> {
    let numbers = shown(conn, "SELECT sum(no) FROM lines")?;
    Ok((numbers, shown(conn, "SELECT sum(cents) FROM lines")?))
}

#[test]
fn a_body_goes_on_from_the_last_row(rt: HostRuntime) -> Result<(), Fail> {
    let mut conn = bank(&rt)?;
    for wanted in [(10, 0), (30, 1), (60, 3)] {
        assert!(rt; sums_after_next(&mut conn)? == wanted);
    }
    Ok(())
}
