//! A body is made whole, or leaves nothing.
use super::bodies::{Deposit, Nothing, bank, totals};
use sql_statements::commit;
use sqlite::{Connection, Constraint, Error, ErrorCode, MemStore};
use std::alloc::Global;
use std::process::Abort;
use std::test::Fail;

const TAKEN: Error = Error::SqliteFailure(ErrorCode::ConstraintViolation(Constraint::Unique));

/// `Step` is what is done to a database.
#[derive(Clone, Copy, Debug)]
enum Step<'a> {
    /// Statements outside of a body.
    Batch(&'a str),
    /// A body that writes two lines from the first number on, and 500 cents for an account.
    Deposit { account: i64, first: u64 },
    /// A body without a statement.
    Nothing,
}

fn deposit(conn: &mut Connection<MemStore>, account: i64, first: u64) -> Result<(), Error> {
    let lines = [200, 300];
    let body = Deposit {
        account,
        cents: 500,
        first,
        lines: &lines,
    };
    commit(conn, &body)
}

fn batch(conn: &mut Connection<MemStore>, sql: &str) -> Result<(), Error> {
    conn.execute_batch(sql)
}

fn nothing(conn: &mut Connection<MemStore>) -> Result<(), Error> {
    commit(conn, &Nothing)
}

fn take(conn: &mut Connection<MemStore>, step: &Step<'_>) -> Result<(), Error> {
    match step {
        Step::Batch(sql) => batch(conn, sql),
        Step::Deposit { account, first } => deposit(conn, *account, *first),
        Step::Nothing => nothing(conn),
    }
}

/// Checks the end of each step, and the number of lines and the cents of all accounts after it.
fn follow(
    rt: &(impl Abort + Alloc<A = Global>),
    steps: &[(Step<'_>, Result<(), Error>, (i64, i64))],
) -> Result<(), Fail> {
    let mut conn = bank(rt)?;
    for (step, end, left) in steps {
        assert!(rt; &take(&mut conn, step) == end, "{step:?}");
        assert!(rt; &totals(&mut conn)? == left, "{step:?}");
    }
    Ok(())
}

#[test]
fn both_tables_are_written(rt: HostRuntime) -> Result<(), Fail> {
    let steps = [
        (
            Step::Deposit {
                account: 1,
                first: 1,
            },
            Ok(()),
            (2, 500),
        ),
        (
            Step::Deposit {
                account: 2,
                first: 3,
            },
            Ok(()),
            (4, 1000),
        ),
    ];
    follow(&rt, &steps)
}

// The second line has a number that is taken, or the account is not there.
#[test]
fn a_statement_that_fails_leaves_nothing(rt: HostRuntime) -> Result<(), Fail> {
    let steps = [
        (
            Step::Batch("INSERT INTO lines VALUES (8, 100)"),
            Ok(()),
            (1, 0),
        ),
        (
            Step::Deposit {
                account: 1,
                first: 7,
            },
            Err(TAKEN),
            (1, 0),
        ),
        (
            Step::Deposit {
                account: 3,
                first: 1,
            },
            Err(Error::InvalidQuery),
            (1, 0),
        ),
        (
            Step::Deposit {
                account: 1,
                first: 1,
            },
            Ok(()),
            (3, 500),
        ),
    ];
    follow(&rt, &steps)
}

// The transaction's writes are still there, and still not committed.
#[test]
fn a_transaction_that_is_open_goes_on(rt: HostRuntime) -> Result<(), Fail> {
    let steps = [
        (
            Step::Batch("BEGIN; INSERT INTO lines VALUES (9, 100)"),
            Ok(()),
            (1, 0),
        ),
        (
            Step::Deposit {
                account: 1,
                first: 1,
            },
            Err(Error::InvalidQuery),
            (1, 0),
        ),
        (Step::Batch("ROLLBACK"), Ok(()), (0, 0)),
        (
            Step::Deposit {
                account: 1,
                first: 1,
            },
            Ok(()),
            (2, 500),
        ),
    ];
    follow(&rt, &steps)
}

#[test]
fn a_body_may_run_nothing(rt: HostRuntime) -> Result<(), Fail> {
    follow(&rt, &[(Step::Nothing, Ok(()), (0, 0))])
}

fn seen(conn: &mut Connection<MemStore>) -> Result<(i64, i64), Error> {
    match totals(conn) {
        Ok(seen) => Ok(seen),
        Err(_) => totals(conn),
    }
}

// It also holds where memory runs out in the commit, as under `rt try --test --fail-alloc N` for an N
// that the commit comes to.
#[test]
fn a_commit_leaves_both_tables_or_none(rt: HostRuntime) -> Result<(), Fail> {
    let mut conn = bank(&rt)?;
    let made = deposit(&mut conn, 1, 1).is_ok();
    assert!(rt; seen(&mut conn)? == if made { (2, 500) } else { (0, 0) });
    Ok(())
}
