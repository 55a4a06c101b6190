//! Accounts and their lines in two tables, and bodies that write both.
ghost use Rattle.std.specs.Prelude.{⊤};
ghost use Rattle.sql_statements.specs.Edits.{no_edit};
ghost use Rattle.sql_statements.specs.Promises.{Runs};
ghost use Rattle.tests_of_the_tables.specs.Untold.{untold};

use sql_statements::{
    RowBody, TransactionBody, execute, execute_one, number, query_first_inside, query_inside,
    run_each,
};
use sqlite::{Alter, Connection, Error, MemStore, Transaction};
use std::alloc::Global;

// These have no clause, so that the proof of a test does not carry the state of each call.

/// Gives a database with two accounts and no line.
pub(super) fn bank(rt: &impl Alloc<A = Global>) -> Result<Connection<MemStore>, Error> {
    let mut conn = Connection::open_in_memory(rt.alloc())?;
    conn.execute_batch(
        "CREATE TABLE accounts (id INT PRIMARY KEY, cents INT NOT NULL) STRICT; CREATE TABLE lines (no INT PRIMARY KEY, cents INT NOT NULL) STRICT; INSERT INTO accounts VALUES (1, 0), (2, 0)",
    )?;
    Ok(conn)
}

/// Gives the number that a query shows.
pub(super) fn shown<S: Alter>(conn: &mut Connection<S>, sql: &str) -> Result<i64, Error> {
    conn.query_row(sql, &[])?.get(0)
}

/// Tells the number of lines, and the cents of all accounts.
pub(super) fn totals<S: Alter>(conn: &mut Connection<S>) -> Result<(i64, i64), Error> {
    let lines = shown(conn, "SELECT count(*) FROM lines")?;
    Ok((lines, shown(conn, "SELECT sum(cents) FROM accounts")?))
}

/// `Lines` writes a line under its number.
#[derive(Clone, Copy)]
pub(super) struct Lines;

impl RowBody for Lines {
    type Row = i64;

    ghost layout = { untold };

    ghost edit = { λ _ _ _. no_edit };

    fn run_row<S: Alter>(
        &self,
        tx: &mut Transaction<'_, S>,
        no: u64,
        cents: &i64,
    ) -> Result<(), Error> {
        let Ok(no) = i64::try_from(no) else {
            return Err(Error::IntegralValueOutOfRange(0));
        };
        execute(
            tx,
            "INSERT INTO lines VALUES (?1, ?2)",
            &[number(no), number(*cents)],
        )?;
        Ok(())
    }
}

/// A `Deposit` writes lines from a first number on, and then adds cents to an account.
#[derive(Clone, Copy)]
pub(super) struct Deposit<'a> {
    pub account: i64,
    pub cents: i64,
    pub first: u64,
    pub lines: &'a [i64],
}

impl<'a> TransactionBody for Deposit<'a> {
    ghost layout = { untold };

    ghost edit = { λ _. no_edit };

    fn run<S: Alter>(&self, tx: &mut Transaction<'_, S>) -> Result<(), Error> {
        run_each(tx, &Lines, self.first, self.lines)?;
        execute_one(
            tx,
            "UPDATE accounts SET cents = cents + ?2 WHERE id = ?1",
            &[number(self.account), number(self.cents)],
        )?;
        Ok(())
    }
}

/// `Nothing` runs no statement.
#[derive(Clone, Copy)]
pub(super) struct Nothing;

impl TransactionBody for Nothing {
    ghost layout = { untold };

    ghost edit = { λ _. no_edit };

    fn run<S: Alter>(&self, _tx: &mut Transaction<'_, S>) -> Result<(), Error> {
        Ok(())
    }
}

/// Gives the number of the last line, 0 before the first.
fn last_line<S: Alter>(tx: &mut Transaction<'_, S>) -> Result<i64, Error>
    ensures { Runs S.Store tx.old.conn tx.new.conn result (λ _ _. ⊤) }
{
    match query_first_inside(tx, "SELECT no FROM lines ORDER BY no DESC LIMIT 1", &[])? {
        None => Ok(0),
        Some(row) => row.get(0),
    }
}

/// Gives the number of lines.
fn line_count<S: Alter>(tx: &mut Transaction<'_, S>) -> Result<i64, Error>
    ensures { Runs S.Store tx.old.conn tx.new.conn result (λ _ _. ⊤) }
{
    let rows = query_inside(tx, "SELECT no FROM lines ORDER BY no", &[])?;
    match i64::try_from(rows.len()) {
        Ok(count) => Ok(count),
        Err(_) => Err(Error::IntegralValueOutOfRange(0)),
    }
}

/// Gives what `NextLine` writes.
fn next_line<S: Alter>(tx: &mut Transaction<'_, S>) -> Result<(i64, i64), Error>
    ensures { Runs S.Store tx.old.conn tx.new.conn result (λ _ _. ⊤) }
{
    let last = last_line(tx)?;
    let count = line_count(tx)?;
    Ok((last.saturating_add(10), count))
}

/// `NextLine` writes a line under a number that is 10 above the last one, of as many cents as there
/// were lines.
#[derive(Clone, Copy)]
pub(super) struct NextLine;

impl TransactionBody for NextLine {
    ghost layout = { untold };

    ghost edit = { λ _. no_edit };

    fn run<S: Alter>(&self, tx: &mut Transaction<'_, S>) -> Result<(), Error> {
        let (no, count) = next_line(tx)?;
        execute_one(
            tx,
            "INSERT INTO lines VALUES (?1, ?2)",
            &[number(no), number(count)],
        )
    }
}

/// `Marks` writes nothing for a row.
#[derive(Clone, Copy)]
pub(super) struct Marks;

impl RowBody for Marks {
    type Row = u8;

    ghost layout = { untold };

    ghost edit = { λ _ _ _. no_edit };

    fn run_row<S: Alter>(
        &self,
        _tx: &mut Transaction<'_, S>,
        _number: u64,
        _row: &u8,
    ) -> Result<(), Error> {
        Ok(())
    }
}

/// `Marked` does so for rows with numbers from a first one.
#[derive(Clone, Copy)]
pub(super) struct Marked<'a> {
    pub first: u64,
    pub rows: &'a [u8],
}

impl<'a> TransactionBody for Marked<'a> {
    ghost layout = { untold };

    ghost edit = { λ _. no_edit };

    fn run<S: Alter>(&self, tx: &mut Transaction<'_, S>) -> Result<(), Error> {
        run_each(tx, &Marks, self.first, self.rows)
    }
}
