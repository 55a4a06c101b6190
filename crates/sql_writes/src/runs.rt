//! A transaction does the same for each row of a list, for rows that follow one another at a time.
ghost use Rattle.std.specs.Prelude.{◌≡◌, ◌≤◌, ◌<◌, ◌+◌, ◌-ℤ◌, ◌^◌, ℕ, pos, Bool, true, List, IsTrue, IfOk, take, length};
ghost use Rattle.sqlite.specs.Values.{bound, bound_value};
ghost use Rattle.sqlite_value.specs.Value.{owned};
ghost use Rattle.sqlite_value.specs.declared.value.Value.TheVariants.{Int};
ghost use Rattle.sql_statements.specs.Edits.{Edit};
ghost use Rattle.sql_statements.specs.Layouts.{Layout};
ghost use Rattle.sql_statements.specs.Promises.{Ran, Runs};
ghost use Rattle.sql_writes.specs.Runs.{is_run};
ghost use Rattle.sql_writes.specs.DeskEdits.{EditsEach};

use sql_statements::{execute, number};
use sql_tables::integer;
use sqlite::types::ValueRef;
use sqlite::{Alter, Error, ErrorCode, Transaction};

/// A `Follows` says which rows of a list follow one another.
pub(crate) trait Follows {
    type Row;

    /// Says which row stands so many after the first.
    ghost stands_after: { Self → Self.Row → ℕ → Self.Row → Bool };

    /// Does a row stand so many after the first?
    fn follows(&self, first: &Self::Row, after: u64, row: &Self::Row) -> bool
        ensures { IsTrue result → stands_after self.now first.now after row.now ≡ true };
}

/// A `RunBody` has the statements of a run, rows of a list that follow one another. They make the edits
/// of these rows, one after another.
pub(crate) trait RunBody {
    type Row;

    /// Tells runs apart, where rows follow one another in more than one way.
    type Way: Copy;

    /// Says how the tables stand in the database.
    ghost layout: { Layout };

    /// Says what becomes of the tables for a row that has this number.
    ghost edit: { Self → ℕ → Self.Row → Edit layout.Tables };

    /// Says which rows are a run.
    ghost are_run: { Self → Self.Way → List Self.Row → Bool };

    /// How many rows at the start of a list are a run, and of which way.
    fn first_run(&self, rows: &[Self::Row]) -> (Self::Way, usize)
        requires { 0 < length rows.now }
        ensures some { 0 < result.1 }
        ensures within { result.1 ≤ length rows.now }
        ensures run { are_run self.now result.0 (take result.1 rows.now) ≡ true };

    /// Runs the statements of a run, of which the first has this number. After an error the
    /// transaction has to be rolled back.
    fn run_rows<S: Alter>(
        &self,
        tx: &mut Transaction<'_, S>,
        first: u64,
        way: Self::Way,
        rows: &[Self::Row],
    ) -> Result<(), Error>
        requires some { 0 < length rows.now }
        requires run { are_run self.now way rows.now ≡ true }
        requires numbers { first + length rows.now < 2 ^ 64 }
        ensures { EditsEach S.Store layout tx.old tx.new result (edit self.now) first rows.now };
}

/// How many rows at the start of a list follow one another.
pub(crate) fn run_length<F: Follows>(body: &F, rows: &[F::Row]) -> usize
    requires { 0 < length rows.now }
    ensures some { 0 < result }
    ensures within { result ≤ length rows.now }
    ensures run { is_run (F.stands_after body.now) (take result rows.now) ≡ true }
{
    let first = &rows[0];
    for at in 1..rows.len() {
        if !body.follows(first, at as u64, &rows[at]) {
            return at;
        }
    }
    rows.len()
}

/// Runs the statements of each run of a list, in order, with numbers from the first on. Where no number
/// comes after that of a row, it ends with `ErrorCode::IntegerOverflow`.
pub(crate) fn run_runs<S: Alter, B: RunBody>(
    tx: &mut Transaction<'_, S>,
    body: &B,
    first: u64,
    rows: &[B::Row],
) -> Result<(), Error>
    ensures { EditsEach S.Store B.layout tx.old tx.new result (B.edit body.now) first rows.now }
{
    let mut number = first;
    let mut rest = rows;
    'runs: while !rest.is_empty() {
        let (way, many) = body.first_run(rest);
        let (run, later) = rest.split_at(many);
        let Some(next) = number.checked_add(run.len() as u64) else {
            return Err(Error::SqliteFailure(ErrorCode::IntegerOverflow));
        };
        body.run_rows(tx, number, way, run)?;
        number = next;
        rest = later;
    }
    Ok(())
}

/// A `Span` says which keys a run has in a table, one after another, and which numbers it gives them.
#[derive(Clone, Copy)]
pub(crate) struct Span<'a> {
    /// The key of the last row.
    pub last: u64,
    /// What is added to a key for its number. It is less than 0 where keys are past their numbers.
    pub added: ValueRef<'a>,
}

/// The span of so many keys from a first one on, that get numbers from a first one on.
/// `Error::InvalidQuery` says that a number or a key is past 2^63 - 1, the last that a column has.
pub(crate) fn span_of<'a>(first: u64, key: u64, many: usize) -> Result<Span<'a>, Error>
    requires { 0 < many }
    ensures last { IfOk result (λ s. s.last + 1 ≡ key + many) }
    ensures added { IfOk result (λ s. bound_value (owned s.added) ≡ Int (pos first -ℤ pos key)) }
    ensures room { IfOk result (λ s. first + many ≤ 2 ^ 63) }
{
    let more = many as u64 - 1;
    let (Some(last), Some(end)) = (key.checked_add(more), first.checked_add(more)) else {
        return Err(Error::InvalidQuery);
    };
    if end > i64::MAX as u64 {
        return Err(Error::InvalidQuery);
    }
    match integer(first)?.checked_sub(integer(key)?) {
        Some(added) => Ok(Span {
            last,
            added: number(added),
        }),
        None => Err(Error::InvalidQuery),
    }
}

/// Runs a statement that has to write so many rows. `Error::InvalidQuery` says that it wrote fewer, or
/// more.
pub(crate) fn execute_all<S: Alter>(
    tx: &mut Transaction<'_, S>,
    sql: &str,
    params: &[ValueRef<'_>],
    many: usize,
) -> Result<(), Error>
    ensures { Runs S.Store tx.old.conn tx.new.conn result (Ran sql.now (bound params.now) many) }
{
    let count = execute(tx, sql, params)?;
    if count == many {
        Ok(())
    } else {
        Err(Error::InvalidQuery)
    }
}
