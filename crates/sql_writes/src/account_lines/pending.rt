//! Lines are added to balances in memory, so that the row of a balance is read and written once for
//! many lines.
ghost use Rattle.std.specs.Prelude.{◌≡◌, ◌-◌, ◌<◌, ◌+ℤ◌, ℕ, pos, [], take, IfOk, OnOk, unwrap_or};
ghost use Rattle.arrayvec.specs.ArrayVec.{array_vec_len};
ghost use Rattle.sql_writes.specs.LineEdits.{add_lines_edit};
ghost use Rattle.sql_writes.specs.PendingBalances.{is_pending_of, summed, pending_place, AddsLine, AddsBut, KeepsBut};
ghost use Rattle.sql_writes.specs.DeskEdits.{Edits};

use crate::account_lines::balances::{put_balance, sum_inside};
use arrayvec::ArrayVec;
use bank_days::Day;
use desk_accounts::{Account, Posting};
use sqlite::{Alter, Error, ErrorCode, Transaction};

/// So many balances are pending at most.
const MOST_PENDING: usize = 64;

/// The number of any day.
const ANY_DAY: i64 = 20_000;

/// A `PendingBalance` is the sum of an account's lines of a value day, some of which its row does not
/// have yet.
#[derive(Clone, Copy, Drop)]
pub(crate) struct PendingBalance {
    account: Account,
    value_day: Day,
    cents: i128,
}

// An unused place of a list has it, and nothing reads it there.
impl Default for PendingBalance {
    fn default() -> PendingBalance {
        PendingBalance {
            account: Account::Operator,
            value_day: Day::from_number(ANY_DAY).unwrap(),
            cents: 0,
        }
    }
}

type PendingBalances = ArrayVec<PendingBalance, MOST_PENDING>;

/// Adds lines to the balances of their accounts and value days. Where a balance has no sum with a line,
/// it ends with `ErrorCode::IntegerOverflow`.
pub(crate) fn add_lines<S: Alter>(
    tx: &mut Transaction<'_, S>,
    lines: &[Posting],
) -> Result<(), Error>
    ensures { Edits S.Store tx.old tx.new result (add_lines_edit lines.now) }
{
    let mut pending: PendingBalances = ArrayVec::new();
    for line in lines {
        add_line(tx, &mut pending, line)?;
    }
    write_all(tx, &mut pending)?;
    Ok(())
}

// Adds a line to the balance of its account and value day, which is pending then.
fn add_line<S: Alter>(
    tx: &mut Transaction<'_, S>,
    pending: &mut PendingBalances,
    line: &Posting,
) -> Result<(), Error>
    ensures { AddsBut S.Store tx.old tx.new result pending.old.items pending.new.items line.now }
{
    let at = place_of(pending.as_slice(), line);
    if at < pending.len() {
        add_there(pending, at, line)?;
        return Ok(());
    }
    add_new(tx, pending, line)?;
    Ok(())
}

// The place of the balance of a line's account and value day, or after the last where there is none.
fn place_of(pending: &[PendingBalance], line: &Posting) -> usize
    ensures { result ≡ pending_place line.now pending.now }
{
    let mut at = 0;
    for balance in pending {
        if is_of(balance, line) {
            break;
        }
        at += 1;
    }
    at
}

// Is it the balance of the line's account and value day?
fn is_of(balance: &PendingBalance, line: &Posting) -> bool
    ensures { result ≡ is_pending_of line.now.account line.now.value_day balance.now }
{
    balance.account.is(&line.account) && balance.value_day == line.value_day
}

// Adds a line to a pending balance, the first of its account and value day.
fn add_there(pending: &mut PendingBalances, at: usize, line: &Posting) -> Result<(), Error>
    requires first { at ≡ pending_place line.now pending.old.items }
    requires within { at < array_vec_len pending.old }
    ensures { OnOk result (AddsLine line.now pending.old.items pending.new.items) }
{
    let sum = sum_with(Some(pending[at].cents), line.cents)?;
    pending[at] = with_sum(line, sum);
    Ok(())
}

// The sum of an account and value day, with a line.
fn sum_with(before: Option<i128>, cents: i64) -> Result<i128, Error>
    ensures { IfOk result (λ sum. sum ≡ unwrap_or before (pos 0) +ℤ cents) }
{
    match before.unwrap_or(0).checked_add(i128::from(cents)) {
        Some(sum) => Ok(sum),
        None => Err(Error::SqliteFailure(ErrorCode::IntegerOverflow)),
    }
}

// The balance of a line's account and value day, with this sum.
fn with_sum(line: &Posting, cents: i128) -> PendingBalance
    ensures { result ≡ summed line.now cents }
{
    PendingBalance {
        account: line.account,
        value_day: line.value_day,
        cents,
    }
}

// Adds a line to a balance that is not pending yet.
fn add_new<S: Alter>(
    tx: &mut Transaction<'_, S>,
    pending: &mut PendingBalances,
    line: &Posting,
) -> Result<(), Error>
    requires { array_vec_len pending.old ≡ pending_place line.now pending.old.items }
    ensures { AddsBut S.Store tx.old tx.new result pending.old.items pending.new.items line.now }
{
    make_room(tx, pending)?;
    let before = sum_inside(tx, &line.account, line.value_day)?;
    let sum = sum_with(before, line.cents)?;
    pending.push(with_sum(line, sum));
    Ok(())
}

// Makes room for a balance: where there is none, it writes the last one.
fn make_room<S: Alter>(
    tx: &mut Transaction<'_, S>,
    pending: &mut PendingBalances,
) -> Result<(), Error>
    ensures room { OnOk result (array_vec_len pending.new < MOST_PENDING) }
    ensures front { (count : ℕ) × (pending.new.items ≡ take count pending.old.items) }
    ensures runs { KeepsBut S.Store tx.old tx.new result pending.old.items pending.new.items }
{
    if !pending.is_full() {
        return Ok(());
    }
    write_last(tx, pending)?;
    Ok(())
}

// Writes all that are pending, the last one first.
fn write_all<S: Alter>(
    tx: &mut Transaction<'_, S>,
    pending: &mut PendingBalances,
) -> Result<(), Error>
    ensures { KeepsBut S.Store tx.old tx.new result pending.old.items [] }
{
    'writes: while !pending.is_empty() {
        write_last(tx, pending)?;
    }
    Ok(())
}

// Writes the last balance that is pending, if there is one.
fn write_last<S: Alter>(
    tx: &mut Transaction<'_, S>,
    pending: &mut PendingBalances,
) -> Result<(), Error>
    ensures rest { pending.new.items ≡ take (array_vec_len pending.old - 1) pending.old.items }
    ensures runs { KeepsBut S.Store tx.old tx.new result pending.old.items pending.new.items }
{
    let Some(last) = pending.pop() else {
        return Ok(());
    };
    put_balance(tx, &last.account, last.value_day, last.cents)?;
    Ok(())
}
