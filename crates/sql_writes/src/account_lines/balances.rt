//! Balances: the sums of the lines of an account and a value day.
ghost use Rattle.sql_writes.specs.LineEdits.{put_balance_edit, sum_is};
ghost use Rattle.sql_writes.specs.DeskEdits.{Edits, EditsWith};

use crate::cell::cell_inside;
use bank_days::Day;
use desk_accounts::Account;
use itoa::Buffer;
use sql_statements::execute;
use sql_tables::{account_text, characters, date};
use sqlite::{Alter, Error, Transaction};

/// Finds the sum of an account's lines of a value day, as the transaction sees it.
pub(crate) fn sum_inside<S: Alter>(
    tx: &mut Transaction<'_, S>,
    account: &Account,
    value_day: Day,
) -> Result<Option<i128>, Error>
    ensures { EditsWith S.Store tx.old tx.new result (sum_is account.now value_day) }
{
    let text = account_text(account);
    let sum = cell_inside(
        tx,
        "SELECT cents FROM balances WHERE account = ?1 AND value_day = ?2 ORDER BY account, value_day",
        &[characters(text.as_slice()), date(value_day)],
    )?;
    Ok(sum)
}

/// Writes the sum of an account's lines of a value day, in place of the sum before.
pub(crate) fn put_balance<S: Alter>(
    tx: &mut Transaction<'_, S>,
    account: &Account,
    value_day: Day,
    cents: i128,
) -> Result<(), Error>
    ensures { Edits S.Store tx.old tx.new result (put_balance_edit account.now value_day cents) }
{
    let text = account_text(account);
    let mut digits = Buffer::new();
    let cents = digits.format(cents);
    execute(
        tx,
        "INSERT INTO balances VALUES (?1, ?2, ?3) ON CONFLICT (account, value_day) DO UPDATE SET cents = ?3",
        &[
            characters(text.as_slice()),
            date(value_day),
            characters(cents.as_bytes()),
        ],
    )?;
    Ok(())
}
