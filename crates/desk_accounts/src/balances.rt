//! Balances are sums of the lines that are valued on or before a day.
ghost use Rattle.std.specs.Prelude.{◌≡◌, MatchOption};
ghost use Rattle.desk_accounts.specs.Balance.{balance, share, with_row, IsDaysBalance, SumLeaves};

use crate::{Account, Posting};
use bank_days::Day;

/// Returns the balance of an account on a day, in cents: the sum of its lines valued on or before
/// the day.
///
/// A slice never has enough lines to overflow.
pub fn balance(postings: &[Posting], account: Account, day: Day) -> i128
    ensures { result ≡ balance account day postings.now }
{
    let mut sum: i128 = 0;
    for posting in postings {
        sum += i128::from(share(posting, &account, day));
    }
    sum
}

// Returns what a line adds to the balance of an account on a day.
fn share(posting: &Posting, account: &Account, day: Day) -> i64
    ensures { result ≡ share account.now day posting.now }
{
    if posting.account.is(account) && posting.value_day <= day {
        posting.cents
    } else {
        0
    }
}

/// Gives the balance of an account on a day, in cents, from the sums of its lines by value day: the
/// sum of the rows of a day on or before it.
///
/// Gives `None` where the sum of the first rows, however many, leaves an `i128`.
pub fn balance_of_days(rows: &[(Day, i128)], day: Day) -> Option<i128>
    ensures { MatchOption result (SumLeaves day rows.now) (IsDaysBalance day rows.now) }
{
    let mut sum: i128 = 0;
    for row in rows {
        sum = with_row(sum, row, day)?;
    }
    Some(sum)
}

// Returns a sum and what a row adds to it on a day, if that fits.
fn with_row(sum: i128, row: &(Day, i128), day: Day) -> Option<i128>
    ensures { result ≡ with_row day sum row.now }
{
    let cents = if row.0 <= day { row.1 } else { 0 };
    sum.checked_add(cents)
}
