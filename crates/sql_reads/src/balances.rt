//! The sums of an account.
ghost use Rattle.std.specs.Prelude.{◌≡◌, map, IfOk};
ghost use Rattle.sql_tables.specs.Composed.{day_sums_in};
ghost use Rattle.sql_queries.specs.Asking.{Asks, AreThe};

use bank_days::Day;
use desk_accounts::Account;
use desk_history::DaySum;
use desk_store::StoreFault;
use sql_queries::sums;
use sql_read_steps::or_unavailable;
use sqlite::{Alter, Connection};
use std::alloc::{AllocError, Global};

// Each sum as a pair.
fn pairs_of(alloc: Global, sums: &[DaySum]) -> Result<Vec<(Day, i128)>, AllocError>
    ensures { IfOk result (λ pairs. pairs.items ≡ map (λ s. (s.day, s.cents)) sums.now) }
{
    let mut pairs = Vec::new(alloc);
    for sum in sums {
        pairs.push((sum.day, sum.cents))?;
    }
    Ok(pairs)
}

/// Reads the sums of an account's lines by value day, ascending, in cents.
pub fn balances_of<S: Alter>(
    conn: &mut Connection<S>,
    alloc: Global,
    account: Account,
) -> Result<Vec<(Day, i128)>, StoreFault>
    ensures { Asks S.Store conn.old conn.new result (AreThe (day_sums_in account)) }
{
    let sums = or_unavailable(sums(conn, alloc, account))?;
    let pairs = pairs_of(alloc, &sums)?;
    Ok(pairs)
}
