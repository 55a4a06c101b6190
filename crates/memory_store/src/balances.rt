//! The sums of an account's lines in memory.
ghost use Rattle.std.specs.Prelude.{◌≡◌, ◌+ℤ◌, pos, unwrap_or, IfOk, IfSome, OnOk};
ghost use Rattle.desk_accounts.specs.Balance.{day_sums};
ghost use Rattle.memory_store.specs.Finds.{AddsToDay};

use bank_days::Day;
use desk_accounts::{Account, Posting};
use desk_store::StoreFault;
use std::alloc::{AllocError, Global};
use std::collections::BTreeMap;

// Returns a day's sum with one more amount, if that fits: the sum of as many lines as memory holds
// does.
fn with_cents(sum: Option<i128>, cents: i128) -> Option<i128>
    ensures { IfSome result (λ made. made ≡ unwrap_or sum (pos 0) +ℤ cents) }
{
    match sum {
        Some(sum) => sum.checked_add(cents),
        None => Some(cents),
    }
}

// An amount is added to the sum of its day.
fn add_to_day(sums: &mut BTreeMap<Day, i128>, day: Day, cents: i128) -> Result<(), StoreFault>
    ensures { OnOk result (AddsToDay day cents sums.old.entries sums.new.entries) }
{
    let Some(sum) = with_cents(sums.get(&day).copied(), cents) else {
        return Err(StoreFault::Unavailable);
    };
    sums.insert(day, sum)?;
    Ok(())
}

fn add_line(sums: &mut BTreeMap<Day, i128>, line: &Posting) -> Result<(), StoreFault>
    ensures { OnOk result
        (AddsToDay line.now.value_day line.now.cents sums.old.entries sums.new.entries) }
{
    add_to_day(sums, line.value_day, i128::from(line.cents))
}

fn sums_by_day(
    alloc: Global,
    postings: &[Posting],
    account: Account,
) -> Result<BTreeMap<Day, i128>, StoreFault>
    ensures { IfOk result (λ sums. sums.entries ≡ day_sums account postings.now) }
{
    desk_accounts::balances_by_day();
    let mut sums = BTreeMap::new(alloc);
    for done in 0..postings.len() {
        // From the last line on, as the sums are defined.
        let line = &postings[postings.len() - 1 - done];
        if line.account.is(&account) {
            add_line(&mut sums, line)?;
        }
    }
    Ok(sums)
}

fn rows_of(alloc: Global, sums: &BTreeMap<Day, i128>) -> Result<Vec<(Day, i128)>, AllocError>
    ensures { IfOk result (λ rows. rows.items ≡ sums.now.entries) }
{
    let mut rows = Vec::new(alloc);
    for (day, sum) in sums {
        rows.push((*day, *sum))?;
    }
    Ok(rows)
}

/// Gives the sums of an account's lines by value day, ascending, in cents.
pub(crate) fn day_sums_of(
    alloc: Global,
    postings: &[Posting],
    account: Account,
) -> Result<Vec<(Day, i128)>, StoreFault>
    ensures { IfOk result (λ sums. sums.items ≡ day_sums account postings.now) }
{
    Ok(rows_of(alloc, &sums_by_day(alloc, postings, account)?)?)
}
