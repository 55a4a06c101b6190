//! The operator's reads: files, the settlement account and suspense.
ghost use Rattle.std.specs.Prelude.{◌≡◌, map, IfOk};
ghost use Rattle.desk_history.specs.Postings.{day_sum};
ghost use Rattle.desk_admission.specs.Answering.{Answers};
ghost use Rattle.desk_book.specs.OnOperator.{file_answer, settlement_answer, suspense_answer};
ghost use Rattle.desk_admission.specs.OverStores.{AnswersAsked};
ghost use Rattle.desk_calls.specs.Telling.{settlement_of_sums};

use bank_days::Day;
use desk_accounts::Account;
use desk_admission::{desk_day, refuse};
use desk_history::{Answer, DaySum, ListOf, Outcome, Settlement};
use desk_store::{Store, StoreFault};
use std::alloc::{AllocError, Global};

/// Answers with the text of a file that a cut made.
pub(crate) fn file_text<S: Store>(
    store: &mut S,
    alloc: Global,
    day: Day,
    modifier: u8,
) -> Result<Answer, StoreFault>
    ensures { AnswersAsked S.Store store.old store.new result (file_answer day modifier) }
{
    let text = store.file(alloc, day, modifier)?;
    Ok(Answer::Done(Outcome::File(text)))
}

/// Answers with the operator's account on the desk day.
pub(crate) fn settlement<S: Store>(store: &mut S, alloc: Global) -> Result<Answer, StoreFault>
    ensures { AnswersAsked S.Store store.old store.new result settlement_answer }
{
    desk_accounts::balances_by_day();
    let day = match desk_day(store, alloc)? {
        Ok(day) => day,
        Err(why) => return Ok(refuse(why)),
    };
    let rows = store.balances_of(alloc, Account::Operator)?;
    let settlement = settlement_of(alloc, &rows, day)?;
    Ok(Answer::Done(Outcome::Settlement(settlement)))
}

// The settlement on a day, from the sums by value day.
fn settlement_of(alloc: Global, rows: &[(Day, i128)], day: Day) -> Result<Settlement, StoreFault>
    ensures { IfOk result (λ s. s ≡ settlement_of_sums day rows.now) }
{
    let Some(balance) = desk_accounts::balance_of_days(rows, day) else {
        return Err(StoreFault::Unavailable);
    };
    let days = ListOf::new(sums_of(alloc, rows)?);
    Ok(Settlement { balance, day, days })
}

fn sums_of(alloc: Global, rows: &[(Day, i128)]) -> Result<Vec<DaySum>, AllocError>
    ensures { IfOk result (λ sums. sums.items ≡ map day_sum rows.now) }
{
    let mut sums = Vec::new(alloc);
    for row in rows {
        sums.push(DaySum {
            cents: row.1,
            day: row.0,
        })?;
    }
    Ok(sums)
}

/// Answers with the items in suspense.
pub(crate) fn suspense_items<S: Store>(store: &mut S, alloc: Global) -> Result<Answer, StoreFault>
    ensures { AnswersAsked S.Store store.old store.new result suspense_answer }
{
    let items = store.suspense(alloc)?;
    Ok(Answer::Done(Outcome::Suspense(ListOf::new(items))))
}
