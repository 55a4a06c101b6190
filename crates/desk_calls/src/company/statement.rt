//! A company's statement lists the lines of its account.
ghost use Rattle.std.specs.Prelude.{◌≡◌, map, IfOk, IfSome};
ghost use Rattle.desk_book.specs.OnBook.{line_of};
ghost use Rattle.desk_calls.specs.Telling.{statement_of_sums};

use bank_days::Day;
use desk_accounts::{Posting, balance_of_days};
use desk_history::{ListOf, Statement, StatementLine};
use desk_store::StoreFault;
use emptying_lists::EmptyingList;
use std::alloc::Global;

// A line of a company's account. Each is of a submission.
fn line(posting: &Posting) -> Option<StatementLine>
    ensures { IfSome result (λ l. l ≡ line_of posting.now) }
{
    Some(StatementLine {
        cause: posting.cause,
        cents: posting.cents,
        day: posting.value_day,
        index: posting.idx,
        reference: posting.reference?,
    })
}

// The lines come into the place of the postings.
fn lines(alloc: Global, postings: Vec<Posting>) -> Result<Vec<StatementLine>, StoreFault>
    ensures { IfOk result (λ v. v.items ≡ map line_of postings.items) }
{
    let mut left = EmptyingList::new(postings);
    let mut lines = Vec::new(alloc);
    while let Some(posting) = left.take_first() {
        let line = line(&posting).ok_or(StoreFault::Unavailable)?;
        lines.push(line)?;
    }
    Ok(lines)
}

/// Gives a company's statement on a day, from the sums of its lines by value day and the lines, which are
/// let go.
pub(crate) fn statement(
    alloc: Global,
    day: Day,
    sums: &[(Day, i128)],
    postings: Vec<Posting>,
) -> Result<Statement, StoreFault>
    ensures { IfOk result (λ s. s ≡ statement_of_sums day sums.now postings.items) }
{
    let Some(balance) = balance_of_days(sums, day) else {
        return Err(StoreFault::Unavailable);
    };
    let lines = ListOf::new(lines(alloc, postings)?);
    Ok(Statement {
        balance,
        day,
        lines,
    })
}
