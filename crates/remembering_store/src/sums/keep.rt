//! What is kept of a submission that was just accepted.
ghost use Rattle.std.specs.Prelude.{◌≡◌, IfSome, List, Option, None, true, map};
ghost use Rattle.desk_book.specs.declared.row.Row.{Row};
ghost use Rattle.desk_book.specs.Standing.{next_row};
ghost use Rattle.desk_rules.specs.declared.bodies.submission.Retry.{Retry};
ghost use Rattle.remembering_store.specs.KnownRow.{Fits};

use crate::sums::open_row::OpenRow;
use desk_rules::{Entry, SizedSubmission};
use std::alloc::{AllocError, Global};

// Returns the cents of each entry of a submission of debits, and nothing for credits.
fn cents_of(alloc: Global, debit: bool, entries: &[Entry]) -> Option<Vec<u64>>
    ensures { IfSome result
        (λ cents. debit ≡ true → cents.items ≡ map (λ e. e.cents) entries.now) }
{
    let mut cents = Vec::new(alloc);
    if !debit {
        return Some(cents);
    }
    for entry in entries {
        if cents.push(entry.cents.get()).is_err() {
            return None;
        }
    }
    Some(cents)
}

/// Returns what to keep of an accepted submission, which is held, or `None` if there is no memory.
pub(crate) fn keep(alloc: Global, content: &SizedSubmission) -> Option<OpenRow>
    ensures held { IfSome result (λ k. k.settled ≡ None) }
    ensures fits { IfSome result
        (λ k. (rs : List Row) (retry : Option Retry) → Fits k (next_row rs content.now retry)) }
{
    let submission = content.submission();
    let debit = submission.direction.is_debit();
    let cents = cents_of(alloc, debit, submission.entries.as_slice())?;
    Some(OpenRow {
        reference: submission.reference,
        debit,
        settled: None,
        total: u128::from(content.total().get()),
        cents,
    })
}
