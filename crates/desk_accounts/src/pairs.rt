//! The desk posts in pairs: each time a line, and its opposite on the operator's account.
ghost use Rattle.std.specs.Prelude.{◌≡◌, ◌≤◌, ◌==◌, if◌then◌else◌, None, Some, unsigned_abs};
ghost use Rattle.desk_accounts.specs.Posting.{posting_pair, opposite, cut_line, return_line, suspense_line, cut_cents};

use crate::{Account, Cause, Posting};
use ach_fields::{Cents, Id, Ref};
use bank_days::Day;

/// Gives the two lines of a submission that was cut, or `None` for zero cents: the company's, then
/// the operator's.
///
/// A credit's cents go from the company to the operator, a debit's from the operator to the
/// company. The value day is the settlement date.
pub fn post_cut(
    company: Id,
    debit: bool,
    cents: Cents,
    value_day: Day,
    reference: Ref,
) -> Option<[Posting; 2]>
    ensures { result ≡ posting_pair cents (cut_line company debit cents value_day reference) }
{
    let sent = cut_cents(debit, cents);
    let line = Posting {
        account: Account::Company(company),
        value_day,
        cents: sent,
        cause: Cause::Cut,
        reference: Some(reference),
        idx: 0,
    };
    posting_pair(line)
}

/// Returns the two lines of a returned entry, the company's and then the operator's, or `None` for
/// zero cents.
///
/// The cents of a credit go to the company, those of a debit to the operator. The value day is the
/// desk day on which the return was taken.
pub fn post_return(
    company: Id,
    debit: bool,
    cents: Cents,
    value_day: Day,
    reference: Ref,
    idx: u64,
) -> Option<[Posting; 2]>
    ensures { result ≡ posting_pair cents
        (return_line company debit cents value_day reference idx) }
{
    let returned = -cut_cents(debit, cents);
    let line = Posting {
        account: Account::Company(company),
        value_day,
        cents: returned,
        cause: Cause::Return,
        reference: Some(reference),
        idx,
    };
    posting_pair(line)
}

/// Gives the two lines of a return whose entry is not known, or `None` for zero cents: suspense's,
/// in the place of a company's, then the operator's.
pub fn post_suspense(debit: bool, cents: Cents, value_day: Day) -> Option<[Posting; 2]>
    ensures { result ≡ posting_pair cents (suspense_line debit cents value_day) }
{
    let held = -cut_cents(debit, cents);
    let line = Posting {
        account: Account::Suspense,
        value_day,
        cents: held,
        cause: Cause::Return,
        reference: None,
        idx: 0,
    };
    posting_pair(line)
}

// Returns what the cut adds to the company's account.
fn cut_cents(debit: bool, cents: Cents) -> i64
    ensures value { result ≡ cut_cents debit cents }
    ensures within { unsigned_abs result ≤ 999_999_999_999 }
{
    let amount = cents.get() as i64;
    if debit { amount } else { -amount }
}

// The line and its opposite, or none for zero cents.
fn posting_pair(line: Posting) -> Option<[Posting; 2]>
    requires { unsigned_abs line.cents ≤ 999_999_999_999 }
    ensures { result ≡ posting_pair (unsigned_abs line.cents) line }
{
    if line.cents == 0 {
        return None;
    }
    Some([line, opposite(&line)])
}

// The operator's line that makes up for another.
fn opposite(line: &Posting) -> Posting
    requires { unsigned_abs line.now.cents ≤ 999_999_999_999 }
    ensures { result ≡ opposite line.now }
{
    Posting {
        account: Account::Operator,
        value_day: line.value_day,
        cents: -line.cents,
        cause: line.cause,
        reference: line.reference,
        idx: line.idx,
    }
}
