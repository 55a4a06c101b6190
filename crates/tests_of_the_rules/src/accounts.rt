ghost use Rattle.std.specs.Prelude.{◌≤◌, unsigned_abs};

use crate::samples::{cents, day, id, mill, reference};
use desk_accounts::{
    Account, Cause, Posting, balance, balance_of_days, post_cut, post_return, post_suspense,
};
use std::process::Abort;
use std::test::Fail;

fn company(rt: &impl Abort) -> Account {
    Account::Company(mill(rt))
}

fn bakery(rt: &impl Abort) -> Account {
    Account::Company(id(rt, b"BAKE01"))
}

// A credit of 150000 cents and a debit of 2500 that settle on 2025-01-10, and the return of the
// debit, taken on 2025-01-14.
fn sample(rt: &impl Abort) -> [Posting; 6] {
    let settled = day(rt, b"2025-01-10");
    let taken = day(rt, b"2025-01-14");
    let credit = reference(rt, b"PAY-1");
    let debit = reference(rt, b"PAY-2");
    let sent = post_cut(mill(rt), false, cents(rt, 150_000), settled, credit);
    let drawn = post_cut(mill(rt), true, cents(rt, 2_500), settled, debit);
    let back = post_return(mill(rt), true, cents(rt, 2_500), taken, debit, 1);
    let sent = sent.expect(rt, "a pair");
    let drawn = drawn.expect(rt, "a pair");
    let back = back.expect(rt, "a pair");
    [sent[0], sent[1], drawn[0], drawn[1], back[0], back[1]]
}

// The two lines of a pair: these cents for the company, and from the operator.
fn pair(
    rt: &impl Abort,
    text: &[u8],
    amount: i64,
    cause: Cause,
    pay: &[u8],
    idx: u64,
) -> [Posting; 2]
    requires { unsigned_abs amount ≤ 999_999_999_999 }
{
    let ours = Posting {
        account: company(rt),
        value_day: day(rt, text),
        cents: amount,
        cause,
        reference: Some(reference(rt, pay)),
        idx,
    };
    let theirs = Posting {
        account: Account::Operator,
        value_day: day(rt, text),
        cents: -amount,
        cause,
        reference: Some(reference(rt, pay)),
        idx,
    };
    [ours, theirs]
}

#[test]
fn lines_of_a_statement(rt: HostRuntime) {
    let postings = sample(&rt);
    let sent = pair(&rt, b"2025-01-10", -150_000, Cause::Cut, b"PAY-1", 0);
    let drawn = pair(&rt, b"2025-01-10", 2_500, Cause::Cut, b"PAY-2", 0);
    let back = pair(&rt, b"2025-01-14", -2_500, Cause::Return, b"PAY-2", 1);
    let wanted = [sent[0], sent[1], drawn[0], drawn[1], back[0], back[1]];
    for (index, posting) in postings.iter().enumerate() {
        assert!(rt; *posting == wanted[index], "line {index}");
    }
}

#[test]
fn balances_of_a_statement(rt: HostRuntime) {
    let postings = sample(&rt);
    let wanted = [
        (company(&rt), b"2025-01-09", 0),
        (company(&rt), b"2025-01-10", -147_500),
        (company(&rt), b"2025-01-13", -147_500),
        (company(&rt), b"2025-01-14", -150_000),
        (Account::Operator, b"2025-01-10", 147_500),
        (Account::Operator, b"2025-01-14", 150_000),
        (Account::Suspense, b"2025-01-14", 0),
        (bakery(&rt), b"2025-01-14", 0),
    ];
    for (account, text, sum) in wanted {
        assert!(rt; balance(&postings, account, day(&rt, text)) == sum);
    }
}

#[test]
fn balances_from_sums_by_day(rt: HostRuntime) {
    let rows = [
        (day(&rt, b"2025-01-10"), 147_500),
        (day(&rt, b"2025-01-14"), 2_500),
    ];
    let wanted = [
        (b"2025-01-09", 0),
        (b"2025-01-10", 147_500),
        (b"2025-01-13", 147_500),
        (b"2025-01-14", 150_000),
    ];
    for (text, sum) in wanted {
        assert!(rt; balance_of_days(&rows, day(&rt, text)) == Some(sum));
    }
}

#[test]
fn a_sum_that_does_not_fit_is_none(rt: HostRuntime) {
    let first = day(&rt, b"2025-01-10");
    let second = day(&rt, b"2025-01-14");
    let rows = [(first, i128::MAX), (second, 1)];
    assert!(rt; balance_of_days(&rows, first) == Some(i128::MAX));
    assert!(rt; balance_of_days(&rows, second).is_none());
}

#[test]
fn suspense_takes_the_place_of_a_company(rt: HostRuntime) {
    let taken = day(&rt, b"2025-01-14");
    let debit = post_suspense(true, cents(&rt, 2_600), taken).expect(&rt, "a pair");
    let credit = post_suspense(false, cents(&rt, 100), taken).expect(&rt, "a pair");
    let postings = [debit[0], debit[1], credit[0], credit[1]];
    assert!(rt; balance(&postings, Account::Suspense, taken) == -2_500);
    assert!(rt; balance(&postings, Account::Operator, taken) == 2_500);
    assert!(rt; debit[0].reference.is_none());
    assert!(rt; debit[0].idx == 0);
}

#[test]
fn zero_cents_are_not_posted(rt: HostRuntime) {
    let settled = day(&rt, b"2025-01-10");
    let none = cents(&rt, 0);
    let pay = reference(&rt, b"PAY-1");
    assert!(rt; post_cut(mill(&rt), false, none, settled, pay).is_none());
    assert!(rt; post_return(mill(&rt), true, none, settled, pay, 1).is_none());
    assert!(rt; post_suspense(true, none, settled).is_none());
}
