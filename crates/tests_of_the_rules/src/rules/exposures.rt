//! Exposures are tried here, and submissions against limits.
use super::bodies::submission;
use super::{calendar, code};
use crate::samples::{cents, day, rule_day};
use desk_rules::Refusal::{CreditLimit, DateRange, DebitLimit, EntryLimit};
use desk_rules::{
    EntryFact, EntryState, Limits, RuleDay, check_submission, credit_exposure, debit_exposure,
};
use std::process::Abort;

fn entry(rt: &impl Abort, debit: bool, amount: u64, settled: Option<RuleDay>) -> EntryFact {
    let state = match settled {
        Some(settled) => EntryState::Sent { settled },
        None => EntryState::Held,
    };
    EntryFact {
        debit,
        prenote: false,
        cents: cents(rt, amount),
        state,
    }
}

#[test]
fn entries_are_exposed_until_their_money_is_sure(rt: HostRuntime) {
    let calendar = calendar(&rt);
    let settled = rule_day(&rt, b"2025-01-10");
    let facts = [
        entry(&rt, true, 2_500, Some(settled)),
        entry(&rt, false, 150_000, Some(settled)),
    ];
    // The day, and both exposures.
    let rows = [
        (b"2025-01-10", 150_000, 2_500),
        (b"2025-01-13", 0, 2_500),
        (b"2025-01-14", 0, 2_500),
        (b"2025-01-15", 0, 0),
    ];
    for (text, credit, debit) in rows {
        let today = day(&rt, text);
        assert!(rt;
            credit_exposure(&facts, today, &calendar) == credit,
            "{text:?}"
        );
        assert!(rt;
            debit_exposure(&facts, today, &calendar) == debit,
            "{text:?}"
        );
    }
}

#[test]
fn returned_credits_count_and_returned_debits_do_not(rt: HostRuntime) {
    let calendar = calendar(&rt);
    let today = day(&rt, b"2025-01-10");
    let settled = rule_day(&rt, b"2025-01-10");
    let back = EntryState::Returned {
        settled,
        code: code(&rt, b"R01"),
        day: today,
        late: false,
    };
    // The state of a credit of 700 cents and of a debit of 500, and both exposures.
    let rows = [
        (EntryState::Held, 700, 500),
        (EntryState::Sent { settled }, 700, 500),
        (back, 700, 0),
        (EntryState::Lapsed, 0, 0),
    ];
    for (state, credit, debit) in rows {
        let fact = |debit, amount| EntryFact {
            debit,
            prenote: false,
            cents: cents(&rt, amount),
            state,
        };
        let facts = [fact(false, 700), fact(true, 500)];
        assert!(rt; credit_exposure(&facts, today, &calendar) == credit);
        assert!(rt; debit_exposure(&facts, today, &calendar) == debit);
    }
}

#[test]
fn a_submission_keeps_within_the_limits(rt: HostRuntime) {
    let calendar = calendar(&rt);
    let today = day(&rt, b"2025-01-08");
    let limits = Limits {
        entry: 150_000,
        credit: 200_000,
        debit: 3_000,
    };
    let held = [
        entry(&rt, false, 150_000, None),
        entry(&rt, true, 2_500, None),
    ];
    // The asked day, the direction, the entries and the answer.
    let rows = [
        (b"2025-01-10", b"credit".as_slice(), [50_000, 0], Ok(())),
        (b"2025-01-10", b"credit", [50_001, 0], Err(CreditLimit)),
        (b"2025-01-10", b"credit", [25_000, 25_001], Err(CreditLimit)),
        (b"2025-01-10", b"debit", [500, 0], Ok(())),
        (b"2025-01-10", b"debit", [501, 0], Err(DebitLimit)),
        (b"2025-01-10", b"credit", [1, 150_001], Err(EntryLimit)),
        (b"2025-01-10", b"debit", [150_001, 0], Err(EntryLimit)),
        (b"2025-01-08", b"credit", [150_001, 0], Err(DateRange)),
        (b"2025-03-10", b"credit", [1, 0], Err(DateRange)),
        (b"2025-03-09", b"credit", [1, 0], Ok(())),
        (b"2025-01-09", b"credit", [1, 0], Ok(())),
    ];
    for (asked, direction, amounts, wanted) in rows {
        let submission = submission(&rt, asked, direction, &amounts);
        assert!(rt;
            check_submission(&submission, today, &limits, &held, &calendar) == wanted,
            "{amounts:?} on {asked:?}"
        );
    }
}
