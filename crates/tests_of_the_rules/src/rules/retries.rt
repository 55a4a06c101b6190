//! Retries of returned debits.
use super::{calendar, code};
use crate::samples::{day, rule_day};
use desk_rules::Refusal::{NotRetryable, NotReturned, RetriesSpent, RetryTooLate};
use desk_rules::{Attempt, EntryState, RuleDay, is_too_late, may_retry};
use std::process::Abort;

fn returned_attempt(rt: &impl Abort, settled: &[u8], text: &[u8; 3], taken: &[u8]) -> Attempt {
    Attempt::Returned {
        settled: rule_day(rt, settled),
        code: code(rt, text),
        day: day(rt, taken),
    }
}

fn original(rt: &impl Abort) -> Attempt {
    returned_attempt(rt, b"2025-01-10", b"R01", b"2025-01-14")
}

fn sent_attempt(settled: RuleDay) -> Attempt {
    Attempt::Sent { settled }
}

#[test]
fn a_retry_settles_within_180_days_of_the_original(rt: HostRuntime) {
    let calendar = calendar(&rt);
    let today = day(&rt, b"2025-07-01");
    let attempts = [
        original(&rt),
        returned_attempt(&rt, b"2025-03-10", b"R01", b"2025-03-11"),
    ];
    for count in [1, 2] {
        let tried = &attempts[..count];
        assert!(rt;
            may_retry(tried, rule_day(&rt, b"2025-07-10"), None, today, &calendar)
                == Err(RetryTooLate)
        );
        assert!(rt;
            may_retry(tried, rule_day(&rt, b"2025-07-09"), None, today, &calendar) == Ok(())
        );
    }
}

#[test]
fn the_last_day_of_a_retry_is_day_180(rt: HostRuntime) {
    let original = rule_day(&rt, b"2025-01-10");
    assert!(rt; !is_too_late(original, day(&rt, b"2025-07-09")));
    assert!(rt; is_too_late(original, day(&rt, b"2025-07-10")));
}

#[test]
fn a_third_retry_is_refused(rt: HostRuntime) {
    let calendar = calendar(&rt);
    let today = day(&rt, b"2025-01-23");
    let asked = rule_day(&rt, b"2025-01-24");
    let attempts = [
        original(&rt),
        returned_attempt(&rt, b"2025-01-16", b"R09", b"2025-01-17"),
        returned_attempt(&rt, b"2025-01-22", b"R01", b"2025-01-23"),
    ];
    assert!(rt; may_retry(&attempts[..1], asked, None, today, &calendar) == Ok(()));
    assert!(rt; may_retry(&attempts[..2], asked, None, today, &calendar) == Ok(()));
    assert!(rt; may_retry(&attempts, asked, None, today, &calendar) == Err(RetriesSpent));
}

#[test]
fn the_original_and_the_newest_attempt_came_back(rt: HostRuntime) {
    let calendar = calendar(&rt);
    let today = day(&rt, b"2025-01-14");
    let settled = rule_day(&rt, b"2025-01-14");
    let asked = rule_day(&rt, b"2025-01-16");
    let rows = [
        [original(&rt), Attempt::Held],
        [original(&rt), sent_attempt(settled)],
        [Attempt::Held, original(&rt)],
        [sent_attempt(settled), original(&rt)],
    ];
    for attempts in &rows {
        assert!(rt; may_retry(attempts, asked, None, today, &calendar) == Err(NotReturned));
    }
    assert!(rt;
        may_retry(&[sent_attempt(settled)], asked, None, today, &calendar) == Err(NotReturned)
    );
}

#[test]
fn a_stopped_payment_is_retried_once_it_is_authorized_again(rt: HostRuntime) {
    let calendar = calendar(&rt);
    let today = day(&rt, b"2025-01-15");
    let asked = rule_day(&rt, b"2025-01-22");
    let rows = [
        (b"R08", None, false),
        (b"R08", Some(b"2025-01-13"), false),
        (b"R08", Some(b"2025-01-16"), false),
        (b"R08", Some(b"2025-01-14"), true),
        (b"R08", Some(b"2025-01-15"), true),
        (b"R02", Some(b"2025-01-14"), false),
        (b"R02", None, false),
        (b"R01", Some(b"2025-01-16"), true),
        (b"R09", Some(b"2025-01-13"), true),
    ];
    for (text, authorized, accepted) in rows {
        let attempts = [returned_attempt(&rt, b"2025-01-10", text, b"2025-01-14")];
        let authorized = authorized.map(|text| day(&rt, text));
        let wanted = if accepted {
            Ok(())
        } else {
            Err(NotRetryable(code(&rt, text)))
        };
        assert!(rt;
            may_retry(&attempts, asked, authorized, today, &calendar) == wanted,
            "{text:?}"
        );
    }
}

#[test]
fn what_lapsed_is_no_attempt(rt: HostRuntime) {
    let settled = rule_day(&rt, b"2025-01-10");
    let taken = day(&rt, b"2025-01-14");
    let code = code(&rt, b"R01");
    let back = EntryState::Returned {
        settled,
        code,
        day: taken,
        late: true,
    };
    let rows = [
        (EntryState::Held, Some(Attempt::Held)),
        (EntryState::Sent { settled }, Some(sent_attempt(settled))),
        (
            back,
            Some(Attempt::Returned {
                settled,
                code,
                day: taken,
            }),
        ),
        (EntryState::Lapsed, None),
    ];
    for (state, attempt) in rows {
        assert!(rt; state.attempt() == attempt);
    }
}
