//! A submission whose second entry is returned, a retry, and a submission without entries.
use crate::samples::{reference, routing, short_text};
use ach_fields::Id;
use bank_days::Day;
use desk_history::RetriedEntry;
use desk_rules::{
    AccountKind, Direction, Entry, EntryCents, EntryState, Retry, ReturnCode, RuleDay, SecCode,
};
use sql_tables::{EntryReturn, NumberedEntry, SubmissionHead, row_from};
use std::process::Abort;
use std::test::Fail;

fn rule_day(rt: &impl Abort, text: &[u8]) -> RuleDay {
    RuleDay::read(text).expect(rt, "a day")
}

fn head(rt: &impl Abort) -> SubmissionHead {
    SubmissionHead {
        company: Id::new(b"MILL01").ok().expect(rt, "an identification"),
        order: 2,
        reference: reference(rt, b"PAY-2"),
        sec: SecCode::Ppd,
        direction: Direction::Debit,
        description: short_text(rt, b"DUES"),
        asked: rule_day(rt, b"2025-01-10"),
        retried: None,
        lapsed: false,
        settled: Some(settlement_day(rt)),
    }
}

fn numbered_entry(rt: &impl Abort, index: u64, name: &[u8]) -> NumberedEntry {
    NumberedEntry {
        index,
        entry: Entry {
            routing: routing(rt, b"091000019"),
            account: short_text(rt, b"123"),
            kind: AccountKind::Checking,
            prenote: false,
            cents: EntryCents::new(2500).expect(rt, "an amount"),
            id: short_text(rt, b""),
            name: short_text(rt, name),
            info: None,
        },
    }
}

fn settlement_day(rt: &impl Abort) -> RuleDay {
    rule_day(rt, b"2025-01-13")
}

fn day(rt: &impl Abort, text: &[u8]) -> Day {
    Day::read(text).expect(rt, "a day")
}

fn code(rt: &impl Abort) -> ReturnCode {
    ReturnCode::parse(b"R01").expect(rt, "a code")
}

#[test]
fn an_entry_came_back(rt: HostRuntime) -> Result<(), Fail> {
    let returns = [EntryReturn {
        index: 2,
        code: code(&rt),
        day: day(&rt, b"2025-01-15"),
        late: false,
    }];
    let entries = [
        numbered_entry(&rt, 1, b"ANN LEE"),
        numbered_entry(&rt, 2, b"BOB RAY"),
    ];
    let row = row_from(rt.alloc(), &head(&rt), &entries, &returns, None)?;
    assert!(rt; row.order == 2);
    assert!(rt; row.settled == Some(settlement_day(&rt)));
    assert!(rt; row.retry.is_none());
    assert!(rt; row.content.submission().entries.as_slice().len() == 2);
    let states = [
        EntryState::Sent {
            settled: settlement_day(&rt),
        },
        EntryState::Returned {
            settled: settlement_day(&rt),
            code: code(&rt),
            day: day(&rt, b"2025-01-15"),
            late: false,
        },
    ];
    assert!(rt; row.states.as_slice() == states.as_slice());
    Ok(())
}

#[test]
fn a_retry_lapsed(rt: HostRuntime) -> Result<(), Fail> {
    let mut head = head(&rt);
    head.retried = Some(RetriedEntry {
        of: reference(&rt, b"PAY-1"),
        index: 3,
    });
    head.settled = None;
    head.lapsed = true;
    let entries = [numbered_entry(&rt, 1, b"ANN LEE")];
    let authorized = Some(day(&rt, b"2025-01-09"));
    let row = row_from(rt.alloc(), &head, &entries, &[], authorized)?;
    let retry = Retry {
        reference: reference(&rt, b"PAY-2"),
        of: reference(&rt, b"PAY-1"),
        index: 3,
        day: rule_day(&rt, b"2025-01-10"),
        authorized: Some(day(&rt, b"2025-01-09")),
    };
    assert!(rt; row.retry == Some(retry));
    assert!(rt; row.lapsed);
    assert!(rt; row.states.as_slice() == [EntryState::Lapsed].as_slice());
    Ok(())
}

#[test]
fn no_entry_is_no_row(rt: HostRuntime) -> Result<(), Fail> {
    assert!(rt; row_from(rt.alloc(), &head(&rt), &[], &[], None).is_err());
    Ok(())
}
