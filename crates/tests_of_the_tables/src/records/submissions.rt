//! Rows of submissions and of their entries.
use super::queries::{is_refused, read};
use super::registry::id;
use crate::samples::{reference, routing, short_text};
use desk_history::RetriedEntry;
use desk_rules::{AccountKind, Direction, Entry, EntryCents, RuleDay, SecCode};
use sql_tables::{
    EntryPlace, NumberedEntry, OrderAndSettlement, PlacedEntry, SubmissionFacts, SubmissionHead,
};
use std::process::Abort;
use std::test::Fail;

// 2025-01-10 is day 20,098.
fn rule_day(rt: &impl Abort) -> RuleDay {
    RuleDay::read(b"2025-01-10").expect(rt, "a day")
}

const HEAD: [&str; 11] = [
    "'MILL01'", "3", "'TRY-1'", "'CCD'", "'debit'", "'DUES'", "20098", "'PAY-1'", "1000", "1",
    "NULL",
];

#[test]
fn retries(rt: HostRuntime) -> Result<(), Fail> {
    let head = SubmissionHead {
        company: id(&rt),
        order: 3,
        reference: reference(&rt, b"TRY-1"),
        sec: SecCode::Ccd,
        direction: Direction::Debit,
        description: short_text(&rt, b"DUES"),
        asked: rule_day(&rt),
        retried: Some(RetriedEntry {
            of: reference(&rt, b"PAY-1"),
            index: 1000,
        }),
        lapsed: true,
        settled: None,
    };
    assert!(rt; read(rt.alloc(), &HEAD)? == Some(head));
    let bad = [
        (0, "''"),
        (1, "0"),
        (2, "'TRY 1'"),
        (3, "'WEB'"),
        (4, "'DEBIT'"),
        (5, "'ELEVEN CHAR'"),
        (6, "10956"),
        (6, "47513"),
        (7, "NULL"),
        (8, "NULL"),
        (8, "1001"),
        (9, "2"),
        (10, "'20098'"),
    ];
    for (at, value) in bad {
        assert!(rt;
            is_refused::<SubmissionHead>(rt.alloc(), &HEAD, at, value)?,
            "{at}: {value}"
        );
    }
    Ok(())
}

#[test]
fn submissions(rt: HostRuntime) -> Result<(), Fail> {
    let columns = [
        "'MILL01'",
        "1",
        "'PAY-1'",
        "'PPD'",
        "'credit'",
        "'PAYROLL'",
        "20098",
        "NULL",
        "NULL",
        "0",
        "20098",
    ];
    let head = SubmissionHead {
        company: id(&rt),
        order: 1,
        reference: reference(&rt, b"PAY-1"),
        sec: SecCode::Ppd,
        direction: Direction::Credit,
        description: short_text(&rt, b"PAYROLL"),
        asked: rule_day(&rt),
        retried: None,
        lapsed: false,
        settled: Some(rule_day(&rt)),
    };
    assert!(rt; read(rt.alloc(), &columns)? == Some(head));
    let facts = SubmissionFacts {
        reference: head.reference,
        sec: head.sec,
        direction: head.direction,
        settled: head.settled,
    };
    assert!(rt; read(rt.alloc(), &["'PAY-1'", "'PPD'", "'credit'", "20098"])? == Some(facts));
    let order = OrderAndSettlement {
        order: 1,
        settled: None,
    };
    assert!(rt; read(rt.alloc(), &["1", "NULL"])? == Some(order));
    assert!(rt; is_refused::<OrderAndSettlement>(rt.alloc(), &["1", "NULL"], 0, "NULL")?);
    Ok(())
}

const ENTRY: [&str; 9] = [
    "2",
    "'091000019'",
    "'123'",
    "1",
    "0",
    "2500",
    "''",
    "'BOB RAY'",
    "'MAY'",
];

fn entry(rt: &impl Abort) -> Entry {
    Entry {
        routing: routing(rt, b"091000019"),
        account: short_text(rt, b"123"),
        kind: AccountKind::Savings,
        prenote: false,
        cents: EntryCents::new(2500).expect(rt, "an amount"),
        id: short_text(rt, b""),
        name: short_text(rt, b"BOB RAY"),
        info: Some(short_text(rt, b"MAY")),
    }
}

#[test]
fn entries(rt: HostRuntime) -> Result<(), Fail> {
    let numbered = NumberedEntry {
        index: 2,
        entry: entry(&rt),
    };
    assert!(rt; read(rt.alloc(), &ENTRY)? == Some(numbered));
    let bad = [
        (0, "0"),
        (1, "'091000018'"),
        (2, "''"),
        (3, "-1"),
        (4, "1"),
        (5, "0"),
        (5, "10000000000"),
        (6, "NULL"),
        (7, "'BOB RAY '"),
        (8, "''"),
    ];
    for (at, value) in bad {
        assert!(rt;
            is_refused::<NumberedEntry>(rt.alloc(), &ENTRY, at, value)?,
            "{at}: {value}"
        );
    }
    Ok(())
}

#[test]
fn placed_entries(rt: HostRuntime) -> Result<(), Fail> {
    let columns = [
        "'MILL01'",
        "7",
        "2",
        "'091000019'",
        "'123'",
        "1",
        "0",
        "2500",
        "''",
        "'BOB RAY'",
        "'MAY'",
    ];
    let placed = PlacedEntry {
        company: id(&rt),
        order: 7,
        index: 2,
        entry: entry(&rt),
    };
    assert!(rt; read(rt.alloc(), &columns)? == Some(placed));
    for (at, value) in [(0, "7"), (1, "-7"), (2, "1001"), (10, "7")] {
        assert!(rt;
            is_refused::<PlacedEntry>(rt.alloc(), &columns, at, value)?,
            "{at}: {value}"
        );
    }
    let place = EntryPlace {
        company: id(&rt),
        order: 7,
        place: Some(9),
    };
    assert!(rt; read(rt.alloc(), &["'MILL01'", "7", "9"])? == Some(place));
    let unsent = EntryPlace {
        place: None,
        ..place
    };
    assert!(rt; read(rt.alloc(), &["'MILL01'", "7", "NULL"])? == Some(unsent));
    for (at, value) in [(0, "7"), (1, "0"), (2, "-9")] {
        assert!(rt;
            is_refused::<EntryPlace>(rt.alloc(), &["'MILL01'", "7", "9"], at, value)?,
            "{at}: {value}"
        );
    }
    Ok(())
}
