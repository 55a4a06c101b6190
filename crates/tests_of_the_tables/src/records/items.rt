//! Rows of returns, changes, suspense, taken files, postings, sums and numbers.
use super::queries::{is_refused, read};
use crate::samples::reference;
use ach_fields::Cents;
use bank_days::Day;
use desk_accounts::Cause;
use desk_history::{DaySum, Intake, SuspenseReason, SuspenseRow, TakenFile};
use desk_rules::ReturnCode;
use sql_tables::{ChangeLine, EntryReturn, NumberRecord, PostingLine, ReturnLine};
use std::process::Abort;
use std::test::Fail;

// 2025-01-14 is day 20,102.
fn day(rt: &impl Abort) -> Day {
    Day::read(b"2025-01-14").expect(rt, "a day")
}

fn back(rt: &impl Abort) -> EntryReturn {
    EntryReturn {
        index: 1,
        code: ReturnCode::parse(b"R29").expect(rt, "a code"),
        day: day(rt),
        late: true,
    }
}

#[test]
fn returns(rt: HostRuntime) -> Result<(), Fail> {
    let columns = ["1", "'R29'", "20102", "1"];
    assert!(rt; read(rt.alloc(), &columns)? == Some(back(&rt)));
    for (at, value) in [(0, "0"), (1, "'R30'"), (2, "NULL"), (3, "'1'")] {
        assert!(rt;
            is_refused::<EntryReturn>(rt.alloc(), &columns, at, value)?,
            "{at}: {value}"
        );
    }
    let columns = [
        "7",
        "4",
        "1",
        "'R29'",
        "20102",
        "1",
        "'GONE                                        '",
    ];
    let mut info = [b' '; 44];
    info[..4].copy_from_slice(b"GONE");
    let line = ReturnLine {
        number: 7,
        order: 4,
        back: back(&rt),
        info,
    };
    assert!(rt; read(rt.alloc(), &columns)? == Some(line));
    for (at, value) in [
        (0, "-1"),
        (1, "0"),
        (2, "1001"),
        (3, "'R00'"),
        (4, "1"),
        (5, "7"),
        (6, "'GONE'"),
    ] {
        assert!(rt;
            is_refused::<ReturnLine>(rt.alloc(), &columns, at, value)?,
            "{at}: {value}"
        );
    }
    Ok(())
}

#[test]
fn changes(rt: HostRuntime) -> Result<(), Fail> {
    let columns = [
        "4",
        "1",
        "'C01'",
        "20102",
        "'46                           '",
    ];
    let mut text = [b' '; 29];
    text[..2].copy_from_slice(b"46");
    let line = ChangeLine {
        order: 4,
        index: 1,
        code: *b"C01",
        day: day(&rt),
        text,
    };
    assert!(rt; read(rt.alloc(), &columns)? == Some(line));
    for (at, value) in [
        (0, "'4'"),
        (1, "0"),
        (2, "'C1'"),
        (3, "48000"),
        (4, "x'20'"),
    ] {
        assert!(rt;
            is_refused::<ChangeLine>(rt.alloc(), &columns, at, value)?,
            "{at}: {value}"
        );
    }
    Ok(())
}

const SUSPENSE: [&str; 7] = [
    "'.0610001462501140930A'",
    "2",
    "'CodeOutside'",
    "'R77'",
    "'121042880000001'",
    "2500",
    "20102",
];

#[test]
fn suspense(rt: HostRuntime) -> Result<(), Fail> {
    let row = SuspenseRow {
        cents: Cents::new(2500).expect(&rt, "an amount"),
        code: *b"R77",
        day: day(&rt),
        file: *b".0610001462501140930A",
        item: 2,
        trace: *b"121042880000001",
        why: SuspenseReason::CodeOutside,
    };
    assert!(rt; read(rt.alloc(), &SUSPENSE)? == Some(row));
    let bad = [
        (0, "'A'"),
        (1, "0"),
        (2, "3"),
        (3, "'R'"),
        (4, "121042880000001"),
        (5, "1000000000000"),
        (6, "0"),
    ];
    for (at, value) in bad {
        assert!(rt;
            is_refused::<SuspenseRow>(rt.alloc(), &SUSPENSE, at, value)?,
            "{at}: {value}"
        );
    }
    for why in ["'NoTrace'", "'Differs'", "'AlreadyReturned'"] {
        assert!(rt;
            !is_refused::<SuspenseRow>(rt.alloc(), &SUSPENSE, 2, why)?,
            "{why}"
        );
    }
    Ok(())
}

const TAKEN: [&str; 7] = [
    "'.0610001462501140930A'",
    "x'0101010101010101010101010101010101010101010101010101010101010101'",
    "20102",
    "1",
    "2",
    "3",
    "4",
];

#[test]
fn taken_files(rt: HostRuntime) -> Result<(), Fail> {
    let taken = TakenFile {
        key: *b".0610001462501140930A",
        digest: [1; 32],
        answer: Intake {
            changes: 2,
            day: day(&rt),
            late: 3,
            returns: 1,
            suspense: 4,
        },
    };
    assert!(rt; read(rt.alloc(), &TAKEN)? == Some(taken));
    let bad = [
        (0, "NULL"),
        (1, "x''"),
        (2, "-1"),
        (3, "-1"),
        (4, "'2'"),
        (5, "NULL"),
        (6, "1.5"),
    ];
    for (at, value) in bad {
        assert!(rt;
            is_refused::<TakenFile>(rt.alloc(), &TAKEN, at, value)?,
            "{at}: {value}"
        );
    }
    Ok(())
}

#[test]
fn postings(rt: HostRuntime) -> Result<(), Fail> {
    let columns = ["20102", "-2500", "'return'", "'PAY-1'", "1"];
    let line = PostingLine {
        value_day: day(&rt),
        cents: -2500,
        cause: Cause::Return,
        reference: Some(reference(&rt, b"PAY-1")),
        idx: 1,
    };
    assert!(rt; read(rt.alloc(), &columns)? == Some(line));
    let mut suspended = line;
    suspended.reference = None;
    assert!(rt; read(rt.alloc(), &["20102", "-2500", "'return'", "''", "1"])? == Some(suspended));
    for (at, value) in [(0, "0"), (1, "'1'"), (2, "'Cut'"), (3, "NULL"), (4, "1001")] {
        assert!(rt;
            is_refused::<PostingLine>(rt.alloc(), &columns, at, value)?,
            "{at}: {value}"
        );
    }
    assert!(rt; !is_refused::<PostingLine>(rt.alloc(), &columns, 2, "'cut'")?);
    Ok(())
}

#[test]
fn sums(rt: HostRuntime) -> Result<(), Fail> {
    for cents in [0, 2500, -2500, i128::MAX, i128::MIN] {
        let text = format!(in rt.alloc(); "'{cents}'")?;
        let sum = DaySum {
            cents,
            day: day(&rt),
        };
        assert!(rt; read(rt.alloc(), &["20102", text.as_str()])? == Some(sum));
    }
    let bad = [
        "''",
        "'-'",
        "'-0'",
        "'+1'",
        "'01'",
        "' 1'",
        "1",
        "'170141183460469231731687303715884105728'",
    ];
    for value in bad {
        assert!(rt;
            is_refused::<DaySum>(rt.alloc(), &["20102", "'0'"], 1, value)?,
            "{value}"
        );
    }
    assert!(rt; is_refused::<DaySum>(rt.alloc(), &["20102", "'0'"], 0, "'20102'")?);
    Ok(())
}

#[test]
fn numbers(rt: HostRuntime) -> Result<(), Fail> {
    let number = NumberRecord {
        sequence: 9_999_999,
        place: 1,
    };
    assert!(rt; read(rt.alloc(), &["9999999", "1"])? == Some(number));
    for (at, value) in [(0, "0"), (0, "10000000"), (1, "0")] {
        assert!(rt;
            is_refused::<NumberRecord>(rt.alloc(), &["1", "1"], at, value)?,
            "{at}: {value}"
        );
    }
    Ok(())
}
