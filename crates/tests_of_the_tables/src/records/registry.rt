//! Rows of the desk, of companies, and of one column.
use super::queries::{is_refused, read, read_only};
use crate::samples::{party_name, routing, short_text};
use ach_fields::Id;
use desk_history::Identity;
use desk_rules::{Company, Limits, RuleDay};
use sql_tables::KeyedIdentity;
use std::process::Abort;
use std::test::Fail;

pub(super) fn id(rt: &impl Abort) -> Id {
    Id::new(b"MILL01").ok().expect(rt, "an identification")
}

const IDENTITY: [&str; 5] = [
    "'121042882'",
    "'OUR BANK'",
    "'061000146'",
    "'ACH OPERATOR'",
    "x'0707070707070707070707070707070707070707070707070707070707070707'",
];

#[test]
fn identities_and_keys(rt: HostRuntime) -> Result<(), Fail> {
    let identity = Identity {
        odfi: routing(&rt, b"121042882"),
        odfi_name: party_name(&rt, b"OUR BANK"),
        destination: routing(&rt, b"061000146"),
        destination_name: party_name(&rt, b"ACH OPERATOR"),
    };
    let found: Option<KeyedIdentity> = read(rt.alloc(), &IDENTITY)?;
    let found = found.expect(&rt, "an identity");
    assert!(rt; found.identity == identity);
    assert!(rt; found.operator_key == [7; 32]);
    let bad = [
        (0, "'121042883'"),
        (1, "''"),
        (1, "' OUR BANK'"),
        (2, "61000146"),
        (3, "''"),
        (3, "'ACH OPERATOR '"),
        (3, "'ACH\u{7f}OPERATOR'"),
        (3, "'A NAME OF 24 CHARACTERS.'"),
        (3, "'X', 'Y'"),
        (4, "x'07'"),
        (4, "'07070707070707070707070707070707'"),
        (4, "NULL"),
    ];
    for (at, value) in bad {
        assert!(rt;
            is_refused::<KeyedIdentity>(rt.alloc(), &IDENTITY, at, value)?,
            "{value}"
        );
    }
    Ok(())
}

const COMPANY: [&str; 6] = [
    "'MILL01'",
    "'MILL STREET'",
    "x'0101010101010101010101010101010101010101010101010101010101010101'",
    "9999999999",
    "999999999999999",
    "0",
];

#[test]
fn companies(rt: HostRuntime) -> Result<(), Fail> {
    let company = Company {
        id: id(&rt),
        name: short_text(&rt, b"MILL STREET"),
        digest: [1; 32],
        limits: Limits {
            entry: 9_999_999_999,
            credit: 999_999_999_999_999,
            debit: 0,
        },
    };
    assert!(rt; read(rt.alloc(), &COMPANY)? == Some(company));
    let bad = [
        (0, "'mill01'"),
        (1, "' MILL'"),
        (2, "x'01'"),
        (2, "'01010101010101010101010101010101'"),
        (3, "10000000000"),
        (4, "1000000000000000"),
        (5, "-1"),
    ];
    for (at, value) in bad {
        assert!(rt;
            is_refused::<Company>(rt.alloc(), &COMPANY, at, value)?,
            "{value}"
        );
    }
    Ok(())
}

// A day's files have the letters A to Z, and then 0 to 9.
#[test]
fn modifiers(rt: HostRuntime) -> Result<(), Fail> {
    for (column, modifier) in [("'A'", b'A'), ("'Z'", b'Z'), ("'0'", b'0'), ("'9'", b'9')] {
        assert!(rt;
            read_only(rt.alloc(), column)? == Some(modifier),
            "{column}"
        );
    }
    for column in [
        "65", "'@'", "'['", "'/'", "':'", "'a'", "''", "'AB'", "x'41'", "NULL",
    ] {
        assert!(rt; read_only::<u8>(rt.alloc(), column)?.is_none(), "{column}");
    }
    Ok(())
}

// 2000-01-01 is day 10,957, and 2100-01-31 day 47,512.
#[test]
fn days(rt: HostRuntime) -> Result<(), Fail> {
    let first = RuleDay::read(b"2000-01-01").expect(&rt, "a day");
    assert!(rt; read_only(rt.alloc(), "10957")? == Some(first));
    assert!(rt; read_only(rt.alloc(), "NULL")? == Some(None::<RuleDay>));
    assert!(rt; read_only::<RuleDay>(rt.alloc(), "47512")?.is_some());
    for column in ["10956", "47513", "-1", "'10957'", "NULL", "10957, 10957"] {
        assert!(rt;
            read_only::<RuleDay>(rt.alloc(), column)?.is_none(),
            "{column}"
        );
    }
    Ok(())
}
