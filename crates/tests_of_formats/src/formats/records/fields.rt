//! The values come from outside: routing numbers in use, and the fields of files that banks exchange.
use ach_fields::{
    Cents, FieldFault, Id, Ref, Routing, ShortText, Trace, Ymd, check_digit, put_number, put_text,
    take_number, take_text, without_blanks_after,
};

/// Texts, each with the DFI and the check digit of the routing number that it is.
const ROUTING_NUMBERS: &[(&[u8], Result<(u32, u8), FieldFault>)] = &[
    (b"091000019", Ok((9_100_001, 9))),
    (b"121042882", Ok((12_104_288, 2))),
    (b"061000146", Ok((6_100_014, 6))),
    (b"021000021", Ok((2_100_002, 1))),
    (b"0910000199", Err(FieldFault::TooLong)),
    (b"09100001X9", Err(FieldFault::TooLong)),
    (b"09100001", Err(FieldFault::NotDigit)),
    (b"09100001X", Err(FieldFault::NotDigit)),
    (b"", Err(FieldFault::NotDigit)),
    (b"091000018", Err(FieldFault::BadCheck)),
];

fn routing_parts(text: &[u8]) -> Result<(u32, u8), FieldFault> {
    let routing = Routing::parse(text)?;
    Ok((routing.dfi(), routing.digit()))
}

#[test]
fn routing_numbers(rt: HostRuntime) {
    for &(text, parts) in ROUTING_NUMBERS {
        assert!(rt; routing_parts(text) == parts);
    }
    assert!(rt; check_digit(9_100_001) == 9);
    assert!(rt; check_digit(0) == 0);
}

const FAULTS: &[(FieldFault, u8)] = &[
    (FieldFault::NotDigit, 1),
    (FieldFault::NotText, 2),
    (FieldFault::TooLong, 3),
    (FieldFault::BadCheck, 4),
    (FieldFault::BadDate, 5),
];

#[test]
fn fault_numbers(rt: HostRuntime) {
    for &(fault, number) in FAULTS {
        assert!(rt; fault.number() == number);
    }
}

#[test]
fn amounts(rt: HostRuntime) {
    match Cents::new(999_999_999_999) {
        Some(most) => assert!(rt; most.get() == 999_999_999_999),
        None => assert!(rt; false, "the largest amount is refused"),
    }
    assert!(rt; Cents::new(1_000_000_000_000).is_none());
}

/// Fields, each with its number.
const NUMBERS: &[(&[u8], Result<u64, FieldFault>)] = &[
    (b"0000150000", Ok(150_000)),
    (b"999999999999999999", Ok(999_999_999_999_999_999)),
    (b"0000000000000000001", Err(FieldFault::TooLong)),
    (b"", Err(FieldFault::NotDigit)),
    (b"15 0", Err(FieldFault::NotDigit)),
];

#[test]
fn numbers(rt: HostRuntime) {
    for &(field, number) in NUMBERS {
        assert!(rt; take_number(field) == number);
    }
}

/// Numbers for one field in turn. The second leaves it as it was.
const PUT_NUMBERS: &[(u64, Result<(), FieldFault>)] = &[
    (150_000, Ok(())),
    (10_000_000_000, Err(FieldFault::TooLong)),
];

#[test]
fn numbers_that_are_put(rt: HostRuntime) {
    let mut field = *b"..........";
    for &(number, outcome) in PUT_NUMBERS {
        assert!(rt; put_number(number, &mut field) == outcome);
        assert!(rt; &field == b"0000150000");
    }
}

/// Fields, each with its text.
const TEXTS: &[(&[u8], Result<&[u8], FieldFault>)] = &[
    (b"  MILL STREET     ", Ok(b"  MILL STREET")),
    (b"    ", Ok(b"")),
    (b"MILL\tSTREET", Err(FieldFault::NotText)),
];

#[test]
fn texts(rt: HostRuntime) {
    for &(field, text) in TEXTS {
        assert!(rt; take_text(field) == text);
    }
    assert!(rt; without_blanks_after(b" MILL\tSTREET  ") == b" MILL\tSTREET".as_slice());
}

/// Texts for one field in turn. Those after the first leave it as it was.
const PUT_TEXTS: &[(&[u8], Result<(), FieldFault>)] = &[
    (b"MILL STREET", Ok(())),
    (
        b"MILL STREET \xe9\xe9\xe9\xe9\xe9",
        Err(FieldFault::TooLong),
    ),
    (b"MILL\n", Err(FieldFault::NotText)),
];

#[test]
fn texts_that_are_put(rt: HostRuntime) {
    let mut field = *b"................";
    for &(text, outcome) in PUT_TEXTS {
        assert!(rt; put_text(text, &mut field) == outcome);
        assert!(rt; &field == b"MILL STREET     ");
    }
}

fn printed(day: Result<Ymd, FieldFault>) -> Result<[u8; 6], FieldFault> {
    Ok(day?.print())
}

/// Texts, each with the day that it is.
const DAYS: &[(&[u8; 6], Result<[u8; 6], FieldFault>)] = &[
    (b"250230", Ok(*b"250230")),
    (b"250132", Err(FieldFault::BadDate)),
    (b"25 108", Err(FieldFault::NotDigit)),
];

#[test]
fn days(rt: HostRuntime) {
    for &(text, day) in DAYS {
        assert!(rt; printed(Ymd::parse(text)) == day);
    }
    assert!(rt; printed(Ymd::new(25, 1, 8)) == Ok(*b"250108"));
    assert!(rt; printed(Ymd::new(25, 13, 8)) == Err(FieldFault::BadDate));
}

/// Texts, each with the DFI and the sequence number of the trace that it is.
const TRACES: &[(&[u8], Result<(u32, u32), FieldFault>)] = &[
    (b"121042880000001", Ok((12_104_288, 1))),
    (b"121042880000041", Ok((12_104_288, 41))),
    (b"12104288 000041", Err(FieldFault::NotDigit)),
];

fn trace_parts(text: &[u8]) -> Result<(u32, u32), FieldFault> {
    let trace = Trace::parse(text)?;
    Ok((trace.dfi(), trace.sequence()))
}

fn trace_text(dfi: u32, sequence: u32) -> Result<[u8; 15], FieldFault> {
    Ok(Trace::new(dfi, sequence)?.text())
}

#[test]
fn traces(rt: HostRuntime) {
    for &(text, parts) in TRACES {
        assert!(rt; trace_parts(text) == parts);
    }
    assert!(rt; trace_text(12_104_288, 1) == Ok(*b"121042880000001"));
    assert!(rt; trace_text(12_104_288, 10_000_000) == Err(FieldFault::TooLong));
}

/// Texts, each with its fault as a reference.
const REFERENCES: &[(&[u8], Option<FieldFault>)] = &[
    (b"PAY-1", None),
    (b"abcdefghij0123456789", None),
    (b"abcdefghij01234567890", Some(FieldFault::TooLong)),
    (b"", Some(FieldFault::NotText)),
    (b"PAY 1", Some(FieldFault::NotText)),
];

#[test]
fn references(rt: HostRuntime) {
    for &(text, fault) in REFERENCES {
        let is_right = match Ref::new(text) {
            Ok(reference) => fault.is_none() && reference.bytes() == text,
            Err(told) => fault == Some(told),
        };
        assert!(rt; is_right);
    }
}

/// Texts, each with its fault as an identification.
const IDENTIFICATIONS: &[(&[u8], Option<FieldFault>)] = &[
    (b"MILL01", None),
    (b"mill01", Some(FieldFault::NotText)),
    (b"MILL0123456", Some(FieldFault::TooLong)),
];

#[test]
fn identifications(rt: HostRuntime) {
    for &(text, fault) in IDENTIFICATIONS {
        let is_right = match Id::new(text) {
            Ok(id) => fault.is_none() && id.bytes() == text,
            Err(told) => fault == Some(told),
        };
        assert!(rt; is_right);
    }
}

/// Texts, each with its fault as a text of at most 16 characters.
const SHORT_TEXTS: &[(&[u8], Option<FieldFault>)] = &[
    (b"MILL STREET", None),
    (b"MILL STREET ", Some(FieldFault::NotText)),
];

#[test]
fn short_texts(rt: HostRuntime) {
    for &(text, fault) in SHORT_TEXTS {
        let name: Result<ShortText<16>, FieldFault> = ShortText::new(text);
        let is_right = match name {
            Ok(name) => fault.is_none() && name.bytes() == text,
            Err(told) => fault == Some(told),
        };
        assert!(rt; is_right);
    }
}
