//! The order of faults, and their printed lines.
use super::{OPTIONS, fails};
use cli_submit::{InputFault, RowFault, SubmitOptions};

/// A company, its key, and the first fault of a list whose header is bad.
const FIRST: &[(&str, &str, InputFault)] = &[
    ("mill01", "short", InputFault::BadCompany),
    ("", "mill-street-key", InputFault::BadCompany),
    ("MILL0100000", "mill-street-key", InputFault::BadCompany),
    ("MILL01", "1234567", InputFault::BadKey),
    ("MILL01", "mill street key", InputFault::BadKey),
    ("MILL010000", "12345678", InputFault::BadHeader),
];

#[test]
fn companies_come_first_then_keys_then_headers(rt: HostRuntime) {
    for &(company, key, fault) in FIRST {
        let options = SubmitOptions {
            company,
            key,
            ..OPTIONS
        };
        fails(&rt, &options, b"1,2,3\n", fault);
    }
}

const LINES: &[(InputFault, &str)] = &[
    (InputFault::BadCompany, "bad company"),
    (InputFault::BadKey, "bad key"),
    (InputFault::TooLarge, "too large"),
    (InputFault::BadHeader, "bad header"),
    (InputFault::Row(1, RowFault::BadRow), "row 1: bad row"),
    (InputFault::Row(12, RowFault::BadCents), "row 12: bad cents"),
    (
        InputFault::Row(1_001, RowFault::BadPrenote),
        "row 1001: bad prenote",
    ),
];

#[test]
fn lines(rt: HostRuntime) {
    for &(fault, wanted) in LINES {
        let line = fault.line(rt.alloc()).expect(&rt, "memory");
        assert!(rt; line.as_str() == wanted, "{wanted}");
    }
}
