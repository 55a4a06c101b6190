//! Rows as `csv` finds them, and the fault of each.
use super::{HEADER, Made, OPTIONS, fails, list_makes, make};
use crate::sessions::texts::join_texts;
use cli_submit::{InputFault, RowFault};

/// The members of one entry of 4 cents in a body.
const ENTRY: &[u8] =
    b"[{\"account\":\"2\",\"cents\":4,\"id\":\"5\",\"kind\":\"3\",\"name\":\"6\",\"routing\":\"1\"}]";

/// Rows, the number of the first that is not an entry, and its fault.
const NO_ENTRIES: &[(&[u8], u64, RowFault)] = &[
    (b"1,2,3,,4,5,6\n", 1, RowFault::BadRow),
    (b"1,2,3,,4,5,6,7,8\n", 1, RowFault::BadRow),
    (b"\"\"\n", 1, RowFault::BadRow),
    (b"1,2,3,,4,5,6,\xFF\n", 1, RowFault::BadRow),
    (b"1,\xC3\x28,3,,4,5,6,\n", 1, RowFault::BadRow),
    (b"1,2,3,,1.5,5,6,\n", 1, RowFault::BadCents),
    (b"1,2,3,,,5,6,\n", 1, RowFault::BadCents),
    (b"1,2,3,,-4,5,6,\n", 1, RowFault::BadCents),
    (b"1,2,3,, 4,5,6,\n", 1, RowFault::BadCents),
    (b"1,2,3,,1000000000000000000,5,6,\n", 1, RowFault::BadCents),
    (b"1,2,3,no,4,5,6,\n", 1, RowFault::BadPrenote),
    (b"1,2,3,Yes,4,5,6,\n", 1, RowFault::BadPrenote),
    // The first fault of the first row decides.
    (
        b"1,2,3,,4,5,6,\n1,2,3,no,x,5,6,\n1,2\n",
        2,
        RowFault::BadCents,
    ),
    (b"1,2,3,no,x,5,6,\xFF\n", 1, RowFault::BadRow),
    // Blank lines are not counted.
    (b"\n\r\n1,2,3,,x,5,6,\n", 1, RowFault::BadCents),
];

#[test]
fn rows_that_are_no_entry(rt: HostRuntime) {
    for &(rows, number, fault) in NO_ENTRIES {
        let list = join_texts(&rt, &[HEADER, rows]);
        fails(&rt, &OPTIONS, &list, InputFault::Row(number, fault));
    }
}

const BLANKS_ENDS_AND_QUOTES: &[Made] = &[
    (b"\n\n1,2,3,,4,5,6,\n\r\n", ENTRY),
    (b"1,2,3,,4,5,6,\r\n", ENTRY),
    (b"1,2,3,,4,5,6,\r", ENTRY),
    (b"1,2,3,,4,5,6,", ENTRY),
    (b"\"1\",\"2\",\"3\",\"\",\"4\",\"5\",\"6\",\"\"\n", ENTRY),
    (
        b"1,2,3,,4,5,\"LEE, ANN\",\n",
        b"[{\"account\":\"2\",\"cents\":4,\"id\":\"5\",\"kind\":\"3\",\"name\":\"LEE, ANN\",\"routing\":\"1\"}]",
    ),
    (
        b"1,2,3,,4,5,\"THE \"\"MILL\"\"\",\n",
        b"[{\"account\":\"2\",\"cents\":4,\"id\":\"5\",\"kind\":\"3\",\"name\":\"THE \\\"MILL\\\"\",\"routing\":\"1\"}]",
    ),
];

#[test]
fn blank_lines_and_line_ends_and_quotes(rt: HostRuntime) {
    make(&rt, BLANKS_ENDS_AND_QUOTES);
}

/// These have the header with a byte order mark, and with quotes.
const WITH_HEADERS: &[&[u8]] = &[
    b"\xEF\xBB\xBFrouting,account,kind,prenote,cents,id,name,info\r\n1,2,3,,4,5,6,\r\n",
    b"\"routing\",account,kind,prenote,cents,id,name,\"info\"\n1,2,3,,4,5,6,\n",
];

/// These have none, or another one.
const WITHOUT_HEADERS: &[&[u8]] = &[
    b"",
    b"\n\n",
    b"1,2,3,,4,5,6,\n",
    b"routing,account,kind,prenote,cents,id,name\n",
    b"routing,account,kind,prenote,cents,id,name,info,more\n",
    b"account,routing,kind,prenote,cents,id,name,info\n",
    b"Routing,account,kind,prenote,cents,id,name,info\n",
];

#[test]
fn headers(rt: HostRuntime) {
    for list in WITH_HEADERS {
        list_makes(&rt, list, ENTRY);
    }
}

#[test]
fn bad_headers(rt: HostRuntime) {
    for list in WITHOUT_HEADERS {
        fails(&rt, &OPTIONS, list, InputFault::BadHeader);
    }
}
