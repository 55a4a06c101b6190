//! Lists of entries: the message, or the line of the fault, for lists that are read from a reader
//! and from a path.
use super::{NOBODY, carry_out, prints};
use cli_submit::SubmitOptions;
use desk_cli::{Command, Status, submit_list, submit_message};
use std::alloc::{AllocError, Global};
use std::fs;
use std::test::Fail;

/// The first row of a list.
const HEADER: &[u8] = b"routing,account,kind,prenote,cents,id,name,info\n";

/// The options of the list below.
pub const OPTIONS: SubmitOptions<'static> = SubmitOptions {
    company: "MILL01",
    key: "mill-street-key",
    reference: "PAY-1",
    sec: "PPD",
    direction: "credit",
    description: "PAYROLL",
    day: "2025-01-10",
};

/// A list of one credit of 1500.00 to a checking account.
pub const PAY_LIST: &[u8] =
    b"routing,account,kind,prenote,cents,id,name,info\n091000019,123456789,checking,,150000,E1,ANN LEE,\n";

/// And its message.
pub const PAY_MESSAGE: &str =
    "POST /c/MILL01/submissions HTTP/1.1\r\nHost: 127.0.0.1\r\nX-Desk-Key: mill-street-key\r\nContent-Length: 209\r\n\r\n{\"day\":\"2025-01-10\",\"description\":\"PAYROLL\",\"direction\":\"credit\",\"entries\":[{\"account\":\"123456789\",\"cents\":150000,\"id\":\"E1\",\"kind\":\"checking\",\"name\":\"ANN LEE\",\"routing\":\"091000019\"}],\"ref\":\"PAY-1\",\"sec\":\"PPD\"}";

/// Whole lists, how a run over each ends, and what it prints.
const WHOLE_LISTS: &[(&[u8], Status, &str)] = &[
    (PAY_LIST, Status::Done, PAY_MESSAGE),
    (
        b"routing,account,kind,prenote,cents,id,name,info\r\n091000019,123456789,checking,,150000,E1,ANN LEE,\r\n",
        Status::Done,
        PAY_MESSAGE,
    ),
    (
        b"\xef\xbb\xbfrouting,account,kind,prenote,cents,id,name,info\n091000019,123456789,checking,,150000,E1,ANN LEE,",
        Status::Done,
        PAY_MESSAGE,
    ),
    (
        b"\n\nrouting,account,kind,prenote,cents,id,name,info\n\n091000019,123456789,checking,,150000,E1,ANN LEE,\n\n",
        Status::Done,
        PAY_MESSAGE,
    ),
    (
        b"\"routing\",account,kind,prenote,cents,id,name,info\n091000019,\"123456789\",checking,\"\",000150000,E1,\"ANN LEE\",\n",
        Status::Done,
        PAY_MESSAGE,
    ),
    (b"", Status::Refused, "bad header\n"),
    (
        b"routing,account,kind,prenote,cents,id,name\n",
        Status::Refused,
        "bad header\n",
    ),
    (
        b"account,routing,kind,prenote,cents,id,name,info\n",
        Status::Refused,
        "bad header\n",
    ),
    (
        b"091000019,123456789,checking,,150000,E1,ANN LEE,\n",
        Status::Refused,
        "bad header\n",
    ),
];

/// A company and a key, one of them invalid, and the line that is printed.
const BAD_OPTIONS: &[(&str, &str, &str)] = &[
    ("mill01", "mill-street-key", "bad company\n"),
    ("", "short", "bad company\n"),
    ("MILL0100000", "mill-street-key", "bad company\n"),
    ("MILL01", "1234567", "bad key\n"),
    ("MILL01", "mill street key", "bad key\n"),
];

/// The text after the header of a list, and the line that is printed.
const BAD_ROWS: &[(&[u8], &str)] = &[
    (
        b"091000019,123456789,checking,,1.5,E1,ANN LEE,\n",
        "row 1: bad cents\n",
    ),
    (b"1,2,3,,4,5,6\n", "row 1: bad row\n"),
    (b"1,2,3,,4,5,6,7,8\n", "row 1: bad row\n"),
    (b"1,2,3,,4,5,\xff,\n", "row 1: bad row\n"),
    (b"1,2,3,,,5,6,\n", "row 1: bad cents\n"),
    (b"1,2,3,,1234567890123456789,5,6,\n", "row 1: bad cents\n"),
    (b"1,2,3,no,4,5,6,\n", "row 1: bad prenote\n"),
    (b"1,2,3,no,x,5,6,\n", "row 1: bad cents\n"),
    (
        b"1,2,3,,4,5,6,\n\n1,2,3,yes,4,5,6,\n1,2,3,Yes,4,5,6,\n1,2\n",
        "row 3: bad prenote\n",
    ),
    (b"1,2,3,,999999999999999999,5,6,\n1,2\n", "row 2: bad row\n"),
];

/// How many good rows a list has, and the line that is printed where a bad one follows. A desk
/// takes 1,000 entries and refuses one more, so the message of that is made too.
const LONG_LISTS: &[(usize, &str)] = &[
    (1_000, "row 1001: bad row\n"),
    (1_001, "row 1002: bad row\n"),
];

/// The end of the message of a list of this length.
const LAST_ENTRY: &[u8] = b"\"routing\":\"1\"}],\"ref\":\"PAY-1\",\"sec\":\"PPD\"}";

/// The end of the message of a list without entries.
const NO_ENTRIES: &[u8] = b"\"entries\":[],\"ref\":\"PAY-1\",\"sec\":\"PPD\"}";

/// The path of the lists that the tests write.
const PATH: &str = "list.csv";

// Returns the end of a run over a list at a path, and its output, if a run over a reader does the
// same.
fn outcome(
    rt: &HostRuntime,
    options: SubmitOptions<'_>,
    list: &[u8],
) -> Result<(Status, Vec<u8>), Fail> {
    let mut from_reader = Vec::new(rt.alloc());
    let mut from_path = Vec::new(rt.alloc());
    let mut reader = list;
    let read = submit_list(rt.alloc(), &options, &mut reader, &mut from_reader);
    fs::write(rt, PATH, list)?;
    let opened = carry_out(rt, &Command::Submit(PATH, options), NOBODY, &mut from_path);
    fs::remove_file(rt, PATH)?;
    if read != opened || from_reader.as_slice() != from_path.as_slice() {
        return Err(Fail::from("a reader and a path differ"));
    }
    Ok((opened, from_path))
}

// Does a run over a list end so, and print this?
fn says(
    rt: &HostRuntime,
    options: SubmitOptions<'_>,
    list: &[u8],
    status: Status,
    text: &str,
) -> Result<bool, Fail> {
    let (ended, printed) = outcome(rt, options, list)?;
    Ok(ended == status && printed.as_slice() == text.as_bytes())
}

// Is a message of a list made that ends so?
fn has_message(rt: &HostRuntime, list: &[u8], end: &[u8]) -> Result<bool, Fail> {
    let (ended, printed) = outcome(rt, OPTIONS, list)?;
    Ok(ended == Status::Done && printed.as_slice().ends_with(end))
}

// Returns the header and this many copies of a row.
fn rows(alloc: Global, row: &[u8], count: usize) -> Result<Vec<u8>, AllocError> {
    let mut list = Vec::from_slice(alloc, HEADER)?;
    for _ in 0..count {
        list.extend_from_slice(row)?;
    }
    Ok(list)
}

// The header, and blank lines up to a length.
fn with_blank_lines(alloc: Global, len: usize) -> Result<Vec<u8>, AllocError> {
    let mut list = Vec::from_slice(alloc, HEADER)?;
    list.resize(len, b'\n')?;
    Ok(list)
}

#[test]
fn the_message_of_a_list(rt: HostRuntime) -> Result<(), Fail> {
    let message = submit_message(rt.alloc(), &OPTIONS, PAY_LIST)
        .ok()
        .ok_or("memory")?;
    assert!(rt; message.as_slice() == PAY_MESSAGE.as_bytes());
    Ok(())
}

#[test]
fn whole_lists(rt: HostRuntime) -> Result<(), Fail> {
    for &(list, status, text) in WHOLE_LISTS {
        assert!(rt; says(&rt, OPTIONS, list, status, text)?, "{list:?}");
    }
    Ok(())
}

#[test]
fn faults_of_the_options(rt: HostRuntime) -> Result<(), Fail> {
    for &(company, key, line) in BAD_OPTIONS {
        let options = SubmitOptions {
            company,
            key,
            ..OPTIONS
        };
        assert!(rt;
            says(&rt, options, PAY_LIST, Status::Refused, line)?,
            "{company} {key}"
        );
        assert!(rt;
            says(&rt, options, b"1,2,3\n", Status::Refused, line)?,
            "{company} {key}"
        );
    }
    Ok(())
}

#[test]
fn faults_of_rows(rt: HostRuntime) -> Result<(), Fail> {
    for &(row, line) in BAD_ROWS {
        let list = rows(rt.alloc(), row, 1)?;
        assert!(rt;
            says(&rt, OPTIONS, list.as_slice(), Status::Refused, line)?,
            "{row:?}"
        );
    }
    Ok(())
}

#[test]
fn long_lists(rt: HostRuntime) -> Result<(), Fail> {
    for &(count, line) in LONG_LISTS {
        let mut list = rows(rt.alloc(), b"1,2,3,,4,5,6,\n", count)?;
        assert!(rt; has_message(&rt, list.as_slice(), LAST_ENTRY)?, "{count}");
        list.extend_from_slice(b"1,2,3,,4,5,6\n")?;
        assert!(rt;
            says(&rt, OPTIONS, list.as_slice(), Status::Refused, line)?,
            "{count}"
        );
    }
    Ok(())
}

#[test]
fn the_most_bytes_and_one_more(rt: HostRuntime) -> Result<(), Fail> {
    let mut list = with_blank_lines(rt.alloc(), 4_194_304)?;
    assert!(rt; list.len() == 4_194_304);
    assert!(rt; has_message(&rt, list.as_slice(), NO_ENTRIES)?);
    list.push(b'\n')?;
    assert!(rt;
        says(
            &rt,
            OPTIONS,
            list.as_slice(),
            Status::Refused,
            "too large\n"
        )?
    );
    Ok(())
}

#[test]
fn no_list(rt: HostRuntime) {
    let command = Command::Submit("out/no such folder/no such list", OPTIONS);
    assert!(rt; prints(&rt, &command, NOBODY, Status::Failed, b"unavailable\n"));
}
