//! Bodies at the limits of size and depth.
use super::{PAY_1, PAY_1_LINE, PREFIX, answers};
use desk_cli::Status;
use std::alloc::{AllocError, Global};
use std::test::Fail;

const ENTRY: &str =
    "{\"routing\":\"091000019\",\"account\":\"1\",\"kind\":\"checking\",\"cents\":9999999999,\"id\":\"\",\"name\":\"BOB\"}";

const SMALL_ENTRY: &str =
    "{\"routing\":\"091000019\",\"account\":\"1\",\"kind\":\"checking\",\"cents\":99,\"id\":\"\",\"name\":\"BOB\"}";

const LARGER_ENTRY: &str =
    "{\"routing\":\"091000019\",\"account\":\"1\",\"kind\":\"checking\",\"cents\":100,\"id\":\"\",\"name\":\"BOB\"}";

// Returns a submission with this many copies of an entry, and one more.
fn submission(alloc: Global, count: usize, entry: &str, last: &str) -> Result<Vec<u8>, AllocError> {
    let mut body = Vec::from_slice(alloc, PREFIX.as_bytes())?;
    for _ in 0..count {
        body.extend_from_slice(entry.as_bytes())?;
        body.push(b',')?;
    }
    body.extend_from_slice(last.as_bytes())?;
    body.extend_from_slice(b"]}")?;
    Ok(body)
}

// Returns a body with an object that has this many nested lists under a key that nobody reads.
fn nested_lists(alloc: Global, depth: usize) -> Result<Vec<u8>, AllocError> {
    let prefix = b"{\"x\":";
    let middle = prefix.len().saturating_add(depth);
    let mut body = Vec::from_slice(alloc, prefix)?;
    body.resize(middle, b'[')?;
    body.resize(middle.saturating_add(depth), b']')?;
    body.push(b'}')?;
    Ok(body)
}

// PAY-1 with blanks after it, up to a length.
fn with_blanks(alloc: Global, len: usize) -> Result<Vec<u8>, AllocError> {
    let mut body = Vec::from_slice(alloc, PAY_1)?;
    body.resize(len, b' ')?;
    Ok(body)
}

/// The number of copies of an entry before another one, the end of a run over the submission, and
/// the line that it prints.
const SUBMISSIONS: &[(usize, &str, &str, Status, &str)] = &[
    (
        100,
        ENTRY,
        SMALL_ENTRY,
        Status::Done,
        "{\"cents\":999999999999,\"entries\":101,\"order\":1,\"ref\":\"P\"}\n",
    ),
    (
        100,
        ENTRY,
        LARGER_ENTRY,
        Status::Refused,
        "{\"error\":\"TotalTooLarge\",\"number\":5}\n",
    ),
    (
        999,
        SMALL_ENTRY,
        SMALL_ENTRY,
        Status::Done,
        "{\"cents\":99000,\"entries\":1000,\"order\":1,\"ref\":\"P\"}\n",
    ),
    (
        1_000,
        SMALL_ENTRY,
        SMALL_ENTRY,
        Status::Refused,
        "{\"error\":\"TooManyEntries\",\"number\":4}\n",
    ),
    (
        1_500,
        SMALL_ENTRY,
        SMALL_ENTRY,
        Status::Refused,
        "{\"error\":\"TooManyEntries\",\"number\":4}\n",
    ),
    (
        1_000,
        SMALL_ENTRY,
        "null",
        Status::Refused,
        "{\"error\":\"BadField\",\"field\":\"entries\",\"index\":1001,\"number\":2}\n",
    ),
];

/// The number of nested lists, and the line that is printed for the body.
const DEPTHS: &[(usize, &str)] = &[
    (
        126,
        "{\"error\":\"BadField\",\"field\":\"ref\",\"index\":0,\"number\":2}\n",
    ),
    (127, "{\"error\":\"BadJson\"}\n"),
    (130, "{\"error\":\"BadJson\"}\n"),
];

/// Lengths of PAY-1 with blanks after it, and how a run over each ends, with its line.
const LENGTHS: &[(usize, Status, &str)] = &[
    (4_194_304, Status::Done, PAY_1_LINE),
    (4_194_305, Status::Refused, "{\"error\":\"TooLarge\"}\n"),
];

/// The text before and after a text of 10,000 bytes, under each key that takes one, and under a key
/// that nobody reads; and the line that is printed for the body.
const LONG_TEXTS: &[(&str, &str, &str)] = &[
    (
        "{\"ref\":\"",
        "\"}",
        "{\"error\":\"BadField\",\"field\":\"ref\",\"index\":0,\"number\":2}\n",
    ),
    (
        "{\"ref\":\"P\",\"sec\":\"",
        "\"}",
        "{\"error\":\"BadField\",\"field\":\"sec\",\"index\":0,\"number\":2}\n",
    ),
    (
        "{\"note\":\"",
        "\",\"ref\":\"P\",\"sec\":\"PPD\"}",
        "{\"error\":\"BadField\",\"field\":\"direction\",\"index\":0,\"number\":2}\n",
    ),
    (
        "{\"ref\":\"P\",\"sec\":\"CCD\",\"direction\":\"debit\",\"description\":\"DUES\",\"day\":\"2024-02-29\",\"entries\":[{\"routing\":\"091000019\",\"account\":\"1\",\"kind\":\"checking\",\"cents\":99,\"id\":\"\",\"name\":\"BOB\"},{\"routing\":\"091000019\",\"account\":\"1\",\"kind\":\"checking\",\"cents\":99,\"id\":\"\",\"name\":\"",
        "\"}]}",
        "{\"error\":\"BadField\",\"field\":\"name\",\"index\":2,\"number\":2}\n",
    ),
];

// A body with the text of 10,000 bytes between these two.
fn around_long_text(alloc: Global, before: &str, after: &str) -> Result<Vec<u8>, AllocError> {
    let mut body = Vec::from_slice(alloc, before.as_bytes())?;
    body.resize(before.len().saturating_add(10_000), b'A')?;
    body.extend_from_slice(after.as_bytes())?;
    Ok(body)
}

#[test]
fn totals_and_counts(rt: HostRuntime) -> Result<(), Fail> {
    for &(count, entry, last, status, line) in SUBMISSIONS {
        let body = submission(rt.alloc(), count, entry, last)?;
        assert!(rt;
            answers(rt.alloc(), body.as_slice(), status, line),
            "{count} {last}"
        );
    }
    Ok(())
}

#[test]
fn depths(rt: HostRuntime) -> Result<(), Fail> {
    for &(depth, line) in DEPTHS {
        let body = nested_lists(rt.alloc(), depth)?;
        assert!(rt;
            answers(rt.alloc(), body.as_slice(), Status::Refused, line),
            "{depth}"
        );
    }
    Ok(())
}

#[test]
fn lengths(rt: HostRuntime) -> Result<(), Fail> {
    for &(len, status, line) in LENGTHS {
        let body = with_blanks(rt.alloc(), len)?;
        assert!(rt; answers(rt.alloc(), body.as_slice(), status, line), "{len}");
    }
    Ok(())
}

#[test]
fn long_texts(rt: HostRuntime) -> Result<(), Fail> {
    for &(before, after, line) in LONG_TEXTS {
        let body = around_long_text(rt.alloc(), before, after)?;
        assert!(rt;
            answers(rt.alloc(), body.as_slice(), Status::Refused, line),
            "{line}"
        );
    }
    Ok(())
}
