//! Bodies that are refused, and bodies that are accepted at the edge.
use super::{PAY_1, PAY_1_LINE, PREFIX, answers};
use desk_cli::{Status, submission_answer};
use std::alloc::{AllocError, Global};
use std::test::Fail;

const BAD_JSON: &str = "{\"error\":\"BadJson\"}\n";

/// Whole bodies, how a run over each ends, and the line that it prints.
const WHOLE_BODIES: &[(&[u8], Status, &str)] = &[
    (PAY_1, Status::Done, PAY_1_LINE),
    (b"[]", Status::Refused, BAD_JSON),
    (b"", Status::Refused, BAD_JSON),
    (b"5", Status::Refused, BAD_JSON),
    (b"{\"ref\":\"P\"", Status::Refused, BAD_JSON),
    (b"{\"ref\":\"\xff\"}", Status::Refused, BAD_JSON),
    (b"{\"note\":1e400}", Status::Refused, BAD_JSON),
    (
        b"{}",
        Status::Refused,
        "{\"error\":\"BadField\",\"field\":\"ref\",\"index\":0,\"number\":2}\n",
    ),
    (
        b"{\"ref\":5}",
        Status::Refused,
        "{\"error\":\"BadField\",\"field\":\"ref\",\"index\":0,\"number\":2}\n",
    ),
    (
        b"{\"ref\":\"P\",\"sec\":\"WEB\"}",
        Status::Refused,
        "{\"error\":\"BadField\",\"field\":\"sec\",\"index\":0,\"number\":2}\n",
    ),
    (
        b"{\"ref\":\"P\",\"sec\":\"PPD\",\"direction\":\"Debit\"}",
        Status::Refused,
        "{\"error\":\"BadField\",\"field\":\"direction\",\"index\":0,\"number\":2}\n",
    ),
    (
        b"{\"ref\":\"P\",\"sec\":\"PPD\",\"direction\":\"debit\",\"description\":\"REVERSAL\"}",
        Status::Refused,
        "{\"error\":\"BadField\",\"field\":\"description\",\"index\":0,\"number\":2}\n",
    ),
    (
        b"{\"ref\":\"P\",\"sec\":\"PPD\",\"direction\":\"debit\",\"description\":\"DUES\",\"day\":\"2025-02-29\",\"entries\":[]}",
        Status::Refused,
        "{\"error\":\"BadField\",\"field\":\"day\",\"index\":0,\"number\":2}\n",
    ),
    (
        b"{\"ref\":\"P\",\"sec\":\"PPD\",\"direction\":\"debit\",\"description\":\"DUES\",\"day\":\"2024-02-29\",\"entries\":[]}",
        Status::Refused,
        "{\"error\":\"BadField\",\"field\":\"entries\",\"index\":0,\"number\":2}\n",
    ),
];

/// Entries, and for each the cents that are taken, or the field for which it is refused.
const ENTRIES: &[(&str, Result<u64, &str>)] = &[
    ("5", Err("entries")),
    ("null", Err("entries")),
    ("[]", Err("entries")),
    ("{\"routing\":\"091000018\"}", Err("routing")),
    (
        "{\"routing\":\"091000019\",\"account\":\" 1\"}",
        Err("account"),
    ),
    (
        "{\"routing\":\"091000019\",\"account\":\"1\",\"kind\":\"loan\"}",
        Err("kind"),
    ),
    (
        "{\"routing\":\"091000019\",\"account\":\"1\",\"kind\":\"savings\",\"prenote\":null}",
        Err("prenote"),
    ),
    (
        "{\"routing\":\"091000019\",\"account\":\"1\",\"kind\":\"savings\",\"cents\":2500,\"id\":\"E \"}",
        Err("id"),
    ),
    (
        "{\"routing\":\"091000019\",\"account\":\"1\",\"kind\":\"savings\",\"cents\":2500,\"id\":\"\",\"name\":\"BOB\",\"info\":\"\"}",
        Err("info"),
    ),
    (
        "{\"routing\":\"091000019\",\"account\":\"1\",\"kind\":\"savings\",\"cents\":2500,\"id\":\"\",\"name\":\"BOB\"}",
        Ok(2500),
    ),
];

/// Amounts and names of an entry, and for each the cents that are taken, or the field for which it is
/// refused.
const AMOUNTS_AND_NAMES: &[(&str, &str, Result<u64, &str>)] = &[
    ("\"cents\":0", BOB_RAY, Err("cents")),
    ("\"cents\":1", BOB_RAY, Ok(1)),
    ("\"cents\":9999999999", BOB_RAY, Ok(9_999_999_999)),
    ("\"cents\":10000000000", BOB_RAY, Err("cents")),
    ("\"cents\":18446744073709551616", BOB_RAY, Err("cents")),
    ("\"cents\":1.0", BOB_RAY, Err("cents")),
    ("\"cents\":1e2", BOB_RAY, Err("cents")),
    ("\"cents\":-0", BOB_RAY, Err("cents")),
    ("\"cents\":-5", BOB_RAY, Err("cents")),
    ("\"cents\":\"5\"", BOB_RAY, Err("cents")),
    ("\"prenote\":false,\"cents\":0", BOB_RAY, Err("cents")),
    ("\"prenote\":true,\"cents\":1", BOB_RAY, Err("cents")),
    ("\"prenote\":true,\"cents\":0", BOB_RAY, Ok(0)),
    ("\"prenote\":1,\"cents\":0", BOB_RAY, Err("prenote")),
    ("\"cents\":5,\"cents\":6", BOB_RAY, Ok(6)),
    ("\"cents\":5", "\"name\":\" BOB\"", Err("name")),
    ("\"cents\":5", "\"name\":\"BOB \"", Err("name")),
    ("\"cents\":5", "\"name\":\"\"", Err("name")),
    ("\"cents\":5", "\"name\":\"ZOË\"", Err("name")),
    (
        "\"cents\":5",
        "\"name\":\"A NAME OF 23 CHARACTERS\"",
        Err("name"),
    ),
];

const BOB_RAY: &str = "\"name\":\"BOB RAY\"";

// The line that is printed of a submission of one entry.
fn line_of(alloc: Global, wanted: Result<u64, &str>) -> Result<String, AllocError> {
    match wanted {
        Ok(cents) => format!(in alloc;
            "{{\"cents\":{cents},\"entries\":1,\"order\":1,\"ref\":\"P\"}}\n"
        ),
        Err(field) => format!(in alloc;
            "{{\"error\":\"BadField\",\"field\":\"{field}\",\"index\":1,\"number\":2}}\n"
        ),
    }
}

// Is a submission of this entry alone answered so?
fn is_answered(alloc: Global, entry: &str, wanted: Result<u64, &str>) -> Result<bool, AllocError> {
    let status = match wanted {
        Ok(_) => Status::Done,
        Err(_) => Status::Refused,
    };
    let line = line_of(alloc, wanted)?;
    let body = format!(in alloc; "{PREFIX}{entry}]}}")?;
    Ok(answers(alloc, body.as_bytes(), status, line.as_str()))
}

#[test]
fn the_answer_to_a_body(rt: HostRuntime) -> Result<(), Fail> {
    let (accepted, mut line) = submission_answer(rt.alloc(), PAY_1).ok().ok_or("memory")?;
    line.push(b'\n')?;
    assert!(rt; accepted && line.as_slice() == PAY_1_LINE.as_bytes());
    Ok(())
}

#[test]
fn whole_bodies(rt: HostRuntime) {
    for &(body, status, line) in WHOLE_BODIES {
        assert!(rt; answers(rt.alloc(), body, status, line), "{line}");
    }
}

#[test]
fn one_entry(rt: HostRuntime) -> Result<(), Fail> {
    for &(entry, wanted) in ENTRIES {
        assert!(rt; is_answered(rt.alloc(), entry, wanted)?, "{entry}");
    }
    Ok(())
}

#[test]
fn amounts_and_names(rt: HostRuntime) -> Result<(), Fail> {
    for &(cents, name, wanted) in AMOUNTS_AND_NAMES {
        let entry = format!(in rt.alloc();
            "{{\"routing\":\"091000019\",\"account\":\"1\",\"kind\":\"checking\",{cents},\"id\":\"\",{name}}}"
        )?;
        assert!(rt; is_answered(rt.alloc(), entry.as_str(), wanted)?, "{entry}");
    }
    Ok(())
}
