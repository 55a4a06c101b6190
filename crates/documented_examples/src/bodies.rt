//! Bodies. That of a submission is answered as the program answers it; the others are read and checked.
use crate::commands::add_lines;
use bank_days::{Calendar, CalendarFault};
use cli_commands::{first_run, submit_list};
use cli_submit::SubmitOptions;
use desk_rules::{
    Refusal, check_company_fields, check_day_field, check_limits_fields, check_retry_fields,
};
use http_json::{
    company_draft, day_draft, fault_text, limits_draft, read_object, refusal_text, retry_draft,
};
use json::{Scratch, Value};
use std::alloc::{AllocError, Global};

/// The digest that a company's key is given: the fields do not depend on it.
const DIGEST: [u8; 32] = [7; 32];

/// The options with which lists are submitted.
const OPTIONS: SubmitOptions<'static> = SubmitOptions {
    company: "MILL01",
    key: "mill-street-key",
    reference: "PAY-1",
    sec: "PPD",
    direction: "credit",
    description: "PAYROLL",
    day: "2025-01-10",
};

/// The answer to a body of this kind, with its line ended; none where the words name no kind. `read` says
/// that a body is read, where no program answers it.
pub(crate) fn body_answer(
    alloc: Global,
    words: &str,
    body: &str,
) -> Result<Option<Vec<u8>>, AllocError> {
    match words {
        "json submission" => Ok(Some(submission_answer(alloc, body))),
        "csv holidays" => Ok(Some(holidays_answer(alloc, body)?)),
        "csv list" => Ok(Some(list_answer(alloc, body)?)),
        "json retry" | "json day" | "json company" | "json limits" => {
            let mut answer = object_answer(alloc, words, body)?;
            answer.push(b'\n')?;
            Ok(Some(answer))
        }
        _ => Ok(None),
    }
}

fn submission_answer(alloc: Global, body: &str) -> Vec<u8> {
    let mut answer = Vec::new(alloc);
    let _status = first_run(alloc, &mut body.as_bytes(), &mut answer);
    answer
}

fn list_answer(alloc: Global, list: &str) -> Result<Vec<u8>, AllocError> {
    let mut printed = Vec::new(alloc);
    let _status = submit_list(alloc, &OPTIONS, &mut list.as_bytes(), &mut printed);
    let mut answer = Vec::new(alloc);
    add_lines(&mut answer, printed.as_slice())?;
    Ok(answer)
}

fn holidays_answer(alloc: Global, list: &str) -> Result<Vec<u8>, AllocError> {
    let line = match Calendar::read(alloc, list.as_bytes()) {
        Ok(calendar) => {
            let days = calendar.holidays().len();
            format!(in alloc; "read {days} days\n")?
        }
        Err(CalendarFault::BadRow(row)) => format!(in alloc; "BadRow at row {row}\n")?,
        Err(CalendarFault::NotAscending(row)) => format!(in alloc; "NotAscending at row {row}\n")?,
        Err(CalendarFault::TooMany) => format!(in alloc; "TooMany\n")?,
        Err(CalendarFault::NoMemory) => return Err(AllocError),
    };
    Ok(line.into_bytes())
}

fn object_answer(alloc: Global, words: &str, body: &str) -> Result<Vec<u8>, AllocError> {
    let mut scratch = Scratch::new(alloc);
    let Some(value) = read_object(alloc, body.as_bytes(), &mut scratch)? else {
        return fault_text(alloc, "BadJson");
    };
    match refusal_of(alloc, words, &value)? {
        Some(refusal) => refusal_text(alloc, refusal),
        None => Vec::from_slice(alloc, b"read"),
    }
}

// Why the body of an object is refused, if it is.
fn refusal_of(
    alloc: Global,
    words: &str,
    value: &Value<'_>,
) -> Result<Option<Refusal>, AllocError> {
    match words {
        "json retry" => retry_refusal(alloc, value),
        "json day" => Ok(check_day_field(&day_draft(alloc, value)?).err()),
        "json company" => { Ok(check_company_fields(&company_draft(alloc, value, DIGEST)?).err()) }
        _ => Ok(check_limits_fields(&limits_draft(alloc, value)?).err()),
    }
}

// A `match` in the place of `err`, which the gate's prover does not follow over a retry.
fn retry_refusal(alloc: Global, value: &Value<'_>) -> Result<Option<Refusal>, AllocError> {
    match check_retry_fields(&retry_draft(alloc, value)?) {
        Ok(_) => Ok(None),
        Err(refusal) => Ok(Some(refusal)),
    }
}
