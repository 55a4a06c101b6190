//! The bodies and statuses of refused calls.
ghost use Rattle.std.specs.Prelude.{◌≡◌, IfOk};
ghost use Rattle.serde_json.specs.View.{view};
ghost use Rattle.serde_json.specs.Written.{compact_text};
ghost use Rattle.desk_rules.specs.RefusalNames.{status_of};
ghost use Rattle.http_answers.specs.Refusals.{calendar_fault_name, calendar_fault_row, bad_file_body, bad_calendar_body, call_refusal_body, refusal_status};

use ach_files::Fault;
use bank_days::CalendarFault;
use desk_history::CallRefusal;
use desk_rules::RefusalName;
use http::StatusCode;
use http_json::refusal_text;
use serde_json::{Value, json};
use std::alloc::{AllocError, Global};

/// Gives the body of a refused call.
pub(crate) fn call_refusal_text(alloc: Global, why: CallRefusal) -> Result<Vec<u8>, AllocError>
    ensures { IfOk result (λ text. text.items ≡ compact_text (call_refusal_body why)) }
{
    match why {
        CallRefusal::Rule(refusal) => refusal_text(alloc, refusal),
        CallRefusal::BadFile(fault) => bad_file_text(alloc, fault),
        CallRefusal::BadCalendar(fault) => bad_calendar_text(alloc, fault),
    }
}

fn bad_file_text(alloc: Global, fault: Fault) -> Result<Vec<u8>, AllocError>
    ensures { IfOk result (λ text. text.items ≡ compact_text (bad_file_body fault)) }
{
    let value = bad_file_value(alloc, fault)?;
    value.to_vec(alloc)
}

fn bad_file_value(alloc: Global, fault: Fault) -> Result<Value, AllocError>
    ensures { IfOk result (λ value. view value ≡ bad_file_body fault) }
{
    let name = fault.kind.name();
    let record = u64::from(fault.at);
    json!(in alloc; {"error": "BadFile", "fault": name, "number": 27u64, "record": record})
}

fn bad_calendar_text(alloc: Global, fault: CalendarFault) -> Result<Vec<u8>, AllocError>
    ensures { IfOk result (λ text. text.items ≡ compact_text (bad_calendar_body fault)) }
{
    let value = bad_calendar_value(alloc, fault)?;
    value.to_vec(alloc)
}

fn bad_calendar_value(alloc: Global, fault: CalendarFault) -> Result<Value, AllocError>
    ensures { IfOk result (λ value. view value ≡ bad_calendar_body fault) }
{
    let name = calendar_fault_name(fault);
    let row = calendar_fault_row(fault);
    json!(in alloc; {"error": "BadCalendar", "fault": name, "number": 28u64, "row": row})
}

fn calendar_fault_name(fault: CalendarFault) -> &'static str
    ensures { result.now ≡ calendar_fault_name fault }
{
    match fault {
        CalendarFault::BadRow(_) => "BadRow",
        CalendarFault::NotAscending(_) => "NotAscending",
        CalendarFault::TooMany => "TooMany",
        CalendarFault::NoMemory => "NoMemory",
    }
}

fn calendar_fault_row(fault: CalendarFault) -> u64
    ensures { result ≡ calendar_fault_row fault }
{
    match fault {
        CalendarFault::BadRow(row) | CalendarFault::NotAscending(row) => u64::from(row),
        CalendarFault::TooMany | CalendarFault::NoMemory => 0,
    }
}

/// Gives the HTTP status of a refused call.
pub(crate) fn refusal_status(why: CallRefusal) -> StatusCode
    ensures { result ≡ refusal_status why }
{
    match why {
        CallRefusal::Rule(refusal) => name_status(refusal.name()),
        CallRefusal::BadFile(_) => name_status(RefusalName::BadFile),
        CallRefusal::BadCalendar(_) => name_status(RefusalName::BadCalendar),
    }
}

fn name_status(name: RefusalName) -> StatusCode
    ensures { result ≡ status_of name }
{
    StatusCode::from_u16(name.status()).unwrap()
}
