//! The body of each answer of the desk.
ghost use Rattle.std.specs.Prelude.{◌≡◌, ◌≤◌, ◌+◌, true, false, OnOk, OnErr, vec_len, vec_capacity};
ghost use Rattle.desk_history.specs.declared.answer.Outcome.TheVariants as outcomes;
ghost use Rattle.http_json.specs.Gains.{Gains};
ghost use Rattle.http_answers.specs.Answers.{is_of_command, is_command, GainsOutcome, GainsShort, GainsAnswer};

use crate::company::{
    add_changes, add_exposure, add_rates, add_report, add_returns, add_statement,
};
use crate::faults::{MessageFault, message_fault_text};
use crate::operator::{
    add_companies, add_settlement, add_status, add_suspense, put_company, put_cut, put_day,
    put_holidays, put_intake,
};
use crate::refusal::call_refusal_text;
use desk_history::{Answer, ListOf, Outcome, Receipt, SubmissionReport};
use http_json::put_acceptance;
use std::alloc::{AllocError, Global};

/// The room that the body of what a command did needs.
pub const BODY_ROOM: usize = 640;

/// Appends the body of an answer. The caller has reserved 640 more bytes, which is enough for the
/// result of a command: only the answer to a read, or a refusal, takes memory.
///
/// The rows of an answer are dropped as they are written. A cut lists at most 36 files, the most
/// that a day has.
pub fn write_answer(alloc: Global, text: &mut Vec<u8>, answer: Answer) -> Result<(), AllocError>
    requires { vec_len text.old + BODY_ROOM ≤ vec_capacity text.old }
    ensures body { OnOk result (GainsAnswer text.old text.new answer) }
    ensures memory { OnErr result (is_command answer ≡ false) }
    ensures len { is_command answer ≡ true → vec_len text.new ≤ vec_len text.old + BODY_ROOM }
{
    match answer {
        Answer::Done(outcome) => write_outcome(alloc, text, outcome),
        Answer::Refused(why) => add_body(text, call_refusal_text(alloc, why)?),
    }
}

/// Says whether an answer is that to a command that was carried out.
pub fn is_command(answer: &Answer) -> bool
    ensures { result ≡ is_command answer.now }
{
    match answer {
        Answer::Done(outcome) => is_of_command(outcome),
        Answer::Refused(_) => false,
    }
}

fn is_of_command(outcome: &Outcome) -> bool
    ensures { result ≡ is_of_command outcome.now }
{
    match outcome {
        Outcome::Submitted(_)
        | Outcome::Day(_)
        | Outcome::Holidays(_)
        | Outcome::Company(_)
        | Outcome::Cut(_)
        | Outcome::Taken(_) => true,
        _ => false,
    }
}

fn write_outcome(alloc: Global, text: &mut Vec<u8>, outcome: Outcome) -> Result<(), AllocError>
    requires { vec_len text.old + BODY_ROOM ≤ vec_capacity text.old }
    ensures body { OnOk result (GainsShort text.old text.new outcome) }
    ensures memory { OnErr result (is_of_command outcome ≡ false) }
    ensures len { is_of_command outcome ≡ true → vec_len text.new ≤ vec_len text.old + BODY_ROOM }
{
    if is_of_command(&outcome) {
        put_outcome(text, &outcome);
        Ok(())
    } else {
        add_outcome(alloc, text, outcome)
    }
}

// Writes the result of a command, into the reserved room.
fn put_outcome(text: &mut Vec<u8>, outcome: &Outcome)
    requires { vec_len text.old + BODY_ROOM ≤ vec_capacity text.old }
    ensures body { is_of_command outcome.now ≡ true → GainsShort text.old text.new outcome.now }
    ensures len { vec_len text.new ≤ vec_len text.old + BODY_ROOM }
{
    match outcome {
        Outcome::Submitted(receipt) => put_receipt(text, receipt),
        Outcome::Day(day) => put_day(text, *day),
        Outcome::Holidays(holidays) => put_holidays(text, *holidays),
        Outcome::Company(id) => put_company(text, id),
        Outcome::Cut(cut) => put_cut(text, cut),
        Outcome::Taken(intake) => put_intake(text, intake),
        _ => {}
    }
}

fn put_receipt(text: &mut Vec<u8>, receipt: &Receipt)
    requires { vec_len text.old + BODY_ROOM ≤ vec_capacity text.old }
    ensures body { GainsOutcome text.old text.new (outcomes.Submitted receipt.now) }
    ensures len { vec_len text.new ≤ vec_len text.old + BODY_ROOM }
{
    put_acceptance(
        text,
        &receipt.reference,
        receipt.cents.get(),
        receipt.entries,
        receipt.order,
    );
}

// Writes the result of a read, with growth.
fn add_outcome(alloc: Global, text: &mut Vec<u8>, outcome: Outcome) -> Result<(), AllocError>
    ensures { OnOk result (is_of_command outcome ≡ false → GainsOutcome text.old text.new outcome) }
{
    match outcome {
        Outcome::Found(report) => add_found(alloc, text, report),
        Outcome::Returns(rows) => add_returns(text, rows),
        Outcome::Changes(rows) => add_changes(text, rows),
        Outcome::Statement(statement) => add_statement(text, statement),
        Outcome::Rates(rates) => add_rates(text, &rates),
        Outcome::Exposure(exposure) => add_exposure(text, &exposure),
        Outcome::File(file) => add_file(alloc, text, &file),
        Outcome::Settlement(settlement) => add_settlement(text, settlement),
        Outcome::Suspense(rows) => add_suspense(text, rows),
        Outcome::Status(status) => add_status(text, status),
        Outcome::Companies(all) => add_companies(text, all),
        _ => Ok(()),
    }
}

fn add_found(
    alloc: Global,
    text: &mut Vec<u8>,
    report: Option<SubmissionReport>,
) -> Result<(), AllocError>
    ensures { OnOk result (GainsOutcome text.old text.new (outcomes.Found report)) }
{
    match report {
        Some(report) => add_report(text, report),
        None => add_body(text, message_fault_text(alloc, MessageFault::NoReference)?),
    }
}

fn add_file(alloc: Global, text: &mut Vec<u8>, file: &Option<ListOf<u8>>) -> Result<(), AllocError>
    ensures { OnOk result (GainsOutcome text.old text.new (outcomes.File file.now)) }
{
    match file {
        Some(bytes) => text.extend_from_slice(bytes.as_slice()),
        None => add_body(text, message_fault_text(alloc, MessageFault::NoFile)?),
    }
}

fn add_body(text: &mut Vec<u8>, body: Vec<u8>) -> Result<(), AllocError>
    ensures { OnOk result (Gains text.old text.new body.items) }
{
    text.extend_from_slice(&body)
}
