//! The answer to a submission's body, without a desk.
ghost use Rattle.std.specs.Prelude.{◌≡◌, IfOk, Some};
ghost use Rattle.http_json.specs.View.{view};
ghost use Rattle.desk_rules.specs.OrNoMemory.{IsUnlessNoMemory};
ghost use Rattle.cli_commands.specs.BodyAnswers.{submission_answer, object_answer, acceptance_text, checked_submission, IsAnswer};

use desk_rules::{RuleFault, SizedSubmission, check_fields};
use http_json::{fault_text, put_acceptance, read_object, refusal_text, submission_draft};
use json::{Scratch, Value};
use std::alloc::{AllocError, Global};

/// The most bytes of the answer to an accepted submission.
const ROOM: usize = 1_024;

/// This error says that the program is out of memory.
#[derive(Clone, Copy, Debug, PartialEq, Eq, Drop)]
pub struct NoMemory;

impl From<AllocError> for NoMemory {
    fn from(_error: AllocError) -> NoMemory {
        NoMemory
    }
}

/// Returns whether a submission's body is accepted as the first order of a desk with no limits, and the
/// line of its answer, without its end.
///
/// The body is refused for the first of these reasons: it is not a JSON object (`BadJson`), a bad field, more
/// than 1,000 entries, a total of more than 999,999,999,999 cents.
pub fn submission_answer(alloc: Global, body: &[u8]) -> Result<(bool, Vec<u8>), NoMemory>
    ensures { IfOk result (IsAnswer (submission_answer body.now)) }
{
    let mut scratch = Scratch::new(alloc);
    match read_object(alloc, body, &mut scratch)? {
        None => Ok((false, fault_text(alloc, "BadJson")?)),
        Some(value) => object_answer(alloc, &value),
    }
}

fn object_answer(alloc: Global, value: &Value<'_>) -> Result<(bool, Vec<u8>), NoMemory>
    ensures { IfOk result (IsAnswer (object_answer (Some (view value.now)))) }
{
    match checked_submission(alloc, value) {
        Ok(submission) => Ok((true, acceptance_text(alloc, &submission)?)),
        Err(RuleFault::Refused(refusal)) => Ok((false, refusal_text(alloc, refusal)?)),
        Err(RuleFault::NoMemory) => Err(NoMemory),
    }
}

fn checked_submission(alloc: Global, value: &Value<'_>) -> Result<SizedSubmission, RuleFault>
    ensures { IsUnlessNoMemory (checked_submission (view value.now)) result }
{
    let draft = submission_draft(alloc, value)?;
    let submission = check_fields(alloc, &draft)?;
    Ok(SizedSubmission::new(submission)?)
}

fn acceptance_text(alloc: Global, accepted: &SizedSubmission) -> Result<Vec<u8>, AllocError>
    ensures { IfOk result (λ t. t.items ≡ acceptance_text accepted.now) }
{
    let mut text = Vec::with_capacity(alloc, ROOM)?;
    let submission = accepted.submission();
    put_acceptance(
        &mut text,
        &submission.reference,
        accepted.total().get(),
        submission.entries.as_slice().len() as u64,
        1,
    );
    Ok(text)
}
