//! The HTTP status and the kind of content of each answer.
ghost use Rattle.std.specs.Prelude.{◌≡◌};
ghost use Rattle.http_answers.specs.Statuses.{OneKind, content_of, found_status, kind_of_call, outcome_status, status_of};

use crate::refusal::refusal_status;
use desk_history::{Answer, Call, Outcome};
use http::StatusCode;
use http_response::Content;

/// The rule for the HTTP status of a call that was not refused.
#[derive(Clone, Copy, Debug, PartialEq, Eq, Drop)]
pub enum CallKind {
    /// The call creates something, or created it before: 201.
    Creates,
    /// The call looks for one thing: 200, or 404 where it is not there.
    LooksUp,
    /// Any other call: 200.
    Other,
}

/// Gives the kind of a call.
pub fn kind_of_call(call: &Call) -> CallKind
    ensures { result ≡ kind_of_call call.now }
{
    match call {
        Call::Submit(_, _) | Call::Retry(_, _) | Call::PutCompany(_) => CallKind::Creates,
        Call::LookUp(_, _) | Call::FileText(_, _) => CallKind::LooksUp,
        _ => CallKind::Other,
    }
}

/// The kind of a call is that of the message that it is.
pub fn one_kind()
    ensures { OneKind }
{}

/// Returns the HTTP status of the answer to a call of this kind: 200, 201 or 404 if it was done,
/// and that of the refusal, 409 or 422, if it was refused.
pub fn status_of(kind: CallKind, answer: &Answer) -> StatusCode
    ensures { result ≡ status_of kind answer.now }
{
    match answer {
        Answer::Done(outcome) => outcome_status(kind, outcome),
        Answer::Refused(why) => refusal_status(*why),
    }
}

fn outcome_status(kind: CallKind, outcome: &Outcome) -> StatusCode
    ensures { result ≡ outcome_status kind outcome.now }
{
    match kind {
        CallKind::Creates => StatusCode::CREATED,
        CallKind::LooksUp => found_status(outcome),
        CallKind::Other => StatusCode::OK,
    }
}

fn found_status(outcome: &Outcome) -> StatusCode
    ensures { result ≡ found_status outcome.now }
{
    match outcome {
        Outcome::Found(None) | Outcome::File(None) => StatusCode::NOT_FOUND,
        _ => StatusCode::OK,
    }
}

/// Gives the kind of content of an answer's body: a file is plain text, and all else is JSON.
pub fn content_of(answer: &Answer) -> Content
    ensures { result ≡ content_of answer.now }
{
    match answer {
        Answer::Done(Outcome::File(Some(_))) => Content::PlainText,
        _ => Content::Json,
    }
}
