//! Faults of messages.
ghost use Rattle.std.specs.Prelude.{◌≡◌, IfOk};
ghost use Rattle.http_answers.specs.Faults.{message_fault_body};

use http::StatusCode;
use http_json::fault_text;
use std::alloc::{AllocError, Global};

/// The reason why a message is not a call of the desk, or the thing that a read did not find.
#[derive(Clone, Copy, Debug, PartialEq, Eq, Drop)]
pub enum MessageFault {
    /// The head is not a head of HTTP/1.1, or is too large.
    BadHead,
    /// The head does not give the number of bytes of the body.
    LengthRequired,
    /// The body has more than 4,194,304 bytes.
    TooLarge,
    /// No route has this path.
    NotFound,
    /// The path's route takes another method.
    BadMethod,
    /// The caller is unknown, or the key is not its own. The answer does not say which.
    Denied,
    /// The body is not JSON, or not an object.
    BadJson,
    /// The company has no submission and no retry with this reference.
    NoReference,
    /// No cut made a file with this day and modifier.
    NoFile,
}

impl MessageFault {
    ghost use Rattle.http_answers.specs.Faults.{fault_name, fault_status};

    /// Gives the name as bodies write it.
    pub fn name(self) -> &'static str
        ensures { result.now ≡ fault_name self }
    {
        match self {
            MessageFault::BadHead => "BadHead",
            MessageFault::LengthRequired => "LengthRequired",
            MessageFault::TooLarge => "TooLarge",
            MessageFault::NotFound => "NotFound",
            MessageFault::BadMethod => "BadMethod",
            MessageFault::Denied => "Denied",
            MessageFault::BadJson => "BadJson",
            MessageFault::NoReference => "NoReference",
            MessageFault::NoFile => "NoFile",
        }
    }

    /// Gives the HTTP status of the answer.
    pub fn status(self) -> StatusCode
        ensures { result ≡ fault_status self }
    {
        match self {
            MessageFault::BadHead | MessageFault::BadJson => StatusCode::BAD_REQUEST,
            MessageFault::LengthRequired => StatusCode::LENGTH_REQUIRED,
            MessageFault::TooLarge => StatusCode::PAYLOAD_TOO_LARGE,
            MessageFault::NotFound | MessageFault::NoReference | MessageFault::NoFile => {
                StatusCode::NOT_FOUND
            }
            MessageFault::BadMethod => StatusCode::METHOD_NOT_ALLOWED,
            MessageFault::Denied => StatusCode::FORBIDDEN,
        }
    }
}

/// Gives the body of a fault of a message, which has its name under `error` and nothing else.
pub fn message_fault_text(alloc: Global, fault: MessageFault) -> Result<Vec<u8>, AllocError>
    ensures { IfOk result (λ text. text.items ≡ message_fault_body fault) }
{
    fault_text(alloc, fault.name())
}
