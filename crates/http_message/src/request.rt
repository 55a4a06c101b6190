//! A request.
ghost use Rattle.std.specs.Prelude.{◌≡◌, ◌==◌};
ghost use Rattle.std.specs.List.{before_first};
ghost use Rattle.http_message.specs.Framing.{framing_of, closes_by};

use crate::fields::Fields;
use crate::framing::Framing;
use crate::message::Version;

/// A request: its head and its body, and what its head says of both its body and its connection.
#[derive(Drop)]
pub struct Request<'a> {
    pub method: &'a [u8],
    /// The target as it was sent, with what follows a question mark.
    pub target: &'a [u8],
    /// The target up to its first question mark.
    pub path: &'a [u8],
    pub version: Version,
    pub fields: Fields<'a>,
    pub framing: Framing,
    /// Empty where the head alone decides the answer. Who answers the request may keep it.
    pub body: Vec<u8>,
    /// Whether it is the last message that its session takes.
    pub is_last: bool,
    /// Whether the connection ends after the answer.
    pub closes: bool,
    ghost cut: { path.now ≡ before_first (λ b. b == 63) target.now },
    ghost framed: { framing ≡ framing_of method.now fields },
    ghost ends: { closes ≡ closes_by is_last version fields framing },
}
