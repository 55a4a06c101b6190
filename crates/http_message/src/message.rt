//! A message of a session.
ghost use Rattle.std.specs.Prelude.{◌≡◌};
ghost use Rattle.http_message.specs.Message.{message_value, path_of, closes};

use crate::request::Request;

/// The most messages of a session.
pub const MAX_MESSAGES: usize = 1_000;

/// A version of HTTP.
#[derive(Clone, Copy, PartialEq, Eq, Debug)]
pub enum Version {
    Http10,
    Http11,
}

/// A message of a session.
#[derive(Drop)]
pub enum Message<'a> {
    /// The bytes are no head that is small enough, or its length is bad.
    BadHead,
    Asked(Request<'a>),
}

/// The target up to its first question mark.
pub(crate) fn path_of(target: &[u8]) -> &[u8]
    ensures { result.now ≡ path_of target.now }
{
    let mut at = 0;
    while at < target.len() && target[at] != b'?' {
        at += 1;
    }
    &target[..at]
}

/// Whether the connection ends after the message is answered.
pub fn closes(message: &Message<'_>) -> bool
    ensures { result ≡ closes (message_value message.now) }
{
    match message {
        Message::BadHead => true,
        Message::Asked(request) => request.closes,
    }
}
