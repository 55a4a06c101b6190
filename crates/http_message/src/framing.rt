//! What a head says of the body that follows it.
ghost use Rattle.std.specs.Prelude.{◌≡◌, ◌+◌, ◌↔◌, codes, min, IsTrue, IsSome, IfSome};
ghost use Rattle.std.specs.Str.Parse.{digits_value};
ghost use Rattle.http_message.specs.Framing.{framing_of, is_number};

use crate::fields::{Fields, is_repeated, value_of};
use http::Method;

/// The most bytes of a body.
pub const MAX_BODY: usize = 4_194_304;

/// What a head says of the body that follows it.
#[derive(Clone, Copy, PartialEq, Eq, Debug)]
pub enum Framing {
    /// There are two lengths, or one that is empty or not all digits.
    BadLength,
    /// The body has another coding than its length, or a POST has no length.
    LengthRequired,
    /// The body would be longer than `MAX_BODY`.
    TooLarge,
    /// The body has so many bytes.
    Body(usize),
}

/// The number that the digits write, or `MAX_BODY + 1` where that is less; none where they are empty or
/// not all digits.
fn content_length(digits: &[u8]) -> Option<usize>
    ensures valid { IsSome result ↔ IsTrue (is_number digits.now) }
    ensures value { IfSome result (λ n. n ≡ min (digits_value 10 digits.now) (MAX_BODY + 1)) }
{
    if digits.is_empty() {
        return None;
    }
    let mut value = 0;
    let mut unread = digits;
    while let [digit, rest @ ..] = unread {
        if !digit.is_ascii_digit() {
            return None;
        }
        value = (value * 10 + (digit - b'0') as usize).min(MAX_BODY + 1);
        unread = rest;
    }
    Some(value)
}

/// What a head with this method and these fields says of its body. The first that fits decides: a bad
/// length, a length that is required, a body that is too large.
pub(crate) fn framing_of(method: &[u8], fields: &Fields<'_>) -> Framing
    ensures { result ≡ framing_of method.now fields.now }
{
    let length = match value_of(fields, b"Content-Length") {
        Some(digits) => match content_length(digits) {
            Some(length) if !is_repeated(fields, b"Content-Length") => Some(length),
            _ => return Framing::BadLength,
        },
        None => None,
    };
    if value_of(fields, b"Transfer-Encoding").is_some() {
        return Framing::LengthRequired;
    }
    match length {
        Some(length) if length > MAX_BODY => Framing::TooLarge,
        Some(length) => Framing::Body(length),
        None if method == Method::POST.as_str().as_bytes() => Framing::LengthRequired,
        None => Framing::Body(0),
    }
}
