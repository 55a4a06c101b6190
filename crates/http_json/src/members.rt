//! Members by the kind of their value.
//!
//! They are inlined: the key is a constant in almost every call, and the compiler then scans it for
//! escapes itself. This halves the cost of a short member.
ghost use Rattle.std.specs.Prelude.{◌≤◌, ◌+◌, ◌*◌, ◌++◌, ◌∷◌, [], length, vec_len, vec_capacity};
ghost use Rattle.json.specs.Print.{quoted};
ghost use Rattle.serde_json.specs.Data.{number, unsigned, string, boolean};
ghost use Rattle.serde_json.specs.Find.{of_integer};
ghost use Rattle.serde_json.specs.Written.{comma_if};
ghost use Rattle.http_json.specs.Gains.{Gains, GainsMember, GainsValue};
ghost use Rattle.http_json.specs.Members.{text_member_bound};

use crate::quoted::{put_escaped, put_quoted};
use crate::room::put;
use itoa::{Buffer, Integer};

/// Appends the key of a member with its colon, after a comma where it is not the first.
#[inline(always)]
pub fn put_key(text: &mut Vec<u8>, later: bool, key: &[u8])
    requires { vec_len text.old + (6 * length key.now + 4) ≤ vec_capacity text.old }
    ensures items { Gains text.old text.new (comma_if later ++ (quoted key.now ++ 58 ∷ [])) }
    ensures len { vec_len text.new ≤ vec_len text.old + (6 * length key.now + 4) }
    ensures capacity { vec_capacity text.old ≤ vec_capacity text.new }
{
    if later {
        put(text, b",\"");
    } else {
        put(text, b"\"");
    }
    put_escaped(text, key);
    put(text, b"\":");
}

/// Appends a member whose value is a text.
#[tactic(auto, unfolding(crate::specs::Members::member_text))]
#[inline(always)]
pub fn put_text(text: &mut Vec<u8>, later: bool, key: &[u8], value: &[u8])
    requires { vec_len text.old + text_member_bound key.now value.now ≤ vec_capacity text.old }
    ensures items { GainsMember text.old text.new later key.now (string value.now) }
    ensures len { vec_len text.new ≤ vec_len text.old + text_member_bound key.now value.now }
    ensures capacity { vec_capacity text.old ≤ vec_capacity text.new }
{
    put_key(text, later, key);
    put_quoted(text, value);
}

/// Appends a member whose value is a whole number.
#[tactic(auto, unfolding(crate::specs::Members::member_text))]
#[inline(always)]
pub fn put_number(text: &mut Vec<u8>, later: bool, key: &[u8], value: u64)
    requires { vec_len text.old + (6 * length key.now + 24) ≤ vec_capacity text.old }
    ensures items { GainsMember text.old text.new later key.now (number (unsigned value)) }
    ensures len { vec_len text.new ≤ vec_len text.old + (6 * length key.now + 24) }
    ensures capacity { vec_capacity text.old ≤ vec_capacity text.new }
{
    put_key(text, later, key);
    put_whole(text, value);
}

/// Appends a whole number.
pub fn put_whole(text: &mut Vec<u8>, value: u64)
    requires { vec_len text.old + 20 ≤ vec_capacity text.old }
    ensures items { GainsValue text.old text.new (number (unsigned value)) }
    ensures len { vec_len text.new ≤ vec_len text.old + 20 }
    ensures capacity { vec_capacity text.old ≤ vec_capacity text.new }
{
    let mut digits = Buffer::new();
    put(text, digits.format(value).as_bytes());
}

/// Appends a member whose value is a whole number, below zero too.
#[tactic(auto, unfolding(crate::specs::Members::member_text))]
#[inline(always)]
pub fn put_signed(text: &mut Vec<u8>, later: bool, key: &[u8], value: i64)
    requires { vec_len text.old + (6 * length key.now + 24) ≤ vec_capacity text.old }
    ensures items { GainsMember text.old text.new later key.now (number (of_integer value)) }
    ensures len { vec_len text.new ≤ vec_len text.old + (6 * length key.now + 24) }
    ensures capacity { vec_capacity text.old ≤ vec_capacity text.new }
{
    put_key(text, later, key);
    let mut digits = Buffer::new();
    put(text, digits.format(value).as_bytes());
}

/// Appends a member whose value is the decimal text of a number, which may be too large for readers of
/// JSON numbers.
#[tactic(auto, unfolding(crate::specs::Members::member_text))]
#[inline(always)]
pub fn put_decimal<I: Integer>(text: &mut Vec<u8>, later: bool, key: &[u8], value: I)
    requires { vec_len text.old + (6 * length key.now + 246) ≤ vec_capacity text.old }
    ensures items { GainsMember text.old text.new later key.now (string (I.text value)) }
    ensures len { vec_len text.new ≤ vec_len text.old + (6 * length key.now + 246) }
    ensures capacity { vec_capacity text.old ≤ vec_capacity text.new }
{
    put_key(text, later, key);
    let mut digits = Buffer::new();
    put_quoted(text, digits.format(value).as_bytes());
}

/// Appends a member whose value is true or false.
#[tactic(auto, unfolding(crate::specs::Members::member_text))]
#[inline(always)]
pub fn put_flag(text: &mut Vec<u8>, later: bool, key: &[u8], value: bool)
    requires { vec_len text.old + (6 * length key.now + 9) ≤ vec_capacity text.old }
    ensures items { GainsMember text.old text.new later key.now (boolean value) }
    ensures len { vec_len text.new ≤ vec_len text.old + (6 * length key.now + 9) }
    ensures capacity { vec_capacity text.old ≤ vec_capacity text.new }
{
    put_key(text, later, key);
    if value {
        put(text, b"true");
    } else {
        put(text, b"false");
    }
}
