//! Texts in quotes.
ghost use Rattle.std.specs.Prelude.{◌≡◌, ◌≤◌, ◌<◌, ◌+◌, ◌*◌, length, true, vec_len, vec_capacity};
ghost use Rattle.std.specs.Char.{digit_char};
ghost use Rattle.json.specs.Print.{quoted, escape, escape_byte, escape_letter};
ghost use Rattle.http_json.specs.Gains.{Gains};

use crate::room::put;

/// Appends a text in quotes, with its escapes. A byte of the text has at most six there.
pub fn put_quoted(text: &mut Vec<u8>, value: &[u8])
    requires { vec_len text.old + (6 * length value.now + 2) ≤ vec_capacity text.old }
    ensures items { Gains text.old text.new (quoted value.now) }
    ensures len { vec_len text.new ≤ vec_len text.old + (6 * length value.now + 2) }
    ensures capacity { vec_capacity text.old ≤ vec_capacity text.new }
{
    put(text, b"\"");
    put_escaped(text, value);
    put(text, b"\"");
}

/// Appends a text with its escapes, without quotes. Most texts have nothing to escape, and are copied
/// whole.
#[inline(always)]
pub(crate) fn put_escaped(text: &mut Vec<u8>, value: &[u8])
    requires { vec_len text.old + 6 * length value.now ≤ vec_capacity text.old }
    ensures items { Gains text.old text.new (escape value.now) }
    ensures len { vec_len text.new ≤ vec_len text.old + 6 * length value.now }
    ensures capacity { vec_capacity text.old ≤ vec_capacity text.new }
{
    if is_plain(value) {
        put(text, value);
    } else {
        put_bytes(text, value);
    }
}

fn put_bytes(text: &mut Vec<u8>, value: &[u8])
    requires { vec_len text.old + 6 * length value.now ≤ vec_capacity text.old }
    ensures items { Gains text.old text.new (escape value.now) }
    ensures len { vec_len text.new ≤ vec_len text.old + 6 * length value.now }
    ensures capacity { vec_capacity text.old ≤ vec_capacity text.new }
{
    for byte in value {
        put_byte(text, *byte);
    }
}

#[tactic(auto, unfolding(json::specs::Print::escape_byte))]
fn put_byte(text: &mut Vec<u8>, byte: u8)
    requires { vec_len text.old + 6 ≤ vec_capacity text.old }
    ensures items { Gains text.old text.new (escape_byte byte) }
    ensures len { vec_len text.new ≤ vec_len text.old + 6 }
    ensures capacity { vec_capacity text.old ≤ vec_capacity text.new }
{
    let letter = escape_letter(byte);
    if letter > 0 {
        put(text, &[b'\\', letter]);
    } else if byte < 32 {
        let digits = [hex_digit(byte / 16), hex_digit(byte % 16)];
        put(text, b"\\u00");
        put(text, &digits);
    } else {
        put(text, &[byte]);
    }
}

// Reports whether no byte needs an escape.
#[inline(always)]
fn is_plain(value: &[u8]) -> bool
    ensures { result ≡ true → escape value.now ≡ value.now }
{
    for byte in value {
        if *byte < 32 || *byte == b'"' || *byte == b'\\' {
            return false;
        }
    }
    true
}

// The letter of a byte's short escape, or 0 where it has none.
fn escape_letter(byte: u8) -> u8
    ensures { result ≡ escape_letter byte }
{
    match byte {
        b'"' | b'\\' => byte,
        8 => b'b',
        12 => b'f',
        b'\n' => b'n',
        b'\r' => b'r',
        b'\t' => b't',
        _ => 0,
    }
}

fn hex_digit(n: u8) -> u8
    requires { n < 16 }
    ensures { result ≡ digit_char n }
{
    if n < 10 { b'0' + n } else { b'a' + (n - 10) }
}
