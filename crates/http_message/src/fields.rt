//! The fields of a head, and their values by their names.
ghost use Rattle.std.specs.Prelude.{◌≡◌, nat_lt, length, map, option_copied, All};
ghost use Rattle.httparse.specs.Spans.{header_bytes, IsHeaderWithin};
ghost use Rattle.http_message.specs.Fields.{is_named, values_of, first_value};

use httparse::spans::HeaderSpan;
use std::marker::Model;

/// The fields of a head, each where it lies in the head's bytes. Nothing is copied.
#[derive(Drop)]
pub struct Fields<'a> {
    bytes: &'a [u8],
    spans: &'a [HeaderSpan],
}

// Clauses see the names and the values, these without the blanks around them.
impl<'a> Model for Fields<'a> {
    ghost use Rattle.std.specs.Prelude.{List, length, map, All};
    ghost use Rattle.httparse.specs.Spans.{header_bytes, IsHeaderWithin};
    ghost use Rattle.http_message.specs.Fields.{FieldValue};

    ghost Value = { List FieldValue };

    ghost view = { λ f. map (header_bytes f.bytes.now) f.spans.now };

    ghost invariant = { λ f. All (IsHeaderWithin (length f.bytes.now)) f.spans.now };
}

impl<'a> Fields<'a> {
    /// The fields that lie where the spans say.
    pub fn new(bytes: &'a [u8], spans: &'a [HeaderSpan]) -> Fields<'a>
        requires { All (IsHeaderWithin (length bytes.now)) spans.now }
        ensures { result ≡ map (header_bytes bytes.now) spans.now }
    {
        Fields { bytes, spans }
    }
}

/// Whether the field has this name, in any ASCII case.
fn is_named(bytes: &[u8], field: &HeaderSpan, name: &[u8]) -> bool
    requires { IsHeaderWithin (length bytes.now) field.now }
    ensures { result ≡ is_named name.now (header_bytes bytes.now field.now) }
{
    field.name.of(bytes).eq_ignore_ascii_case(name)
}

/// The value of the first field of this name, in any ASCII case.
pub fn value_of<'a>(fields: &Fields<'a>, name: &[u8]) -> Option<&'a [u8]>
    ensures { option_copied result ≡ first_value name.now fields.now }
{
    let bytes = fields.bytes;
    let mut unread = fields.spans;
    while let [field, rest @ ..] = unread {
        if is_named(bytes, field, name) {
            return Some(field.value.of(bytes));
        }
        unread = rest;
    }
    None
}

/// Whether more than one field has this name, in any ASCII case.
pub(crate) fn is_repeated(fields: &Fields<'_>, name: &[u8]) -> bool
    ensures { result ≡ nat_lt 1 (length (values_of name.now fields.now)) }
{
    let bytes = fields.bytes;
    let mut unread = fields.spans;
    while let [field, rest @ ..] = unread {
        if is_named(bytes, field, name) {
            return value_of(&Fields::new(bytes, rest), name).is_some();
        }
        unread = rest;
    }
    false
}
