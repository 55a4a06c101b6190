//! The JSON object that a body is.
ghost use Rattle.std.specs.Prelude.{◌≡◌, ◌≢◌, None, Some, option_map, IfErr, IfOk};
ghost use Rattle.json.specs.Value.{value_view};
ghost use Rattle.serde_json.specs.Read.{of_json};
ghost use Rattle.http_json.specs.Read.{json_of, object_in, object_of, parsed};
ghost use Rattle.http_json.specs.View.{is_in_range, view};

use crate::values::read_value;
use json::{Error, Reader, Scratch, Value};
use simdutf8::basic::from_utf8;
use std::alloc::{AllocError, Global};

/// The deepest nesting of a body that is read.
const MOST_DEPTH: usize = 127;

/// Returns the JSON object of a body, or `None` if the body is not JSON or not an object. A body is
/// read to a depth of 127; if an object has a key twice, the last value counts. The object borrows its
/// texts: those with escapes from `scratch`, and the others from the body.
///
/// # Errors
///
/// Lack of memory only.
pub fn read_object<'a>(
    alloc: Global,
    body: &'a [u8],
    scratch: &'a mut Scratch,
) -> Result<Option<Value<'a>>, AllocError>
    ensures { IfOk result (λ v. option_map view v ≡ object_of body.now) }
{
    Ok(read_json(alloc, body, scratch)?.and_then(object))
}

fn object(value: Value<'_>) -> Option<Value<'_>>
    ensures { option_map view result ≡ object_in (view value.entry) }
{
    if let Value::Object(_) = &value {
        Some(value)
    } else {
        None
    }
}

fn read_json<'a>(
    alloc: Global,
    body: &'a [u8],
    scratch: &'a mut Scratch,
) -> Result<Option<Value<'a>>, AllocError>
    ensures { IfOk result (λ v. option_map view v ≡ json_of body.now) }
{
    let Ok(text) = from_utf8(body) else {
        return Ok(None);
    };
    match parse(alloc, text, scratch) {
        Ok((value, each)) => Ok(in_range(value, each)),
        Err(Error::OutOfMemory) => Err(AllocError),
        Err(_) => Ok(None),
    }
}

// Returns a value if each number in it is in range.
fn in_range(value: Value<'_>, each: bool) -> Option<Value<'_>>
    requires { each ≡ is_in_range (value_view value) }
    ensures { option_map view result ≡ of_json (value_view value.entry) }
{
    if each { Some(value) } else { None }
}

// The value that a text is, and whether each number in it is in range.
fn parse<'a>(
    alloc: Global,
    text: &'a str,
    scratch: &'a mut Scratch,
) -> Result<(Value<'a>, bool), Error>
    ensures ok { IfOk result (λ v. parsed text.now ≡ Some (value_view v.0)) }
    ensures ranged { IfOk result (λ v. v.1 ≡ is_in_range (value_view v.0)) }
    ensures invalid { IfErr result (λ e. e ≢ Error.OutOfMemory → parsed text.now ≡ None) }
{
    let mut reader = Reader::new(text, scratch)?;
    let mut in_range = true;
    let value = read_value(alloc, &mut reader, MOST_DEPTH, &mut in_range)?;
    if reader.next().is_some() {
        return Err(Error::Invalid);
    }
    Ok((value, in_range))
}
