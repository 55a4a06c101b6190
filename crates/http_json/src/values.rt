//! The value that tokens are, with little memory. The toolchain's `Value::read` gives a list or an object of one value room
//! for four, and a body may be almost nothing but such lists. A list of two takes four bytes of a body and an object of two
//! ten, so that an object needs this care for its first member alone.
ghost use Rattle.std.specs.Prelude.{◌≡◌, ◌≢◌, ◌<◌, ◌&&◌, [], ◌∷◌, ◌++◌, length, Some, None, Err, IfOk, OnOk};
ghost use Rattle.json.specs.Json.{value, items, members};
ghost use Rattle.json.specs.Value.{value_view, items_view, members_view};
ghost use Rattle.http_json.specs.View.{is_in_range, items_in_range, members_in_range};

use crate::number;
use json::{Error, Reader, Token, Value};
use std::alloc::{AllocError, Global};

/// Returns the next value of a reader. Arrays and objects may nest `depth` deep. `in_range` stays true if each
/// number of the value is in range, so that no number is looked for again.
#[cycle(read)]
pub(crate) fn read_value<'a>(
    alloc: Global,
    reader: &mut Reader<'a>,
    depth: usize,
    in_range: &mut bool,
) -> Result<Value<'a>, Error>
    ensures ok { IfOk result (λ v. value depth reader.old ≡ Some (value_view v, reader.new)) }
    ensures ranged { IfOk result
        (λ v. in_range.new ≡ (in_range.old && is_in_range (value_view v))) }
    ensures shorter { OnOk result (length reader.new < length reader.old) }
    ensures invalid { result ≡ Err Error.Invalid → value depth reader.old ≡ None }
    ensures never_too_long { result ≢ Err Error.TooLong }
    ensures never_duplicate { result ≢ Err Error.DuplicateKey }
{
    let token = reader.next().ok_or(Error::Invalid)?;
    match token {
        Token::String(text) => Ok(Value::String(text)),
        Token::Number(text) => {
            *in_range = *in_range && number::is_in_range(text);
            Ok(Value::Number(text))
        }
        Token::Bool(b) => Ok(Value::Bool(b)),
        Token::Null => Ok(Value::Null),
        Token::EndObject | Token::EndArray | Token::Key(_) | Token::Bad => Err(Error::Invalid),
        Token::BeginArray => {
            if depth == 0 {
                return Err(Error::Invalid);
            }
            Ok(Value::Array(read_items(alloc, reader, depth - 1, in_range)?))
        }
        Token::BeginObject => {
            if depth == 0 {
                return Err(Error::Invalid);
            }
            Ok(Value::Object(read_members(alloc, reader, depth - 1, in_range)?))
        }
    }
}

#[cycle(read)]
#[inline(never)]
fn read_items<'a>(
    alloc: Global,
    reader: &mut Reader<'a>,
    depth: usize,
    in_range: &mut bool,
) -> Result<Vec<Value<'a>>, Error>
    ensures ok { IfOk result
        (λ v. items (value depth) (length reader.old) reader.old
        ≡ Some (items_view v.items, reader.new)) }
    ensures ranged { IfOk result
        (λ v. in_range.new ≡ (in_range.old && items_in_range (items_view v.items))) }
    ensures shorter { OnOk result (length reader.new < length reader.old) }
    ensures invalid { result ≡ Err Error.Invalid
        → items (value depth) (length reader.old) reader.old ≡ None }
    ensures never_too_long { result ≢ Err Error.TooLong }
    ensures never_duplicate { result ≢ Err Error.DuplicateKey }
{
    let mut found = Vec::new(alloc);
    while !reader.take_end_array() {
        let item = read_value(alloc, reader, depth, in_range)?;
        push(&mut found, item, 2)?;
    }
    Ok(found)
}

#[cycle(read)]
#[inline(never)]
fn read_members<'a>(
    alloc: Global,
    reader: &mut Reader<'a>,
    depth: usize,
    in_range: &mut bool,
) -> Result<Vec<(&'a str, Value<'a>)>, Error>
    ensures ok { IfOk result
        (λ v. members (value depth) (length reader.old) reader.old
        ≡ Some (members_view v.items, reader.new)) }
    ensures ranged { IfOk result
        (λ v. in_range.new ≡ (in_range.old && members_in_range (members_view v.items))) }
    ensures shorter { OnOk result (length reader.new < length reader.old) }
    ensures invalid { result ≡ Err Error.Invalid
        → members (value depth) (length reader.old) reader.old ≡ None }
    ensures never_too_long { result ≢ Err Error.TooLong }
    ensures never_duplicate { result ≢ Err Error.DuplicateKey }
{
    let mut found = Vec::new(alloc);
    while let Some(key) = reader.next_key()? {
        let member = read_value(alloc, reader, depth, in_range)?;
        push(&mut found, (key, member), 1)?;
    }
    Ok(found)
}

// Appends to a list. So many of its first items take room for themselves alone.
#[inline(always)]
fn push<T: Drop>(items: &mut Vec<T>, item: T, alone: usize) -> Result<(), AllocError>
    ensures { OnOk result (items.new.items ≡ items.old.items ++ item ∷ []) }
{
    if items.len() < alone {
        items.reserve_exact(1)?;
    }
    items.push(item)?;
    Ok(())
}
