//! Number fields: the digits are at the right, with zeros before them.
ghost use Rattle.std.specs.Prelude.{◌≡◌, ◌≤◌, ◌<◌, ◌^◌, length, true, IfOk, nat_lt};
ghost use Rattle.std.specs.List.{list_all};
ghost use Rattle.ach_fields.specs.Characters.{is_digit};
ghost use Rattle.ach_fields.specs.Digits.{digits, number};
ghost use Rattle.ach_fields.specs.Number.{number_in, number_field};
ghost use Rattle.ach_fields.specs.Puts.{Puts};

use crate::FieldFault;
use crate::characters::are_digits;

/// The most digits of a number field.
const MOST_DIGITS: usize = 18;

/// Gives the number in a field of 1 to 18 digits.
///
/// A longer field is `TooLong`; an empty one, or one with another character, is `NotDigit`.
pub fn take_number(field: &[u8]) -> Result<u64, FieldFault>
    ensures value { result ≡ number_in field.now }
    ensures within { IfOk result (λ n. n < 10 ^ length field.now) }
{
    if field.len() > MOST_DIGITS {
        return Err(FieldFault::TooLong);
    }
    if field.is_empty() || !are_digits(field) {
        return Err(FieldFault::NotDigit);
    }
    Ok(number(field))
}

// The number that digits spell.
pub(crate) fn number(digits: &[u8]) -> u64
    requires short { length digits.now ≤ 18 }
    requires digits { list_all is_digit digits.now ≡ true }
    ensures value { result ≡ number digits.now }
    ensures within { result < 10 ^ length digits.now }
{
    let mut number: u64 = 0;
    for digit in digits {
        number = number * 10 + u64::from(*digit - b'0');
    }
    number
}

/// Writes a number into a field of 1 to 18 bytes, with zeros before it.
///
/// A field of another length, or with too few bytes for the number, is `TooLong`, and stays as it was.
pub fn put_number(number: u64, field: &mut [u8]) -> Result<(), FieldFault>
    ensures { Puts (number_field (length field.old) number) result field.old field.new }
{
    if field.is_empty() || field.len() > MOST_DIGITS || !has_room(number, field.len()) {
        return Err(FieldFault::TooLong);
    }
    put_digits(number, field);
    Ok(())
}

// Reports whether the number fits into this many digits.
fn has_room(number: u64, width: usize) -> bool
    requires { width ≤ 18 }
    ensures { result ≡ nat_lt number (10 ^ width) }
{
    number < 10u64.pow(width as u32)
}

// Writes the last digits of a number, as many as there is room for.
pub(crate) fn put_digits(number: u64, field: &mut [u8])
    ensures { field.new ≡ digits (length field.old) number }
{
    let mut rest = number;
    let mut at = field.len();
    while at > 0 {
        at -= 1;
        field[at] = b'0' + (rest % 10) as u8;
        rest /= 10;
    }
}
