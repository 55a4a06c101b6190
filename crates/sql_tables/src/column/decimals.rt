//! Sums stand in columns as decimal texts.
ghost use Rattle.std.specs.Prelude.{◌≡◌, ◌↔◌, true, ℤ, Some, IsTrue};
ghost use Rattle.std.specs.Fmt.{signed_decimal};
ghost use Rattle.desk_accounts.specs.Balance.{fits_i128};
ghost use Rattle.sql_tables.specs.Columns.{decimal_text};

use super::{FromColumn, text_in};
use itoa::Buffer;
use sqlite::types::ValueRef;

impl FromColumn for i128 {
    ghost stored = { decimal_text };

    ghost fits = { λ n. fits_i128 n ≡ true };

    fn from_column(value: ValueRef<'_>) -> Option<i128> {
        let text = text_in(value)?;
        let number = number_of(text)?;
        if !is_decimal_of(number, text) {
            return None;
        }
        Some(number)
    }
}

// The number that a text reads as, also where it is not written so.
fn number_of(text: &[u8]) -> Option<i128>
    ensures { (n : ℤ) → fits_i128 n ≡ true → text.now ≡ signed_decimal n → result ≡ Some n }
{
    let Ok(text) = std::str::from_utf8(text) else {
        return None
    };
    let Ok(number) = text.parse::<i128>() else {
        return None
    };
    Some(number)
}

// Is it the decimal text of the number?
fn is_decimal_of(number: i128, text: &[u8]) -> bool
    ensures { IsTrue result ↔ (signed_decimal number ≡ text.now) }
{
    Buffer::new().format(number).as_bytes() == text
}
