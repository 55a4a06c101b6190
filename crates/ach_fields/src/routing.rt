ghost use Rattle.std.specs.Prelude.{◌≡◌, ◌≤◌, ◌-◌, ℕ, IsTrue, slice_index};
ghost use Rattle.ach_fields.specs.Digits.{digits};
ghost use Rattle.ach_fields.specs.Routing.{routing_of, is_routing, dfi_of, most_dfi, IsCheckDigit, weighted_sum};

use crate::FieldFault;
use crate::characters::are_digits;
use crate::number::number;
use std::marker::Model;

/// The digits of a routing number.
const WIDTH: usize = 9;

/// The number of a bank has eight digits.
pub const MOST_DFI: u32 = 99_999_999;

/// A `Routing` is the routing number of a bank: the eight digits of its DFI, and the check digit that
/// completes them.
///
/// By the routing number's own rule the first eight digits are weighted 3 7 1 3 7 1 3 7, and the
/// ninth makes the sum a multiple of ten.
#[derive(Clone, Copy, Debug, PartialEq, Eq)]
pub struct Routing {
    digits: [u8; WIDTH],
}

// Clauses see the nine characters.
impl Model for Routing {
    ghost use Rattle.std.specs.Prelude.{List, ℕ, IsTrue};
    ghost use Rattle.ach_fields.specs.Routing.{is_routing};

    ghost Value = { List ℕ };

    ghost view = { λ r. r.digits };

    ghost invariant = { λ r. IsTrue (is_routing r.digits) };

    ghost inverse = { λ s. record { digits = s } };
}

impl Routing {
    /// Gives the routing number of nine digits.
    ///
    /// More bytes are `TooLong`, fewer or another character `NotDigit`; then it is `BadCheck` where the
    /// ninth is not the check digit.
    pub fn parse(bytes: &[u8]) -> Result<Routing, FieldFault>
        ensures { result ≡ routing_of bytes.now }
    {
        if bytes.len() > WIDTH {
            return Err(FieldFault::TooLong);
        }
        if bytes.len() < WIDTH || !are_digits(bytes) {
            return Err(FieldFault::NotDigit);
        }
        let mut digits = [0; WIDTH];
        digits.copy_from_slice(bytes);
        if !weighted_sum(&digits).is_multiple_of(10) {
            return Err(FieldFault::BadCheck);
        }
        Ok(Routing { digits })
    }

    /// Gives the number of the bank, which is the first eight digits.
    pub fn dfi(&self) -> u32
        ensures value { result ≡ dfi_of self.now }
        ensures within { result ≤ most_dfi }
    {
        let digits = &self.digits;
        number(&digits[..8]) as u32
    }

    /// Gives the check digit.
    pub fn digit(&self) -> u8
        ensures { result ≡ slice_index self.now 8 - 48 }
    {
        self.digits[8].saturating_sub(b'0')
    }

    /// Gives the nine digits.
    pub fn text(&self) -> [u8; WIDTH]
        ensures value { result ≡ self.now }
        ensures valid { IsTrue (is_routing self.now) }
    {
        self.digits
    }
}

/// Gives the digit that completes the weighted sum of a bank's eight digits to a multiple of ten: there
/// is exactly one.
#[tactic(auto, unfolding(crate::specs::Digits::digits))]
pub fn check_digit(dfi: u32) -> u8
    requires { dfi ≤ most_dfi }
    ensures completes { IsCheckDigit (digits 8 dfi) result }
    ensures only { (x : ℕ) → IsCheckDigit (digits 8 dfi) x → x ≡ result }
{
    let sum = 3 * (dfi / 10_000_000 % 10)
        + 7 * (dfi / 1_000_000 % 10)
        + dfi / 100_000 % 10
        + 3 * (dfi / 10_000 % 10)
        + 7 * (dfi / 1_000 % 10)
        + dfi / 100 % 10
        + 3 * (dfi / 10 % 10)
        + 7 * (dfi % 10);
    ((10 - sum % 10) % 10) as u8
}

// Returns the sum of the digits by the weights 3 7 1; the check digit has weight 1.
fn weighted_sum(digits: &[u8; WIDTH]) -> u32
    ensures { result ≡ weighted_sum digits.now }
{
    3 * digit_value(digits[0])
        + 7 * digit_value(digits[1])
        + digit_value(digits[2])
        + 3 * digit_value(digits[3])
        + 7 * digit_value(digits[4])
        + digit_value(digits[5])
        + 3 * digit_value(digits[6])
        + 7 * digit_value(digits[7])
        + digit_value(digits[8])
}

fn digit_value(byte: u8) -> u32
    ensures value { result ≡ byte - 48 }
    ensures small { result ≤ 207 }
{
    u32::from(byte.saturating_sub(b'0'))
}
