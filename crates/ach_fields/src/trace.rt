ghost use Rattle.std.specs.Prelude.{◌≡◌, ◌≤◌, IsTrue};
ghost use Rattle.ach_fields.specs.Trace.{trace_of, trace_in, is_trace, dfi_in, sequence_in, most_sequence, trace_text};
ghost use Rattle.ach_fields.specs.Routing.{most_dfi};

use crate::FieldFault;
use crate::characters::are_digits;
use crate::number::{number, put_digits};
use crate::routing::MOST_DFI;
use std::marker::Model;

/// The digits of a trace number.
const WIDTH: usize = 15;

/// The digits that name the bank.
const DFI_WIDTH: usize = 8;

/// A sequence has seven digits.
pub const MOST_SEQUENCE: u32 = 9_999_999;

/// A `Trace` is the trace number of an entry: the eight digits of the bank that originated it, then a
/// sequence of seven.
#[derive(Clone, Copy, Debug, PartialEq, Eq)]
pub struct Trace {
    digits: [u8; WIDTH],
}

// Clauses see the fifteen characters.
impl Model for Trace {
    ghost use Rattle.std.specs.Prelude.{List, ℕ, IsTrue};
    ghost use Rattle.ach_fields.specs.Trace.{is_trace};

    ghost Value = { List ℕ };

    ghost view = { λ t. t.digits };

    ghost invariant = { λ t. IsTrue (is_trace t.digits) };

    ghost inverse = { λ s. record { digits = s } };
}

impl Trace {
    /// Gives the trace of a bank's number and a sequence.
    ///
    /// Fails with `TooLong` where the bank has more than eight digits or the sequence more than seven.
    pub fn new(dfi: u32, sequence: u32) -> Result<Trace, FieldFault>
        ensures { result ≡ trace_of dfi sequence }
    {
        if dfi > MOST_DFI || sequence > MOST_SEQUENCE {
            return Err(FieldFault::TooLong);
        }
        Ok(Trace {
            digits: trace_text(dfi, sequence),
        })
    }

    /// Gives the trace of fifteen digits: more bytes are `TooLong`, fewer or another character `NotDigit`.
    pub fn parse(bytes: &[u8]) -> Result<Trace, FieldFault>
        ensures { result ≡ trace_in bytes.now }
    {
        if bytes.len() > WIDTH {
            return Err(FieldFault::TooLong);
        }
        if bytes.len() < WIDTH || !are_digits(bytes) {
            return Err(FieldFault::NotDigit);
        }
        let mut digits = [0; WIDTH];
        digits.copy_from_slice(bytes);
        Ok(Trace { digits })
    }

    /// Gives the number of the bank.
    pub fn dfi(&self) -> u32
        ensures value { result ≡ dfi_in self.now }
        ensures within { result ≤ most_dfi }
    {
        let digits = &self.digits;
        number(&digits[..DFI_WIDTH]) as u32
    }

    /// Gives the sequence.
    pub fn sequence(&self) -> u32
        ensures value { result ≡ sequence_in self.now }
        ensures within { result ≤ most_sequence }
    {
        let digits = &self.digits;
        number(&digits[DFI_WIDTH..]) as u32
    }

    /// Gives the fifteen digits.
    pub fn text(&self) -> [u8; WIDTH]
        ensures value { result ≡ self.now }
        ensures valid { IsTrue (is_trace self.now) }
    {
        self.digits
    }
}

fn trace_text(dfi: u32, sequence: u32) -> [u8; WIDTH]
    requires { sequence ≤ most_sequence }
    ensures { result ≡ trace_text dfi sequence }
{
    let mut text = [0; WIDTH];
    put_digits(u64::from(dfi) * 10_000_000 + u64::from(sequence), &mut text);
    text
}
