ghost use Rattle.std.specs.Prelude.{◌≡◌, IsTrue};
ghost use Rattle.ach_fields.specs.Ymd.{date_of, date_in, is_date, is_date_text, spells_date, date_text};
ghost use Rattle.ach_fields.specs.Digits.{AreDigits};

use crate::FieldFault;
use crate::characters::are_digits;
use crate::number::{number, put_digits};
use std::marker::Model;

/// The digits of a date.
const WIDTH: usize = 6;

/// A `Ymd` is a date as files write it, YYMMDD: a year of two digits, a month from 1 to 12 and a day
/// from 1 to 31. It need not be a day of the calendar.
#[derive(Clone, Copy, Debug, PartialEq, Eq)]
pub struct Ymd {
    text: [u8; WIDTH],
}

// Clauses see the six characters.
impl Model for Ymd {
    ghost use Rattle.std.specs.Prelude.{List, ℕ, IsTrue};
    ghost use Rattle.ach_fields.specs.Ymd.{is_date_text};

    ghost Value = { List ℕ };

    ghost view = { λ d. d.text };

    ghost invariant = { λ d. IsTrue (is_date_text d.text) };

    ghost inverse = { λ s. record { text = s } };
}

impl Ymd {
    /// Gives the date with these parts, or `BadDate`.
    pub fn new(yy: u8, mm: u8, dd: u8) -> Result<Ymd, FieldFault>
        ensures { result ≡ date_of yy mm dd }
    {
        if !is_date(yy, mm, dd) {
            return Err(FieldFault::BadDate);
        }
        Ok(Ymd {
            text: date_text(yy, mm, dd),
        })
    }

    /// Returns the date that six digits spell.
    ///
    /// # Errors
    ///
    /// `NotDigit` for another character, else `BadDate` if the month or the day does not exist.
    pub fn parse(text: &[u8; WIDTH]) -> Result<Ymd, FieldFault>
        ensures { result ≡ date_in text.now }
    {
        if !are_digits(text) {
            return Err(FieldFault::NotDigit);
        }
        if !spells_date(text) {
            return Err(FieldFault::BadDate);
        }
        Ok(Ymd { text: *text })
    }

    /// Gives the six digits.
    pub fn print(&self) -> [u8; WIDTH]
        ensures value { result ≡ self.now }
        ensures valid { IsTrue (is_date_text self.now) }
    {
        self.text
    }
}

fn is_date(yy: u8, mm: u8, dd: u8) -> bool
    ensures { result ≡ is_date yy mm dd }
{
    yy <= 99 && (mm >= 1 && mm <= 12) && (dd >= 1 && dd <= 31)
}

// Are the parts that six digits spell a date's?
#[tactic(auto, unfolding(crate::specs::Ymd::spells_date))]
fn spells_date(text: &[u8; WIDTH]) -> bool
    requires { AreDigits text.now }
    ensures { result ≡ spells_date text.now }
{
    is_date(
        number(&text[..2]) as u8,
        number(&text[2..4]) as u8,
        number(&text[4..]) as u8,
    )
}

fn date_text(yy: u8, mm: u8, dd: u8) -> [u8; WIDTH]
    requires { IsTrue (is_date yy mm dd) }
    ensures { result ≡ date_text yy mm dd }
{
    let mut text = [0; WIDTH];
    let number = (u64::from(yy) * 100 + u64::from(mm)) * 100 + u64::from(dd);
    put_digits(number, &mut text);
    text
}
