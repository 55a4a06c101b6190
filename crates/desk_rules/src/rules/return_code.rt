ghost use Rattle.std.specs.Prelude.{◌≡◌};
ghost use Rattle.desk_rules.specs.ReturnCodes.{code_of, code_text, IsCode};

use std::marker::Model;

/// A `ReturnCode` is the code of a return, R01 to R29: it says why the receiving bank (the RDFI)
/// sends an entry back.
#[derive(Clone, Copy, Debug, PartialEq, Eq)]
pub struct ReturnCode {
    number: u8,
}

// Clauses see the number.
impl Model for ReturnCode {
    ghost use Rattle.std.specs.Prelude.{ℕ};
    ghost use Rattle.desk_rules.specs.ReturnCodes.{IsCode};

    ghost Value = { ℕ };

    ghost view = { λ c. c.number };

    ghost invariant = { λ c. IsCode c.number };

    ghost inverse = { λ n. record { number = n } };
}

impl ReturnCode {
    /// Reads a code of three characters. Returns `None` outside R01 to R29.
    pub fn parse(text: &[u8; 3]) -> Option<ReturnCode>
        ensures { result ≡ code_of text.now }
    {
        let [r, tens, ones] = *text;
        if r != b'R' || !tens.is_ascii_digit() || !ones.is_ascii_digit() {
            return None;
        }
        let number = 10 * (tens - b'0') + (ones - b'0');
        if number < 1 || number > 29 {
            return None;
        }
        Some(ReturnCode { number })
    }

    /// Gives the number after the R.
    pub fn number(self) -> u8
        ensures value { result ≡ self }
        ensures within { IsCode self }
    {
        self.number
    }

    /// Gives its three characters.
    pub fn text(self) -> [u8; 3]
        ensures { result ≡ code_text self }
    {
        [b'R', b'0' + self.number / 10, b'0' + self.number % 10]
    }
}
