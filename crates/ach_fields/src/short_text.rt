ghost use Rattle.std.specs.Prelude.{◌≡◌, IsTrue};
ghost use Rattle.ach_fields.specs.Text.{short_text_of, is_short_text, is_trimmed};

use crate::FieldFault;
use crate::characters::are_printable;
use crate::packed::Packed;
use std::marker::Model;

/// A `ShortText` has at most `N` characters, blank to `~`, and no blank at either end. It may be empty.
#[derive(Clone, Copy, Debug, PartialEq, Eq)]
pub struct ShortText<const N: usize> {
    packed: Packed<N>,
}

// Clauses see the characters.
impl<const N: usize> Model for ShortText<N> {
    ghost use Rattle.std.specs.Prelude.{List, ℕ, IsTrue};
    ghost use Rattle.ach_fields.specs.Text.{is_short_text};

    ghost Value = { List ℕ };

    ghost view = { λ t. t.packed };

    ghost invariant = { λ t. IsTrue (is_short_text N t.packed) };

    ghost inverse = { λ s. record { packed = s } };
}

impl<const N: usize> ShortText<N> {
    /// Returns the text of these characters.
    ///
    /// # Errors
    ///
    /// `TooLong` for more than `N` characters. `NotText` for a character outside blank to `~`, or a
    /// blank at either end.
    #[tactic(auto, using(crate::proofs::Packing::printable_used))]
    pub fn new(bytes: &[u8]) -> Result<ShortText<N>, FieldFault>
        ensures { result ≡ short_text_of N bytes.now }
    {
        if bytes.len() > N {
            return Err(FieldFault::TooLong);
        }
        if !is_trimmed(bytes) || !are_printable(bytes) {
            return Err(FieldFault::NotText);
        }
        Ok(ShortText {
            packed: Packed::new(bytes),
        })
    }

    /// Gives its characters.
    pub fn bytes(&self) -> &[u8]
        ensures value { result.now ≡ self.now }
        ensures valid { IsTrue (is_short_text N self.now) }
    {
        self.packed.bytes()
    }
}

// Is no blank at either end?
fn is_trimmed(bytes: &[u8]) -> bool
    ensures { result ≡ is_trimmed bytes.now }
{
    match bytes {
        [] => true,
        [first, ..] if *first == b' ' => false,
        [.., last] => *last != b' ',
    }
}
