ghost use Rattle.std.specs.Prelude.{◌≡◌, IsTrue};
ghost use Rattle.ach_fields.specs.Names.{reference_of, is_reference};

use crate::FieldFault;
use crate::characters::are_reference_characters;
use crate::packed::Packed;
use std::marker::Model;

/// The most characters of a reference.
const MOST_CHARACTERS: usize = 20;

/// A company's reference of a submission: 1 to 20 of `A-Z a-z 0-9 - _ .`
#[derive(Clone, Copy, Debug, PartialEq, Eq)]
pub struct Ref {
    packed: Packed<MOST_CHARACTERS>,
}

// Clauses see the characters.
impl Model for Ref {
    ghost use Rattle.std.specs.Prelude.{List, ℕ, IsTrue};
    ghost use Rattle.ach_fields.specs.Names.{is_reference};

    ghost Value = { List ℕ };

    ghost view = { λ t. t.packed };

    ghost invariant = { λ t. IsTrue (is_reference t.packed) };

    ghost inverse = { λ s. record { packed = s } };
}

impl Ref {
    /// Gives the reference of these characters.
    ///
    /// More than 20 are `TooLong`; none, or one that a reference may not have, is `NotText`.
    #[tactic(auto, using(crate::proofs::Packing::reference_used))]
    pub fn new(bytes: &[u8]) -> Result<Ref, FieldFault>
        ensures { result ≡ reference_of bytes.now }
    {
        if bytes.len() > MOST_CHARACTERS {
            return Err(FieldFault::TooLong);
        }
        if bytes.is_empty() || !are_reference_characters(bytes) {
            return Err(FieldFault::NotText);
        }
        Ok(Ref {
            packed: Packed::new(bytes),
        })
    }

    /// Gives its characters.
    pub fn bytes(&self) -> &[u8]
        ensures value { result.now ≡ self.now }
        ensures valid { IsTrue (is_reference self.now) }
    {
        self.packed.bytes()
    }
}
