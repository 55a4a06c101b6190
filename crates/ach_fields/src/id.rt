ghost use Rattle.std.specs.Prelude.{◌≡◌, IsTrue};
ghost use Rattle.ach_fields.specs.Names.{id_of, is_id};

use crate::FieldFault;
use crate::characters::are_id_characters;
use crate::packed::Packed;
use std::marker::Model;

/// The most characters of an identification.
const MOST_CHARACTERS: usize = 10;

/// An `Id` is the identification of a company: 1 to 10 of `A-Z 0-9`.
#[derive(Clone, Copy, Debug, PartialEq, Eq)]
pub struct Id {
    packed: Packed<MOST_CHARACTERS>,
}

// Clauses see the characters.
impl Model for Id {
    ghost use Rattle.std.specs.Prelude.{List, ℕ, IsTrue};
    ghost use Rattle.ach_fields.specs.Names.{is_id};

    ghost Value = { List ℕ };

    ghost view = { λ t. t.packed };

    ghost invariant = { λ t. IsTrue (is_id t.packed) };

    ghost inverse = { λ s. record { packed = s } };
}

impl Id {
    /// Gives the identification of these characters.
    ///
    /// More than 10 are `TooLong`; none, or one that an identification may not have, is `NotText`.
    #[tactic(auto, using(crate::proofs::Packing::id_used))]
    pub fn new(bytes: &[u8]) -> Result<Id, FieldFault>
        ensures { result ≡ id_of bytes.now }
    {
        if bytes.len() > MOST_CHARACTERS {
            return Err(FieldFault::TooLong);
        }
        if bytes.is_empty() || !are_id_characters(bytes) {
            return Err(FieldFault::NotText);
        }
        Ok(Id {
            packed: Packed::new(bytes),
        })
    }

    /// Gives its characters.
    pub fn bytes(&self) -> &[u8]
        ensures value { result.now ≡ self.now }
        ensures valid { IsTrue (is_id self.now) }
    {
        self.packed.bytes()
    }
}
