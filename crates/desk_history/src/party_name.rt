//! The names that a file's header has of the banks that it goes from and to.
ghost use Rattle.std.specs.Prelude.{◌≡◌, ◌≤◌, IsTrue, length};
ghost use Rattle.ach_fields.specs.Text.{is_short_text};
ghost use Rattle.desk_history.specs.PartyNames.{party_name_of};

use ach_fields::{FieldFault, ShortText};
use std::marker::Model;

/// A `PartyName` has 1 to 23 characters, blank to `~`, and no blank at either end.
#[derive(Clone, Copy, Debug, PartialEq, Eq)]
pub struct PartyName {
    text: ShortText<23>,
}

// Clauses see the characters.
impl Model for PartyName {
    ghost use Rattle.std.specs.Prelude.{List, ℕ, ◌≤◌, length};

    ghost Value = { List ℕ };

    ghost view = { λ n. n.text };

    ghost invariant = { λ n. 1 ≤ length n.text };

    ghost inverse = { λ s. record { text = s } };
}

impl PartyName {
    /// Returns the name of these characters.
    ///
    /// # Errors
    ///
    /// `TooLong` for more than 23. `NotText` for none, for a character outside blank to `~`, or for
    /// a blank at either end.
    pub fn new(bytes: &[u8]) -> Result<PartyName, FieldFault>
        ensures { result ≡ party_name_of bytes.now }
    {
        if bytes.is_empty() {
            return Err(FieldFault::NotText);
        }
        let text = ShortText::new(bytes)?;
        Ok(PartyName { text })
    }

    /// Gives its characters.
    pub fn bytes(&self) -> &[u8]
        ensures value { result.now ≡ self.now }
        ensures valid { IsTrue (is_short_text 23 self.now) }
        ensures filled { 1 ≤ length self.now }
    {
        self.text.bytes()
    }
}
