//! `Taken` is what a reader takes from a file.
ghost use Rattle.std.specs.Prelude.{◌≡◌};

use crate::facts::ItemFacts;
use std::marker::Model;

/// `Taken` is what is taken from a whole file. Contracts see its three parts.
#[derive(Drop)]
pub struct Taken {
    key: [u8; 21],
    digest: [u8; 32],
    items: Vec<ItemFacts>,
}

impl Model for Taken {
    ghost use Rattle.ach_files.specs.Facts.{FileFacts};

    ghost Value = { FileFacts };

    ghost view = { λ t. record { key = t.key; digest = t.digest; items = t.items.items } };
}

impl Taken {
    pub(crate) fn new(key: [u8; 21], digest: [u8; 32], items: Vec<ItemFacts>) -> Taken
        ensures { result ≡ record { key = key; digest = digest; items = items.items } }
    {
        Taken { key, digest, items }
    }

    /// Gives positions 14 to 34 of the file header: origin, date, time and modifier.
    pub fn key(&self) -> [u8; 21]
        ensures { result ≡ self.now.key }
    {
        self.key
    }

    /// Gives the SHA-256 of the records through the file control, without line ends.
    pub fn digest(&self) -> [u8; 32]
        ensures { result ≡ self.now.digest }
    {
        self.digest
    }

    /// Lends the items, in the order of the file.
    pub fn items(&self) -> &[ItemFacts]
        ensures { result.now ≡ self.now.items }
    {
        &self.items
    }

    /// Gives the items, without a copy.
    pub fn into_items(self) -> Vec<ItemFacts>
        ensures { result.items ≡ self.items }
    {
        self.items
    }
}
