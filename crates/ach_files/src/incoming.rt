//! An `Incoming` is a file that is whole in memory.
ghost use Rattle.std.specs.Prelude.{◌≡◌, ◌<◌, Some, MatchResult, IsTrue, ◌↔◌, [], length, slice_get};
ghost use Rattle.ach_files.specs.File.{IsContentOf};
ghost use Rattle.ach_files.specs.FirstFault.{Tells, fault};
ghost use Rattle.ach_files.specs.Memory.{GivesUpOnlyIf, RunsOut};

use crate::facts::ItemFacts;
use crate::fault::Fault;
use crate::reader::Reader;
use crate::taken::Taken;
use std::alloc::Global;
use std::marker::Model;

/// An `Incoming` is a file that was read. It lends its items, and none of its calls takes memory.
/// Contracts see its bytes and what is taken from it.
#[derive(Drop)]
pub struct Incoming<'a> {
    bytes: &'a [u8],
    taken: Taken,
}

impl<'a> Model for Incoming<'a> {
    ghost use Rattle.ach_files.specs.Facts.{Content};

    ghost Value = { Content };

    ghost view = { λ i. record { bytes = i.bytes.now; facts = i.taken } };
}

/// An `Item` is an item of a file: a returned or changed entry with its addenda.
#[derive(Clone, Copy)]
pub struct Item<'a> {
    facts: &'a ItemFacts,
}

impl Item<'_> {
    ghost use Rattle.ach_files.specs.Items.{item_facts};

    /// Tells what the item says.
    pub fn facts(&self) -> ItemFacts
        ensures { result ≡ item_facts self.now }
    {
        *self.facts
    }
}

impl<'a> Incoming<'a> {
    ghost use Rattle.ach_files.specs.Items.{item_facts};

    /// Gives the bytes that were read.
    pub fn bytes(&self) -> &'a [u8]
        ensures { result.now ≡ self.now.bytes }
    {
        self.bytes
    }

    /// Gives positions 14 to 34 of the file header: origin, date, time and modifier.
    pub fn key(&self) -> [u8; 21]
        ensures { result ≡ self.now.facts.key }
    {
        self.taken.key()
    }

    /// Gives the SHA-256 of the records through the file control, without line ends.
    pub fn digest(&self) -> [u8; 32]
        ensures { result ≡ self.now.facts.digest }
    {
        self.taken.digest()
    }

    /// Says how many items it has.
    pub fn len(&self) -> usize
        ensures { result ≡ length self.now.facts.items }
    {
        self.taken.items().len()
    }

    /// Has it no item?
    pub fn is_empty(&self) -> bool
        ensures { IsTrue result ↔ (self.now.facts.items ≡ []) }
    {
        self.taken.items().is_empty()
    }

    /// Gives an item, counted from 0 in the order of the file.
    pub fn item(&self, index: usize) -> Item<'_>
        requires { index < length self.now.facts.items }
        ensures { slice_get self.now.facts.items index ≡ Some (item_facts result) }
    {
        let items = self.taken.items();
        Item {
            facts: &items[index],
        }
    }

    pub(crate) fn read(alloc: Global, bytes: &'a [u8]) -> Result<Incoming<'a>, Fault>
        ensures read { MatchResult result (IsContentOf bytes.now) (λ f. Tells f (fault bytes.now)) }
        ensures memory { GivesUpOnlyIf result (RunsOut 0 [] bytes.now) }
    {
        let mut reader = Reader::new(alloc);
        reader.feed(bytes)?;
        let taken = reader.finish()?;
        Ok(Incoming { bytes, taken })
    }
}
