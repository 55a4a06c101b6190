//! The entries that the items of a file returned so far.
ghost use Rattle.std.specs.Prelude.{◌≡◌, ◌++◌, [], IfOk};
ghost use Rattle.std.specs.Cmp.{partial_equiv_from_equiv};
ghost use Rattle.std.specs.Hash as fed;
ghost use Rattle.desk_intake.specs.EntryKeys.{is_same_key, same_key_equiv, same_key_hash};
ghost use Rattle.desk_intake.specs.ReturnedEntries.{AddsEntry, HasEntries, key_of};

use ach_fields::{Id, Ref};
use desk_history::SentEntry;
use std::alloc::{AllocError, Global};
use std::collections::HashSet;
use std::hash::{Hash, Hasher};

/// An entry by its company, its submission's reference and its number in the submission.
#[derive(Clone, Copy, Drop)]
pub(crate) struct EntryKey {
    pub company: Id,
    pub reference: Ref,
    pub index: u64,
}

impl PartialEq for EntryKey {
    ghost eq = { is_same_key };

    ghost laws = { partial_equiv_from_equiv same_key_equiv };

    fn eq(&self, other: &EntryKey) -> bool {
        self.company.bytes() == other.company.bytes()
            && self.reference.bytes() == other.reference.bytes()
            && self.index == other.index
    }
}

impl Eq for EntryKey {
    ghost laws = { same_key_equiv };
}

impl Hash for EntryKey {
    ghost hash_input = { λ k. fed.slice fed.u8 k.company ++ fed.slice fed.u8 k.reference ++ fed.u64 k.index };

    ghost respects_eq = { same_key_hash };

    fn hash<H: Hasher>(&self, state: &mut H) {
        self.company.bytes().hash(state);
        self.reference.bytes().hash(state);
        state.write_u64(self.index);
    }
}

/// Returned entries.
#[derive(Drop)]
pub(crate) struct ReturnedEntries {
    keys: HashSet<EntryKey>,
}

impl ReturnedEntries {
    /// Returns a list of none.
    pub(crate) fn new(alloc: Global) -> ReturnedEntries
        ensures { HasEntries result [] }
    {
        ReturnedEntries {
            keys: HashSet::new(alloc),
        }
    }

    /// Adds a returned entry. Returns whether it is new.
    pub(crate) fn add(&mut self, entry: &SentEntry) -> Result<bool, AllocError>
        ensures { IfOk result (AddsEntry self.old self.new entry.now) }
    {
        let is_new = self.keys.insert(EntryKey {
            company: entry.company,
            reference: entry.reference,
            index: entry.index,
        })?;
        Ok(is_new)
    }
}
