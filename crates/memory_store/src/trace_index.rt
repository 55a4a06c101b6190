//! An index finds the entry that a trace names, without going through all entries.
ghost use Rattle.std.specs.Prelude.{◌≡◌, [], find, length, reverse, OnOk};
ghost use Rattle.desk_history.specs.Resolve.{has_trace};
ghost use Rattle.memory_store.specs.Indexed.{IsIndexed, OfIndexed};

use ach_fields::{Routing, Trace};
use desk_history::SentEntry;
use desk_store::StoreFault;
use std::alloc::Global;
use std::collections::BTreeMap;

/// The number of sequences that the seven digits of a trace distinguish.
const SEQUENCES: u32 = 10_000_000;

/// A `TraceIndex` has the youngest entry for each seven digits in which a sequence ends, among the
/// entries that were sent first.
///
/// It may cover fewer than all sent entries. A cut is written whole or not at all, and memory for
/// the index could be refused in the middle of it; so no write touches the index. A read brings it
/// up to date, and one that is refused memory on the way may be asked again: it goes on from there.
#[derive(Drop)]
pub(crate) struct TraceIndex {
    youngest: BTreeMap<u32, SentEntry>,
    /// The number of the first entries that it covers.
    indexed: usize,
}

impl TraceIndex {
    /// Makes the index of a desk that has sent nothing.
    pub(crate) fn new(alloc: Global) -> TraceIndex
        ensures { IsIndexed [] result }
    {
        TraceIndex {
            youngest: BTreeMap::new(alloc),
            indexed: 0,
        }
    }

    /// Covers the entries that it does not cover yet, from the oldest on.
    pub(crate) fn cover(&mut self, sent: &[SentEntry]) -> Result<(), StoreFault>
        ensures right { IsIndexed sent.now self.old → IsIndexed sent.now self.new }
        ensures whole { OnOk result
            (IsIndexed sent.now self.old → self.new.indexed ≡ length sent.now) }
    {
        for at in self.indexed..sent.len() {
            let entry = sent[at];
            let digits = entry.sequence % SEQUENCES;
            // A younger entry takes the place of the one that had its digits.
            self.youngest.insert(digits, entry)?;
            self.indexed = at + 1;
        }
        Ok(())
    }

    /// Returns the youngest entry that has a trace, given an index that covers all entries.
    pub(crate) fn entry_of(&self, odfi: Routing, trace: Trace) -> Option<SentEntry>
        ensures { OfIndexed self.now (λ sent. result ≡ find (has_trace odfi trace) (reverse sent)) }
    {
        ach_fields::numbers_and_digits();
        let _text = trace.text();
        if odfi.dfi() == trace.dfi() {
            self.youngest.get(&trace.sequence()).copied()
        } else {
            None
        }
    }
}
