//! An index finds when the entries of a range of sequences settled, without going through all entries.
ghost use Rattle.std.specs.Prelude.{◌≡◌, [], length, OnOk};
ghost use Rattle.memory_store.specs.Finds.{later_of};
ghost use Rattle.memory_store.specs.Indexed.{AreSettled, OfSettled, latest_settlement};

use bank_days::Day;
use desk_history::SentEntry;
use desk_store::StoreFault;
use std::alloc::Global;
use std::collections::BTreeMap;

/// A `SettlementIndex` has for each sequence the day on which the youngest entry with it settled,
/// among the entries that were sent first.
///
/// As of a `TraceIndex`, no write touches it, and a read brings it up to date.
#[derive(Drop)]
pub(crate) struct SettlementIndex {
    settled: BTreeMap<u32, Day>,
    /// The number of the first entries that it covers.
    indexed: usize,
}

impl SettlementIndex {
    /// Makes the index of a desk that has sent nothing.
    pub(crate) fn new(alloc: Global) -> SettlementIndex
        ensures { AreSettled [] result }
    {
        SettlementIndex {
            settled: BTreeMap::new(alloc),
            indexed: 0,
        }
    }

    /// Covers the entries that it does not cover yet, from the oldest on.
    pub(crate) fn cover(&mut self, sent: &[SentEntry]) -> Result<(), StoreFault>
        ensures right { AreSettled sent.now self.old → AreSettled sent.now self.new }
        ensures whole { OnOk result
            (AreSettled sent.now self.old → self.new.indexed ≡ length sent.now) }
    {
        for at in self.indexed..sent.len() {
            let entry = sent[at];
            // A younger entry takes the place of the one that had its sequence.
            self.settled.insert(entry.sequence, entry.settled.day())?;
            self.indexed = at + 1;
        }
        Ok(())
    }

    /// Gives the latest settlement of the youngest entries of sequences from the first to the last,
    /// where all entries are covered.
    pub(crate) fn latest(&self, from: u32, to: u32) -> Option<Day>
        ensures { OfSettled self.now (λ sent. result ≡ latest_settlement sent (from, to)) }
    {
        let mut latest = None;
        for sequence in u64::from(from)..u64::from(to) + 1 {
            latest = later(latest, self.settled.get(&(sequence as u32)).copied());
        }
        latest
    }
}

fn later(first: Option<Day>, second: Option<Day>) -> Option<Day>
    ensures { result ≡ later_of first second }
{
    match (first, second) {
        (Some(first), Some(second)) => Some(first.max(second)),
        (None, second) => second,
        (first, None) => first,
    }
}
