//! The counts and sums of entries.
ghost use Rattle.std.specs.Prelude.{◌≡◌, ◌≤◌, ◌<◌, ◌^◌};
ghost use Rattle.ach_fields.specs.Cents.{most_cents};
ghost use Rattle.ach_files.specs.Totals.{low_digits};
ghost use Rattle.ach_files.specs.ReaderState.{item_sums, joint_sums, with_low_hash, total};

use crate::stage::PendingEntry;
use ach_fields::Cents;

/// `Sums` are the counts and sums of records. Of more than one batch the hash is the sum of the batches'
/// hashes, each of ten digits.
#[derive(Clone, Copy)]
pub struct Sums {
    /// The number of records 6 and 7.
    pub count: u64,
    /// The sum of the receiving DFIs.
    pub hash: u64,
    /// The sum of the debits, in cents.
    pub debits: u64,
    /// The sum of the credits, in cents.
    pub credits: u64,
}

/// The sums of no entries.
pub const NO_SUMS: Sums = Sums {
    count: 0,
    hash: 0,
    debits: 0,
    credits: 0,
};

/// Adds an entry and its addenda.
pub fn with_item(sums: &Sums, entry: &PendingEntry) -> Sums
    requires { total (joint_sums sums.now (item_sums entry.now)) < 2 ^ 60 }
    ensures { result ≡ joint_sums sums.now (item_sums entry.now) }
{
    let cents = entry.cents.get();
    Sums {
        count: sums.count + 2,
        hash: sums.hash + entry.dfi,
        debits: sums.debits + if entry.is_debit { cents } else { 0 },
        credits: sums.credits + if entry.is_debit { 0 } else { cents },
    }
}

/// Adds a batch, of its hash the low ten digits.
pub fn with_batch(sums: &Sums, batch: &Sums) -> Sums
    requires { total (joint_sums sums.now batch.now) < 2 ^ 60 }
    ensures { result ≡ joint_sums sums.now (with_low_hash batch.now) }
{
    Sums {
        count: sums.count + batch.count,
        hash: sums.hash + low_digits(batch.hash),
        debits: sums.debits + batch.debits,
        credits: sums.credits + batch.credits,
    }
}

/// Gives the low ten digits of a hash.
pub fn low_digits(hash: u64) -> u64
    ensures { result ≡ low_digits hash }
{
    hash % 10_000_000_000
}

/// Returns this many cents, which are few enough.
pub fn cents_of(cents: u64) -> Cents
    requires { cents ≤ most_cents }
    ensures { result ≡ cents }
{
    let Some(cents) = Cents::new(cents) else {
        unreachable!();
    };
    cents
}
