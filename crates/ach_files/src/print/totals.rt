//! The entries of a file that is to be printed are summed up as far as its controls say it.
ghost use Rattle.std.specs.Prelude.{◌≡◌, ◌+◌, ◌<◌, ℕ, List, length, min};
ghost use Rattle.ach_files.specs.Printing.{AddsUp};
ghost use Rattle.ach_files.specs.Outgoing.{addenda_rows, entry_rows, entry_sums, batch_sums, is_large, capped_sums, sums_cap};

use crate::outgoing::{Addenda, OutgoingEntry};
use crate::sums::{NO_SUMS, Sums, low_digits};
use ach_fields::MOST_CENTS;

// Sums are kept up to the first amount that has more than twelve digits.
const CAP: u64 = MOST_CENTS + 1;

fn add_up(a: u64, b: u64) -> u64
    ensures { result ≡ min (a + b) sums_cap }
{
    if a < CAP && b < CAP - a { a + b } else { CAP }
}

/// Returns the sums of both; a total stops growing once it is too large for a file.
#[tactic(auto, using(crate::proofs::Outgoings::kept_added))]
pub fn add_sums(a: Sums, b: Sums) -> Sums
    ensures { AddsUp a b result }
{
    Sums {
        count: add_up(a.count, b.count),
        hash: low_digits(low_digits(a.hash) + low_digits(b.hash)),
        debits: add_up(a.debits, b.debits),
        credits: add_up(a.credits, b.credits),
    }
}

// Returns the number of records.
fn count_of(addenda: &Addenda) -> u64
    ensures { (trace : List ℕ) → result ≡ 1 + length (addenda_rows trace addenda.now) }
{
    match addenda {
        Addenda::Absent => 1,
        _ => 2,
    }
}

#[tactic(auto, unfolding(crate::specs::Outgoing::entry_sums, crate::specs::Outgoing::capped_sums, crate::specs::Outgoing::entry_rows))]
fn sums_of_entry(entry: &OutgoingEntry) -> Sums
    ensures { result ≡ capped_sums (entry_sums entry.now) }
{
    let count = count_of(&entry.addenda);
    let cents = add_up(entry.cents.get(), 0);
    let hash = entry.dfi as u64;
    if entry.transaction % 10 >= 5 {
        Sums {
            count,
            hash,
            debits: cents,
            credits: 0,
        }
    } else {
        Sums {
            count,
            hash,
            debits: 0,
            credits: cents,
        }
    }
}

/// Returns the sums of these entries.
pub fn sums_of_entries(entries: &[OutgoingEntry]) -> Sums
    ensures { result ≡ capped_sums (batch_sums entries.now) }
{
    let mut sums = NO_SUMS;
    for entry in entries {
        sums = add_sums(sums, sums_of_entry(entry));
    }
    sums
}

/// Reports whether a total is too large for a file.
pub fn is_large(sums: &Sums) -> bool
    ensures { result ≡ is_large sums.now }
{
    sums.debits > MOST_CENTS || sums.credits > MOST_CENTS
}
