//! The batches of a file that is to be printed are judged by their measures.
ghost use Rattle.std.specs.Prelude.{◌≡◌, ◌&&◌, ◌||◌, true};
ghost use Rattle.std.specs.List.{list_all, list_any};
ghost use Rattle.ach_files.specs.Printing.{AddsUp};
ghost use Rattle.ach_files.specs.Outgoing.{batch_sums, file_sums, batch_fits, is_long_batch, capped_sums};

use super::fields::fits_batch;
use super::totals::{add_sums, sums_of_entries};
use crate::limits::SIX_DIGITS;
use crate::outgoing::OutgoingBatch;
use crate::sums::{NO_SUMS, Sums};

/// `Measures` decide whether batches can be printed.
#[derive(Clone, Copy)]
pub struct Measures {
    /// Does each field have a text?
    pub fit: bool,
    /// Does a batch have too many records?
    pub is_any_long: bool,
    /// These are its counts, hash and totals.
    pub sums: Sums,
}

/// Measures one batch.
pub fn measures_of(batch: &OutgoingBatch) -> Measures
    ensures fit { result.fit ≡ batch_fits batch.now }
    ensures long { result.is_any_long ≡ is_long_batch batch.now }
    ensures sums { result.sums ≡ capped_sums (batch_sums batch.now.entries.now) }
{
    let sums = sums_of_entries(batch.entries);
    Measures {
        fit: fits_batch(batch),
        is_any_long: sums.count > SIX_DIGITS,
        sums,
    }
}

// Of the batches so far and of one more.
fn joint_measures(all: Measures, own: Measures) -> Measures
    ensures fit { result.fit ≡ (all.fit && own.fit) }
    ensures long { result.is_any_long ≡ (all.is_any_long || own.is_any_long) }
    ensures sums { AddsUp all.sums own.sums result.sums }
{
    Measures {
        fit: all.fit && own.fit,
        is_any_long: all.is_any_long || own.is_any_long,
        sums: add_sums(all.sums, own.sums),
    }
}

/// Measures batches: each is gone through once for all, while it is at hand.
pub fn measure(batches: &[OutgoingBatch]) -> Measures
    ensures fit { result.fit ≡ list_all batch_fits batches.now }
    ensures long { result.is_any_long ≡ list_any is_long_batch batches.now }
    ensures sums { result.sums ≡ capped_sums (file_sums batches.now) }
{
    let mut all = Measures {
        fit: true,
        is_any_long: false,
        sums: NO_SUMS,
    };
    for batch in batches {
        all = joint_measures(all, measures_of(batch));
    }
    all
}
