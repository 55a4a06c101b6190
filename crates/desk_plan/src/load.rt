ghost use Rattle.std.specs.Prelude.{◌≡◌, ◌∷◌, []};
ghost use Rattle.desk_plan.specs.Load.{load, plus, if_within};

use crate::batch::Batch;
use ach_fields::Cents;

/// The most batches of a file.
const MOST_BATCHES: usize = 1_000;

/// The most records 6 and 7 of a file.
const MOST_RECORDS: u32 = 100_000;

// The sums over the batches of a file.
#[derive(Clone, Copy)]
pub(crate) struct Load {
    pub(crate) debits: Cents,
    pub(crate) credits: Cents,
    pub(crate) batches: usize,
    pub(crate) records: u32,
}

impl Load {
    // One batch alone.
    pub(crate) fn of(batch: &Batch) -> Load
        ensures { result ≡ load (batch.now ∷ []) }
    {
        Load {
            debits: batch.debits,
            credits: batch.credits,
            batches: 1,
            records: batch.records,
        }
    }

    // Returns the load with one more batch, if a file may hold it.
    pub(crate) fn with(&self, batch: &Batch) -> Option<Load>
        ensures { result ≡ if_within (plus self.now batch.now) }
    {
        let debits = Cents::new(self.debits.get() + batch.debits.get())?;
        let credits = Cents::new(self.credits.get() + batch.credits.get())?;
        let records = self.records.checked_add(batch.records)?;
        if self.batches >= MOST_BATCHES || records > MOST_RECORDS {
            return None;
        }
        Some(Load {
            debits,
            credits,
            batches: self.batches + 1,
            records,
        })
    }
}
