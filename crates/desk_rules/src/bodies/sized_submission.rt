//! A submission that is not too large.
ghost use Rattle.std.specs.Prelude.{◌≡◌, Ok, IfOk};
ghost use Rattle.desk_rules.specs.Size.{size_of, sized_of, submission_of_one, total_of};

use crate::{Direction, Entries, Entry, Refusal, RuleDay, SecCode, Submission, check_size, total};
use ach_fields::{Cents, Ref, ShortText};
use std::alloc::{AllocError, Global};
use std::marker::Model;

/// A submission of 1 to 1,000 entries with a total of at most 999,999,999,999 cents. Every accepted
/// submission is one.
#[derive(Drop)]
pub struct SizedSubmission {
    submission: Submission,
}

// Clauses see the submission.
impl Model for SizedSubmission {
    ghost use Rattle.std.specs.Prelude.{◌≡◌, Ok};
    ghost use Rattle.desk_rules.specs.Size.{size_of};
    ghost use Rattle.desk_rules.specs.declared.bodies.submission.Submission.{Submission};

    ghost Value = { Submission };

    ghost view = { λ s. s.submission };

    ghost invariant = { λ s. size_of s.submission ≡ Ok tt };
}

impl SizedSubmission {
    /// Gives the submission, or refuses it: `TooManyEntries`, then `TotalTooLarge`.
    pub fn new(submission: Submission) -> Result<SizedSubmission, Refusal>
        ensures { result ≡ sized_of submission }
    {
        check_size(&submission)?;
        Ok(SizedSubmission { submission })
    }

    /// Makes the submission of one entry.
    pub fn of_one(
        alloc: Global,
        reference: Ref,
        sec: SecCode,
        direction: Direction,
        description: ShortText<10>,
        day: RuleDay,
        entry: Entry,
    ) -> Result<SizedSubmission, AllocError>
        ensures { IfOk result
            (λ s. s ≡ submission_of_one reference sec direction description day entry) }
    {
        let _cents = entry.cents.get();
        Ok(SizedSubmission {
            submission: Submission {
                reference,
                sec,
                direction,
                description,
                day,
                entries: Entries::new(alloc, entry)?,
            },
        })
    }

    /// Gives the submission.
    pub fn submission(&self) -> &Submission
        ensures value { result.now ≡ self.now }
        ensures sized { size_of self.now ≡ Ok tt }
    {
        &self.submission
    }

    /// Gives the sum of its entries in cents.
    pub fn total(&self) -> Cents
        ensures { result ≡ total_of self.now.entries }
    {
        Cents::new(total(self.submission.entries.as_slice())).unwrap()
    }

    /// Makes a copy of it.
    pub fn copy(&self, alloc: Global) -> Result<SizedSubmission, AllocError>
        ensures { IfOk result (λ copy. copy ≡ self.now) }
    {
        let submission = &self.submission;
        Ok(SizedSubmission {
            submission: Submission {
                reference: submission.reference,
                sec: submission.sec,
                direction: submission.direction,
                description: submission.description,
                day: submission.day,
                entries: submission.entries.copy(alloc)?,
            },
        })
    }
}
