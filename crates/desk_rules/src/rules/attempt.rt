ghost use Rattle.std.specs.Prelude.{◌≡◌};
ghost use Rattle.desk_rules.specs.Attempts.{attempt_of};

use crate::{EntryState, ReturnCode, RuleDay};
use bank_days::Day;

/// An `Attempt` is an attempt to collect a debit: the entry itself, or a retry of it (Nacha's
/// reinitiation) that has not lapsed.
#[derive(Clone, Copy, Debug, PartialEq, Eq, Drop)]
pub enum Attempt {
    /// It waits for a cut.
    Held,
    /// A cut sent it, to settle on this day.
    Sent {
        settled: RuleDay,
    },
    /// It is returned.
    Returned {
        /// The day on which it settled.
        settled: RuleDay,
        /// The code of its return.
        code: ReturnCode,
        /// The day on which the return was taken.
        day: Day,
    },
}

impl EntryState {
    /// Gives the attempt that an entry in this state is, or `None` where it lapsed.
    pub fn attempt(self) -> Option<Attempt>
        ensures { result ≡ attempt_of self }
    {
        match self {
            EntryState::Held => Some(Attempt::Held),
            EntryState::Sent { settled } => Some(Attempt::Sent { settled }),
            EntryState::Returned {
                settled,
                code,
                day,
                ..
            } => Some(Attempt::Returned { settled, code, day }),
            EntryState::Lapsed => None,
        }
    }
}
