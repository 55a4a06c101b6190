//! The rules read these facts of a company's entries.
use crate::{ReturnCode, RuleDay};
use ach_fields::Cents;
use bank_days::Day;

/// The state of an entry.
#[derive(Clone, Copy, Debug, PartialEq, Eq, Drop)]
pub enum EntryState {
    /// It waits for a cut.
    Held,
    /// A cut sent it, to settle on this day.
    Sent {
        settled: RuleDay,
    },
    /// It is returned.
    Returned {
        /// The day on which it settled.
        settled: RuleDay,
        /// The code of its return.
        code: ReturnCode,
        /// The day on which the return was taken.
        day: Day,
        /// Was the return taken after its deadline?
        late: bool,
    },
    /// A retry that would have settled too late, and was not sent.
    Lapsed,
}

/// An `EntryFact` is an entry, as limits and rates count it.
#[derive(Clone, Copy, Debug, PartialEq, Eq, Drop)]
pub struct EntryFact {
    pub debit: bool,
    pub prenote: bool,
    pub cents: Cents,
    pub state: EntryState,
}
