//! The entry that the trace of an incoming item names.
use desk_history::SentEntry;

/// A `NamedEntry` is the sent entry that an item's trace names.
#[derive(Clone, Copy, Debug, PartialEq, Eq, Drop)]
pub struct NamedEntry {
    pub entry: SentEntry,
    /// Whether it was returned before the file.
    pub returned: bool,
}
