//! An item that meets its entry is matched.
use desk_history::SentEntry;
use desk_rules::ReturnCode;

/// The effect of an item on its entry.
#[derive(Clone, Copy, Debug, PartialEq, Eq, Drop)]
pub(crate) enum Reaction {
    Return {
        code: ReturnCode,
        information: [u8; 44],
    },
    Change {
        code: [u8; 3],
        text: [u8; 29],
    },
}

/// A `MatchedItem` is an item that meets its entry.
#[derive(Clone, Copy, Debug, Drop)]
pub(crate) struct MatchedItem {
    pub entry: SentEntry,
    pub reaction: Reaction,
}
