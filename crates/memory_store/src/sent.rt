//! The lists in memory have the sequences that were sent.
ghost use Rattle.std.specs.Prelude.{◌≡◌, map, reverse};
ghost use Rattle.desk_plan.specs.Sequences.{last_sequence};
ghost use Rattle.desk_history.specs.Sendings.{sent_sequence};

use desk_history::SentEntry;

/// Returns the sequence of the last entry, 0 if there is none.
pub(crate) fn last_of(sent: &[SentEntry]) -> u32
    ensures { result ≡ last_sequence (map sent_sequence (reverse sent.now)) }
{
    match sent.last() {
        Some(entry) => entry.sequence,
        None => 0,
    }
}
