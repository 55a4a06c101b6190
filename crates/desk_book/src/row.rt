//! The book has a row for each submission of a company.
ghost use Rattle.std.specs.Prelude.{◌≡◌, ◌-◌, slice_get, unwrap_or};
ghost use Rattle.desk_rules.specs.declared.rules.entry_fact.EntryState.TheVariants.{Held};

use desk_history::ListOf;
use desk_rules::{EntryState, Retry, RuleDay, SizedSubmission};

/// A `Row` is an accepted submission or retry, with what cuts and returns made of it.
#[derive(Drop)]
pub struct Row {
    /// Its number among the company's accepted submissions and retries, from 1.
    pub order: u64,
    /// The content that was submitted; for a retry the one entry that it tries again.
    pub content: SizedSubmission,
    /// The content of the retry's own request.
    pub retry: Option<Retry>,
    /// The day on which it settles, once a cut has sent it.
    pub settled: Option<RuleDay>,
    /// Is it a retry that would have settled too late?
    pub lapsed: bool,
    /// The state of each entry.
    pub states: ListOf<EntryState>,
}

/// Gives the state of the entry with this number, counted from 1, among those of a row. A number that
/// no entry has gives `Held`.
pub fn state_numbered(states: &[EntryState], index: u64) -> EntryState
    ensures { result ≡ unwrap_or (slice_get states.now (index - 1)) Held }
{
    let at = index.saturating_sub(1) as usize;
    if at < states.len() {
        states[at]
    } else {
        EntryState::Held
    }
}
