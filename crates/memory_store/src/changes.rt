//! These changes of the lists of a store need no memory.
ghost use Rattle.std.specs.Prelude.{◌≡◌, ◌+◌, ◌≤◌, ◌++◌, map, length, vec_len, vec_capacity};
ghost use Rattle.desk_store.specs.Changes.{in_turn};
ghost use Rattle.memory_store.specs.Keyed.{IsKeyed};
ghost use Rattle.memory_store.specs.Kept.{row_in};
ghost use Rattle.memory_store.specs.Placed.{changed_at};
ghost use Rattle.memory_store.specs.Written.{ChangesFound, StillFinds};
ghost use Rattle.memory_store.specs.declared.place_index.KeyKind.{KeyKind};
ghost use Rattle.memory_store.specs.declared.row_key.RowKey.{RowKey};
ghost use Rattle.desk_store.specs.Rows.{CompanyRow};

use crate::list_store::KeptSubmission;
use crate::place_index::PlaceIndex;
use crate::row_key::RowKey;
use desk_rules::EntryState;

/// The change that a row of a write makes to the submissions.
pub(crate) trait Change {
    /// Says what it makes of one.
    ghost makes: { Self → CompanyRow → CompanyRow };

    /// The keys by which the changed submissions are found.
    ghost kind: { KeyKind };

    /// Says which key those have.
    ghost key: { Self → RowKey };

    fn key(&self) -> RowKey
        ensures { result ≡ key self.now };

    fn change(&self, kept: &mut KeptSubmission)
        ensures { row_in kept.new ≡ makes self.now (row_in kept.old) };

    /// It leaves alone what has another key, and no submission gets another one.
    ghost keyed: { (c : Self) → IsKeyed kind (key c) (makes c) };
}

/// Changes the submission at a place.
fn change_at<C: Change>(kept: &mut [KeptSubmission], place: usize, change: &C)
    ensures { map row_in kept.new ≡ changed_at place (C.makes change.now) (map row_in kept.old) }
{
    if place < kept.len() {
        let one = &mut kept[place];
        change.change(one);
    }
}

/// Makes a change of the submissions that an index finds by its key.
fn change_found<C: Change>(kept: &mut [KeptSubmission], index: &PlaceIndex, change: &C)
    ensures { ChangesFound C.kind index.now (map (C.makes change.now)) kept.old kept.new }
{
    let places = index.of(change.key());
    for place in places {
        change_at(kept, *place, change);
    }
}

fn change_in_turn<C: Change>(kept: &mut [KeptSubmission], index: &PlaceIndex, changes: &[C])
    ensures made { ChangesFound C.kind index.now (in_turn C.makes changes.now) kept.old kept.new }
    ensures found { StillFinds C.kind index.now kept.old kept.new }
{
    for change in changes {
        change_found(kept, index, change);
    }
}

/// Makes each change in turn, given an index that finds all submissions. It finds them afterwards
/// too.
pub(crate) fn change_all<C: Change>(
    kept: &mut Vec<KeptSubmission>,
    index: &PlaceIndex,
    changes: &[C],
)
    ensures made { ChangesFound C.kind index.now (in_turn C.makes changes.now)
        kept.old.items kept.new.items }
    ensures found { StillFinds C.kind index.now kept.old.items kept.new.items }
{
    change_in_turn(kept, index, changes);
}

fn fill_states(states: &mut [EntryState], state: &EntryState)
    ensures { states.new ≡ map (λ _. state.now) states.old }
{
    for one in states.iter_mut() {
        *one = *state;
    }
}

/// Brings all entries to one state.
pub(crate) fn set_states(states: &mut Vec<EntryState>, state: EntryState)
    ensures { states.new.items ≡ map (λ _. state) states.old.items }
{
    fill_states(states, &state);
}

/// Adds items for which there is room.
pub(crate) fn add_within<T: Copy>(list: &mut Vec<T>, items: &[T])
    requires { vec_len list.old + length items.now ≤ vec_capacity list.old }
    ensures { list.new.items ≡ list.old.items ++ items.now }
{
    let _done = list.extend_from_slice(items);
}
