//! Writing an incoming file into the lists.
ghost use Rattle.std.specs.Prelude.{◌≡◌, OnOk, OnErr};
ghost use Rattle.desk_store.specs.Changes.{return_in};
ghost use Rattle.memory_store.specs.Keyed.{returned_keyed, returned_states};
ghost use Rattle.memory_store.specs.Kept.{row_in, rows_in};
ghost use Rattle.memory_store.specs.Placed.{under};
ghost use Rattle.memory_store.specs.Written.{WritesIntake};
ghost use Rattle.memory_store.specs.declared.place_index.KeyKind.TheVariants as kinds;
ghost use Rattle.desk_book.specs.Steps.{returned_state_by};
ghost use Rattle.desk_store.specs.Written.{intake_rows};

use crate::changes::{Change, add_within, change_all};
use crate::list_store::{KeptSubmission, ListStore};
use crate::row_key::RowKey;
use desk_book::ReturnedRow;
use desk_rules::EntryState;
use desk_store::IntakeRows;
use std::alloc::AllocError;

fn come_back(state: EntryState, returned: &ReturnedRow) -> EntryState
    ensures { result ≡ returned_state_by returned.now state }
{
    match state {
        EntryState::Sent { settled } => EntryState::Returned {
            settled,
            code: returned.row.code,
            day: returned.row.day,
            late: returned.row.late,
        },
        other => other,
    }
}

fn bring_back(states: &mut Vec<EntryState>, returned: &ReturnedRow)
    ensures { states.new.items ≡ returned_states returned.now states.old.items }
{
    let number = returned.row.index as usize;
    if number >= 1 {
        let at = number - 1;
        if at < states.len() {
            states[at] = come_back(states[at], returned);
        }
    }
}

fn give_back(kept: &mut KeptSubmission, returned: &ReturnedRow)
    ensures { row_in kept.new ≡ return_in returned.now (row_in kept.old) }
{
    if kept.company.bytes() == returned.company.bytes() {
        if kept.content.submission().reference.bytes() == returned.row.reference.bytes() {
            bring_back(&mut kept.states, returned);
        }
    }
}

impl Change for ReturnedRow {
    ghost makes = { return_in };

    ghost kind = { kinds.Reference };

    ghost key = { λ r. under r.company r.row.reference };

    ghost keyed = { returned_keyed };

    fn key(&self) -> RowKey {
        RowKey::under(self.company, self.row.reference)
    }

    fn change(&self, kept: &mut KeptSubmission) {
        give_back(kept, self);
    }
}

/// Writes an incoming file, given an index of references that covers all submissions.
///
/// # Errors
///
/// Without memory the lists are unchanged.
pub(crate) fn write_intake(store: &mut ListStore, intake: &IntakeRows<'_>) -> Result<(), AllocError>
    ensures ok { OnOk result (WritesIntake (intake_rows intake.now) store.old store.new) }
    ensures err { OnErr result (rows_in store.new ≡ rows_in store.old) }
    ensures traces { store.new.traces ≡ store.old.traces }
    ensures settlements { store.new.settlements ≡ store.old.settlements }
    ensures places { store.new.places ≡ store.old.places }
{
    store.returned.reserve(intake.returned.len())?;
    store.changed.reserve(intake.changed.len())?;
    store.suspense.reserve(intake.suspense.len())?;
    store.postings.reserve(intake.postings.len())?;
    // The last that may fail: for all else there is room.
    store.taken.push(intake.file)?;
    add_within(&mut store.returned, intake.returned);
    add_within(&mut store.changed, intake.changed);
    add_within(&mut store.suspense, intake.suspense);
    add_within(&mut store.postings, intake.postings);
    change_all(
        &mut store.submissions,
        &store.places.references,
        intake.returned,
    );
    Ok(())
}
