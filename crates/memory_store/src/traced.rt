//! The entries that traces name, among those in memory.
ghost use Rattle.std.specs.Prelude.{◌≡◌, IfOk};
ghost use Rattle.desk_book.specs.OnIntake.{is_returned_state};
ghost use Rattle.memory_store.specs.Covers.{HasReferences};
ghost use Rattle.memory_store.specs.Traced.{NameEach, Names, is_returned_among};

use crate::entries::{state_of, submission_among};
use crate::list_store::KeptSubmission;
use crate::place_index::PlaceIndex;
use crate::row_key::RowKey;
use crate::trace_index::TraceIndex;
use ach_fields::{Routing, Trace};
use desk_book::NamedEntry;
use desk_history::SentEntry;
use desk_rules::EntryState;
use std::alloc::{AllocError, Global};

fn is_returned_state(state: EntryState) -> bool
    ensures { result ≡ is_returned_state state }
{
    match state {
        EntryState::Returned { .. } => true,
        _ => false,
    }
}

// Reports whether the entry is returned, given an index that finds each reference.
fn is_returned(kept: &[KeptSubmission], references: &PlaceIndex, entry: &SentEntry) -> bool
    ensures { HasReferences kept.now references.now → result ≡ is_returned_among kept.now entry.now }
{
    let places = references.of(RowKey::under(entry.company, entry.reference));
    let found = submission_among(kept, places, entry.company, entry.reference);
    match state_of(found, entry.index) {
        Some(state) => is_returned_state(state),
        None => false,
    }
}

/// `Traced` finds what traces name: by an index of the entries that were sent, and one of the references of
/// what is kept.
#[derive(Clone, Copy)]
pub(crate) struct Traced<'a> {
    pub odfi: Routing,
    pub traces: &'a TraceIndex,
    pub kept: &'a [KeptSubmission],
    pub references: &'a PlaceIndex,
}

impl Traced<'_> {
    fn entry_of(&self, trace: &Option<Trace>) -> Option<NamedEntry>
        ensures { Names self.now trace.now result }
    {
        let entry = match trace {
            Some(trace) => self.traces.entry_of(self.odfi, *trace)?,
            None => return None,
        };
        let returned = is_returned(self.kept, self.references, &entry);
        Some(NamedEntry { entry, returned })
    }

    /// Gives what each trace names.
    pub(crate) fn entries_of(
        &self,
        alloc: Global,
        traces: &[Option<Trace>],
    ) -> Result<Vec<Option<NamedEntry>>, AllocError>
        ensures { IfOk result (NameEach self.now traces.now) }
    {
        let mut named = Vec::new(alloc);
        for trace in traces {
            let one = self.entry_of(trace);
            // The checker follows a move of an entry only where the types of its parts are seen.
            if let Some(found) = &one {
                let _info = found.entry.entry.info;
            }
            named.push(one)?;
        }
        Ok(named)
    }
}
