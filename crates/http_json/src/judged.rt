//! A submission's draft as far as it is judged. An entry without a routing number is refused, whatever follows it: a body of
//! millions of such entries would be a hundred times its size as drafts.
ghost use Rattle.std.specs.Prelude.{◌≡◌, option_map, IfOk};
ghost use Rattle.http_json.specs.Drafts.{entries_at, entry_drafts_of, submission_draft_of};
ghost use Rattle.http_json.specs.Judged.{has_routing, judged_draft, judged_entries};
ghost use Rattle.http_json.specs.View.{view, items_view};

use crate::drafts::{draft_with, entry_draft, entry_values};
use desk_rules::{Draft, EntryDraft, EntryDrafts};
use json::Value;
use std::alloc::{AllocError, Global};

/// Gives the draft of a submission that a JSON object is, up to the first entry without a routing number.
pub fn judged_draft(alloc: Global, value: &Value<'_>) -> Result<Draft, AllocError>
    ensures { IfOk result (λ d. d ≡ judged_draft (submission_draft_of (view value.now))) }
{
    let entries = judged_entries_at(alloc, value)?;
    draft_with(alloc, value, entries)
}

fn judged_entries_at(alloc: Global, value: &Value<'_>) -> Result<Option<EntryDrafts>, AllocError>
    ensures { IfOk result (λ d. d ≡ option_map judged_entries (entries_at (view value.now))) }
{
    match entry_values(value) {
        Some(values) => Ok(Some(judged_entries(alloc, values)?)),
        None => Ok(None),
    }
}

fn judged_entries(alloc: Global, values: &[Value<'_>]) -> Result<EntryDrafts, AllocError>
    ensures { IfOk result (λ d. d ≡ judged_entries (entry_drafts_of (items_view values.now))) }
{
    let mut drafts = Vec::new(alloc);
    for value in values {
        let draft = entry_draft(alloc, value)?;
        let goes_on = has_routing(&draft);
        drafts.push(draft)?;
        if !goes_on {
            return Ok(EntryDrafts::new(drafts));
        }
    }
    Ok(EntryDrafts::new(drafts))
}

fn has_routing(draft: &Option<EntryDraft>) -> bool
    ensures { result ≡ has_routing draft.now }
{
    match draft {
        Some(entry) => entry.routing.is_some(),
        None => false,
    }
}
