//! A submission's fields are checked here, in their order.
ghost use Rattle.std.specs.Prelude.{◌≡◌, ◌∷◌, option_and_then, option_map};
ghost use Rattle.desk_rules.specs.Submission.{submission_of, entry_of, entries_of, some_of};
ghost use Rattle.desk_rules.specs.OrNoMemory.{IsUnlessNoMemory};

use crate::bodies::fields;
use crate::bodies::fields::good;
use crate::{
    Draft, Entries, Entry, EntryDraft, EntryDrafts, Field, Refusal, RuleFault, Submission,
};
use std::alloc::Global;

/// Gives the submission that a draft is, or its first bad field.
///
/// The fields are checked in this order: reference, SEC code, direction, description, day, entries;
/// then for each entry routing number, account, kind, prenote, cents, identification, name and
/// payment information.
pub fn check_fields(alloc: Global, draft: &Draft) -> Result<Submission, RuleFault>
    ensures { IsUnlessNoMemory (submission_of draft.now) result }
{
    let reference = good(fields::reference(&draft.reference), Field::Reference, 0)?;
    let sec = good(fields::sec(&draft.sec), Field::Sec, 0)?;
    let direction = good(fields::direction(&draft.direction), Field::Direction, 0)?;
    let description = good(
        fields::description(&draft.description),
        Field::Description,
        0,
    )?;
    let day = good(fields::day(&draft.day), Field::Day, 0)?;
    let (first, others) = good(some_drafts(&draft.entries), Field::Entries, 0)?;
    let entries = check_entries(alloc, first, others)?;
    Ok(Submission {
        reference,
        sec,
        direction,
        description,
        day,
        entries,
    })
}

// The first of a list, and the others.
fn some_drafts(drafts: &Option<EntryDrafts>) -> Option<(&Option<EntryDraft>, &[Option<EntryDraft>])>
    ensures { option_map (λ s. s.0.now ∷ s.1.now) result ≡ option_and_then some_of drafts.now }
{
    match drafts {
        Some(drafts) => drafts.as_slice().split_first(),
        None => None,
    }
}

fn check_entries(
    alloc: Global,
    first: &Option<EntryDraft>,
    others: &[Option<EntryDraft>],
) -> Result<Entries, RuleFault>
    ensures { IsUnlessNoMemory (entries_of 1 (first.now ∷ others.now)) result }
{
    let mut entries = Entries::new(alloc, check_entry(first, 1)?)?;
    let mut index = 1;
    for draft in others {
        index += 1;
        let entry = check_entry(draft, index)?;
        // The checker follows a move of `Entry` only where its parts' types are seen.
        let _info = entry.info;
        entries.push(entry)?;
    }
    Ok(entries)
}

fn check_entry(draft: &Option<EntryDraft>, index: u64) -> Result<Entry, Refusal>
    ensures { result ≡ entry_of index draft.now }
{
    let Some(draft) = draft else {
        return Err(Refusal::BadField {
            field: Field::Entries,
            index,
        });
    };
    let routing = good(fields::routing(&draft.routing), Field::Routing, index)?;
    let account = good(fields::text(&draft.account), Field::Account, index)?;
    let kind = good(fields::kind(&draft.kind), Field::Kind, index)?;
    let prenote = good(fields::prenote(&draft.prenote), Field::Prenote, index)?;
    let cents = good(fields::cents(draft.cents, prenote), Field::Cents, index)?;
    let id = good(fields::text_or_none(&draft.id), Field::Id, index)?;
    let name = good(fields::text(&draft.name), Field::Name, index)?;
    let info = good(fields::info(&draft.info), Field::Info, index)?;
    Ok(Entry {
        routing,
        account,
        kind,
        prenote,
        cents,
        id,
        name,
        info,
    })
}
