//! Judges each item of a file: it matches a sent entry, or goes to suspense.
ghost use Rattle.std.specs.Prelude.{◌≡◌, [], ◌∷◌, ◌++◌, map, IfOk, OnOk};
ghost use Rattle.desk_intake.specs.Resolutions.{judged_as, judged_item, judged_of};

use crate::found_item::FoundItem;
use crate::matched_item::MatchedItem;
use crate::resolution::resolution_after;
use crate::returned_entries::ReturnedEntries;
use ach_files::ItemFacts;
use desk_history::SuspenseReason;
use std::alloc::{AllocError, Global};

/// A `JudgedItem` is an item with its resolution: the entry that it meets, or the reason against
/// it.
#[derive(Clone, Copy, Debug, Drop)]
pub(crate) struct JudgedItem {
    pub item: ItemFacts,
    pub outcome: Result<MatchedItem, SuspenseReason>,
}

fn push(
    judged: &mut Vec<JudgedItem>,
    item: &ItemFacts,
    outcome: Result<MatchedItem, SuspenseReason>,
) -> Result<(), AllocError>
    ensures { OnOk result (judged.new.items ≡ judged.old.items ++ judged_item item.now outcome ∷ []) }
{
    // The checker follows a move of a `MatchedItem` only where the types of its parts are seen.
    if let Ok(met) = &outcome {
        let _reaction = met.reaction;
        let _info = met.entry.entry.info;
    }
    judged.push(JudgedItem {
        item: *item,
        outcome,
    })?;
    Ok(())
}

/// Gives the resolution of each item, in order.
pub(crate) fn judge(alloc: Global, found: &[FoundItem]) -> Result<Vec<JudgedItem>, AllocError>
    ensures { IfOk result (λ judged. map judged_as judged.items ≡ judged_of found.now) }
{
    let mut earlier = ReturnedEntries::new(alloc);
    let mut judged = Vec::new(alloc);
    for found_item in found {
        let outcome = resolution_after(&mut earlier, found_item)?;
        // The checker follows a move of a `MatchedItem` only where the types of its parts are seen.
        if let Ok(met) = &outcome {
            let _reaction = met.reaction;
            let _info = met.entry.entry.info;
        }
        push(&mut judged, &found_item.item, outcome)?;
    }
    Ok(judged)
}
