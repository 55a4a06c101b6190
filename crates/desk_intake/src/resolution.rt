//! The resolution of an item is the entry that it meets, or the first reason against it.
ghost use Rattle.std.specs.Prelude.{◌≡◌, option_map, IfOk, Ok};
ghost use Rattle.desk_history.specs.declared.sent_entry.SentEntry.{SentEntry};
ghost use Rattle.desk_history.specs.Intake.{is_returned_event};
ghost use Rattle.desk_history.specs.Resolve.{event_of, resolve_entry};
ghost use Rattle.desk_book.specs.OnIntake.{unless_repeated, was_returned};
ghost use Rattle.desk_intake.specs.ReturnedEntries.{Resolves};
ghost use Rattle.desk_intake.specs.Resolutions.{event_as, found_resolution, matched_item_as, resolution_as};

use crate::agreement::{agrees, is_change_code};
use crate::found_item::FoundItem;
use crate::matched_item::{MatchedItem, Reaction};
use crate::returned_entries::ReturnedEntries;
use ach_files::{ItemFacts, ReturnOrChange};
use desk_book::NamedEntry;
use desk_history::{SentEntry, SuspenseReason};
use desk_rules::ReturnCode;
use std::alloc::AllocError;

/// Returns the effect of an item whose code is one of R01 to R29, or of C01 to C14.
fn reaction_of(item: &ItemFacts) -> Option<Reaction>
    ensures { (e : SentEntry) → option_map (event_as e) result ≡ event_of e item.now }
{
    match item.return_or_change {
        ReturnOrChange::Return(information) => {
            let code = ReturnCode::parse(&item.code)?;
            Some(Reaction::Return { code, information })
        }
        ReturnOrChange::Change(text) => {
            if !is_change_code(&item.code) {
                return None;
            }
            Some(Reaction::Change {
                code: item.code,
                text,
            })
        }
    }
}

/// Gives the entry that an item meets, or the first reason against it.
fn resolve(entry: Option<SentEntry>, item: &ItemFacts) -> Result<MatchedItem, SuspenseReason>
    ensures { resolution_as result ≡ resolve_entry entry item.now }
{
    let Some(entry) = entry else {
        return Err(SuspenseReason::NoTrace);
    };
    if !agrees(&entry, item) {
        return Err(SuspenseReason::Differs);
    }
    let Some(reaction) = reaction_of(item) else {
        return Err(SuspenseReason::CodeOutside);
    };
    Ok(MatchedItem { entry, reaction })
}

fn entry_of(named: &Option<NamedEntry>) -> Option<SentEntry>
    ensures { result ≡ option_map (λ n. n.entry) named.now }
{
    match named {
        Some(named) => Some(named.entry),
        None => None,
    }
}

fn was_returned(named: &Option<NamedEntry>) -> bool
    ensures { result ≡ was_returned named.now }
{
    match named {
        Some(named) => named.returned,
        None => false,
    }
}

// Reports whether its entry is returned.
fn is_return(met: &MatchedItem) -> bool
    ensures { result ≡ is_returned_event (matched_item_as met.now).event }
{
    match met.reaction {
        Reaction::Return { .. } => true,
        Reaction::Change { .. } => false,
    }
}

// Returns the match, unless it returns an entry again: one that was returned before the file, or by an
// earlier item of it. An entry that is returned is added.
fn unless_repeated(
    earlier: &mut ReturnedEntries,
    before: bool,
    met: MatchedItem,
) -> Result<Result<MatchedItem, SuspenseReason>, AllocError>
    ensures { IfOk result (λ outcome. Resolves earlier.old earlier.new
        (λ es. unless_repeated es before (Ok (matched_item_as met))) (resolution_as outcome)) }
{
    if !is_return(&met) {
        return Ok(Ok(met));
    }
    if before {
        return Ok(Err(SuspenseReason::AlreadyReturned));
    }
    if earlier.add(&met.entry)? {
        Ok(Ok(met))
    } else {
        Ok(Err(SuspenseReason::AlreadyReturned))
    }
}

/// Returns the resolution of an item, after others that returned these entries. If it returns its
/// entry, that one is added to them.
pub(crate) fn resolution_after(
    earlier: &mut ReturnedEntries,
    found: &FoundItem,
) -> Result<Result<MatchedItem, SuspenseReason>, AllocError>
    ensures { IfOk result (λ outcome. Resolves earlier.old earlier.new
        (λ es. found_resolution es found.now) (resolution_as outcome)) }
{
    match resolve(entry_of(&found.named), &found.item) {
        Ok(met) => unless_repeated(earlier, was_returned(&found.named), met),
        Err(why) => Ok(Err(why)),
    }
}
