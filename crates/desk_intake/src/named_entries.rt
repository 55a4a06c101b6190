//! The entries that the items of an incoming file name.
ghost use Rattle.std.specs.Prelude.{◌≡◌, zip, IfOk};
ghost use Rattle.desk_book.specs.Book.{Book};
ghost use Rattle.desk_book.specs.OnIntake.{named_entry_on, traced_entry};
ghost use Rattle.desk_intake.specs.Resolutions.{AreTracesOf, found_as, found_on};
ghost use Rattle.desk_admission.specs.OverStores.{GivesAs};

use crate::found_item::FoundItem;
use ach_fields::Trace;
use ach_files::ItemFacts;
use desk_book::NamedEntry;
use desk_store::{Store, StoreFault};
use std::alloc::{AllocError, Global};

// Returns an item's original trace. A text that is not a trace is that of no entry.
#[tactic(auto, using(crate::proofs::Traceless::traceless))]
fn trace_of(item: &ItemFacts) -> Option<Trace>
    ensures { (b : Book) → traced_entry result b ≡ named_entry_on b item.now }
{
    match Trace::parse(&item.original_trace) {
        Ok(trace) => Some(trace),
        Err(_) => None,
    }
}

fn traces_of(alloc: Global, items: &[ItemFacts]) -> Result<Vec<Option<Trace>>, AllocError>
    ensures { IfOk result (λ traces. AreTracesOf items.now traces.items) }
{
    let mut traces = Vec::new(alloc);
    for item in items {
        traces.push(trace_of(item))?;
    }
    Ok(traces)
}

// Returns each item with the entry found for it.
fn found_beside(
    alloc: Global,
    items: &[ItemFacts],
    named: &[Option<NamedEntry>],
) -> Result<Vec<FoundItem>, AllocError>
    ensures { IfOk result (λ found. found_as found ≡ zip items.now named.now) }
{
    let mut found = Vec::new(alloc);
    for (item, one) in items.iter().zip(named) {
        found.push(FoundItem {
            item: *item,
            named: *one,
        })?;
    }
    Ok(found)
}

/// Gives the items, each with what it names, which the store is asked for once.
pub(crate) fn found_items<S: Store>(
    store: &mut S,
    alloc: Global,
    items: &[ItemFacts],
) -> Result<Vec<FoundItem>, StoreFault>
    ensures { GivesAs S.Store store.old store.new found_as result (found_on items.now) }
{
    let traces = traces_of(alloc, items)?;
    let named = store.traced_entries(alloc, &traces)?;
    let found = found_beside(alloc, items, &named)?;
    Ok(found)
}
