//! Scripts that are followed with a restart before one of their lines.
use super::own_reads::follow_with_own_reads;
use super::script::{Script, new_lists, new_tables};
use desk_core::{Desk, Store};
use remembering_store::Remembering;
use std::alloc::Global;
use std::process::Abort;

// Follows a script over a store that remembers. Before the line at this place, it is replaced by a new
// one around the same inner store, which remembers nothing.
fn follow_restarted<S: Store + Drop>(
    rt: &(impl Abort + Alloc<A = Global>),
    store: S,
    script: Script,
    place: usize,
) {
    let (before, after) = script.split_at(script.len().min(place));
    let mut desk = Desk::new(Remembering::new(rt.alloc(), store));
    follow_with_own_reads(rt, &mut desk, before);
    let store = desk.into_store().into_inner();
    let mut desk = Desk::new(Remembering::new(rt.alloc(), store));
    follow_with_own_reads(rt, &mut desk, after);
}

/// Runs a script over tables and over lists that remember, with a restart before each line in turn. The
/// companies that only earlier lines asked about are then forgotten.
pub(super) fn holds_restarted(rt: &(impl Abort + Alloc<A = Global>), script: Script) {
    for place in 0..script.len() {
        follow_restarted(rt, new_tables(rt), script, place);
        follow_restarted(rt, new_lists(rt), script, place);
    }
}
