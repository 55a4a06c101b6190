//! Writes and reads of a store, one after another.
use super::reads::{Read, finds};
use super::samples::new_store;
use super::writes::{Write, carry_out};
use desk_store::Store;
use std::alloc::Global;
use std::process::Abort;

/// A write, which is done, or a read, which finds what it has to.
#[derive(Clone, Copy)]
pub(super) enum Step {
    Write(Write),
    Read(Read),
}

// Takes the step. Is it done, or does it find what it has to?
fn take<S: Store>(rt: &(impl Abort + Alloc<A = Global>), store: &mut S, step: Step) -> bool {
    match step {
        Step::Write(what) => carry_out(rt, store, what).is_ok(),
        Step::Read(read) => finds(rt, store, read),
    }
}

/// Takes all steps.
pub(super) fn take_all<S: Store>(
    rt: &(impl Abort + Alloc<A = Global>),
    store: &mut S,
    steps: &[Step],
) {
    for (number, step) in steps.iter().enumerate() {
        assert!(rt; take(rt, store, *step), "step {number}");
    }
}

/// Takes all steps over a new store.
pub(super) fn hold(rt: &(impl Abort + Alloc<A = Global>), steps: &[Step]) {
    take_all(rt, &mut new_store(rt), steps);
}
