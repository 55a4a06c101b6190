//! The bytes that a disk has of a write during which its machine stopped.
use super::exchanges::add;
use super::images::copy;
use std::alloc::Global;
use std::process::Abort;

// The middle of the bytes that the write changes.
fn middle_of_change(old: &[u8], new: &[u8]) -> usize {
    let mut first = new.len();
    let mut changed: usize = 0;
    for at in 0..new.len() {
        if old.get(at) != new.get(at) {
            first = first.min(at);
            changed = changed.saturating_add(1);
        }
    }
    first.saturating_add(changed / 2)
}

/// About half of the bytes that it changes.
pub(super) fn half_of_write(
    rt: &(impl Abort + Alloc<A = Global>),
    old: &[u8],
    new: &[u8],
) -> Vec<u8> {
    let middle = middle_of_change(old, new);
    let mut out = copy(rt, new.get(..middle).unwrap_or(new));
    add(rt, &mut out, old.get(middle..).unwrap_or(&[]));
    out
}

// The byte where it stays, and neither of the two where the write changes it.
fn garbage_byte(old: Option<&u8>, new: u8) -> u8 {
    match old {
        Some(old) if *old == new => new,
        Some(old) => (*old & new) ^ 0x5a,
        None => new ^ 0x5a,
    }
}

/// Other bytes where it changes any.
pub(super) fn garbage_of(rt: &(impl Abort + Alloc<A = Global>), old: &[u8], new: &[u8]) -> Vec<u8> {
    let mut out = copy(rt, new);
    for (at, byte) in out.iter_mut().enumerate() {
        *byte = garbage_byte(old.get(at), *byte);
    }
    out
}
