//! A caller is allowed by the digest of its key.
ghost use Rattle.std.specs.Prelude.{◌≡◌, ◌↔◌, Some, IsTrue};
ghost use Rattle.desk_admission.specs.OverStores.{AllowsKey, LeavesNoMore};

use desk_book::Caller;
use desk_store::{Store, StoreFault};
use std::alloc::Global;

/// Is this the digest of the caller's key? No company has one before it is registered.
pub fn allow<S: Store>(
    store: &mut S,
    alloc: Global,
    caller: Caller,
    digest: [u8; 32],
) -> Result<bool, StoreFault>
    ensures before { S.is_clean store.new → S.is_clean store.old }
    ensures allows { AllowsKey S.Store store.old store.new result caller digest }
    ensures left { LeavesNoMore S.Store store.old store.new }
{
    let key = store.key_of(alloc, caller)?;
    Ok(is_key(key, digest))
}

fn is_key(key: Option<[u8; 32]>, digest: [u8; 32]) -> bool
    ensures { IsTrue result ↔ (key ≡ Some digest) }
{
    match key {
        Some(key) => key == digest,
        None => false,
    }
}
