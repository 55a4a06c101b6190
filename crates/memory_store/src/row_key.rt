//! A key names rows in the lists in memory.
ghost use Rattle.std.specs.Prelude.{◌≡◌, refl, bytes_eq};
ghost use Rattle.std.specs.Cmp.{partial_equiv_from_equiv, partial_order_from_agreeing_total};
ghost use Rattle.std.specs.Cmp.Lexicographic.{slice_cmp};
ghost use Rattle.std.specs.Option.{option_eq, option_cmp};
ghost use Rattle.std.specs.Ordering.{nat_cmp, as_partial_cmp};
ghost use Rattle.memory_store.specs.RowKeys.{is_same_key, key_cmp, same_key_equiv, key_cmp_total, key_cmp_ties};

use ach_fields::{Id, Ref};
use std::cmp::Ordering;

/// A `RowKey` names the rows of a company, or those of them that go by a reference, or that have an
/// order number.
#[derive(Clone, Copy)]
pub(crate) struct RowKey {
    pub(crate) company: Id,
    pub(crate) reference: Option<Ref>,
    pub(crate) order: Option<u64>,
}

fn is_same_reference(first: Option<Ref>, second: Option<Ref>) -> bool
    ensures { result ≡ option_eq bytes_eq first second }
{
    match (first, second) {
        (Some(first), Some(second)) => first.bytes() == second.bytes(),
        (None, None) => true,
        _ => false,
    }
}

/// Says which reference comes first in byte order; none comes before all.
fn reference_order(first: Option<Ref>, second: Option<Ref>) -> Ordering
    ensures { result ≡ option_cmp (slice_cmp nat_cmp) first second }
{
    match (first, second) {
        (Some(first), Some(second)) => first.bytes().cmp(second.bytes()),
        (Some(_), None) => Ordering::Greater,
        (None, Some(_)) => Ordering::Less,
        (None, None) => Ordering::Equal,
    }
}

impl PartialEq for RowKey {
    ghost eq = { is_same_key };

    ghost laws = { partial_equiv_from_equiv same_key_equiv };

    fn eq(&self, other: &RowKey) -> bool {
        self.company.bytes() == other.company.bytes()
            && is_same_reference(self.reference, other.reference)
            && self.order == other.order
    }
}

impl Eq for RowKey {
    ghost laws = { same_key_equiv };
}

impl PartialOrd for RowKey {
    ghost partial_cmp = { as_partial_cmp key_cmp };

    ghost laws = { partial_order_from_agreeing_total key_cmp key_cmp_total (λ x y. refl) key_cmp_ties };

    fn partial_cmp(&self, other: &RowKey) -> Option<Ordering> {
        Some(self.cmp(other))
    }
}

impl Ord for RowKey {
    ghost cmp = { key_cmp };

    ghost total = { key_cmp_total };

    ghost matches_partial_cmp = { λ x y. refl };

    ghost matches_eq = { key_cmp_ties };

    fn cmp(&self, other: &RowKey) -> Ordering {
        self.company
            .bytes()
            .cmp(other.company.bytes())
            .then(reference_order(self.reference, other.reference))
            .then(self.order.cmp(&other.order))
    }
}
