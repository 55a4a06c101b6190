//! The order of references: their byte order.
ghost use Rattle.std.specs.Prelude.{◌≡◌, refl, bytes_eq};
ghost use Rattle.std.specs.Cmp.{partial_equiv_from_equiv, partial_order_from_agreeing_total};
ghost use Rattle.std.specs.Cmp.Lexicographic.{texts_ties};
ghost use Rattle.std.specs.Ordering.{as_partial_cmp};
ghost use Rattle.remembering_store.specs.ReferenceKeys.{is_same_reference, reference_cmp, same_reference_equiv, reference_cmp_total, reference_cmp_ties};

use ach_fields::Ref;
use std::cmp::Ordering;

/// A submission's reference, ordered by its bytes.
#[derive(Clone, Copy, Drop)]
pub(crate) struct ReferenceKey {
    pub(crate) reference: Ref,
}

impl PartialEq for ReferenceKey {
    ghost eq = { is_same_reference };

    ghost laws = { partial_equiv_from_equiv same_reference_equiv };

    fn eq(&self, other: &ReferenceKey) -> bool {
        self.reference.bytes() == other.reference.bytes()
    }
}

impl Eq for ReferenceKey {
    ghost laws = { same_reference_equiv };
}

impl PartialOrd for ReferenceKey {
    ghost partial_cmp = { as_partial_cmp reference_cmp };

    ghost laws = { partial_order_from_agreeing_total reference_cmp reference_cmp_total (λ x y. refl) reference_cmp_ties };

    fn partial_cmp(&self, other: &ReferenceKey) -> Option<Ordering> {
        Some(self.cmp(other))
    }
}

impl Ord for ReferenceKey {
    ghost cmp = { reference_cmp };

    ghost total = { reference_cmp_total };

    ghost matches_partial_cmp = { λ x y. refl };

    ghost matches_eq = { reference_cmp_ties };

    fn cmp(&self, other: &ReferenceKey) -> Ordering {
        self.reference.bytes().cmp(other.reference.bytes())
    }
}
