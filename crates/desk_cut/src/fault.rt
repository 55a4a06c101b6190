ghost use Rattle.std.specs.Prelude.{◌≡◌};

use std::alloc::{AllocError, AllocFailed};

/// A `CutFault` says why a cut is not planned.
#[derive(Clone, Copy, Debug, PartialEq, Eq, Drop)]
pub enum CutFault {
    /// A batch would take a sequence that may not be used.
    TracesSpent,
    /// The day has no modifiers left for the files.
    ModifiersSpent,
    /// A submission would settle after 2100-01-31, the last day from which rules count.
    DaysSpent,
    /// The plan is out of memory.
    NoMemory,
}

impl From<AllocError> for CutFault {
    ghost use Rattle.desk_cut.specs.declared.fault.CutFault.TheVariants.{NoMemory};

    ghost from_gives = { λ _ e. e ≡ NoMemory };

    fn from(_error: AllocError) -> CutFault {
        CutFault::NoMemory
    }
}

impl<T: Drop> From<AllocFailed<T>> for CutFault {
    ghost use Rattle.desk_cut.specs.declared.fault.CutFault.TheVariants.{NoMemory};

    ghost from_gives = { λ _ e. e ≡ NoMemory };

    fn from(_error: AllocFailed<T>) -> CutFault {
        CutFault::NoMemory
    }
}
