//! The most that is kept of one company, and for how long.
ghost use Rattle.std.specs.Prelude.{◌≡◌};
ghost use Rattle.remembering_store.specs.Caps.{is_behind, standard_caps};

use bank_days::Day;

/// How many open submissions of a company are kept one by one, and how many debits in them. Of a company
/// with more, the sums alone are kept.
#[derive(Clone, Copy, Debug, Drop)]
pub struct Caps {
    /// The most submissions.
    pub submissions: usize,
    /// The most debits.
    pub debits: usize,
}

impl Caps {
    /// Returns the caps of the program's desks.
    pub fn standard() -> Caps
        ensures { result ≡ standard_caps }
    {
        Caps {
            submissions: 200_000,
            debits: 1_000_000,
        }
    }
}

/// The first open day can be at most this many days after the one on which a company was read.
const MOST_DAYS: i64 = 30;

/// Reports whether the first open day is more than 30 days after the one on which a company was read.
pub(crate) fn is_behind(since: Day, first: Day) -> bool
    ensures { result ≡ is_behind since first }
{
    first.number() > since.number() + MOST_DAYS
}
