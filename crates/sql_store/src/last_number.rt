//! The number of the last sent entry, and the place of the next.
ghost use Rattle.std.specs.Prelude.{◌≡◌, ◌+◌, IfOk, option_map, unwrap_or};

use desk_store::{LastNumber, StoreFault};
use sql_tables::NumberRecord;

/// Gives the number of the last sent entry; its sequence and its place are 0 before the first.
pub(crate) fn number_of(last: Option<NumberRecord>) -> LastNumber
    ensures sequence { result.sequence ≡ unwrap_or (option_map (λ n. n.sequence) last) 0 }
    ensures place { result.place ≡ unwrap_or (option_map (λ n. n.place) last) 0 }
{
    match last {
        Some(number) => LastNumber {
            sequence: number.sequence,
            place: number.place,
        },
        None => LastNumber {
            sequence: 0,
            place: 0,
        },
    }
}

/// Gives the place of the next entry after so many. `Unavailable` says that there are no more places.
pub(crate) fn place_after(before: u64) -> Result<u64, StoreFault>
    ensures { IfOk result (λ place. place ≡ before + 1) }
{
    match before.checked_add(1) {
        Some(place) => Ok(place),
        None => Err(StoreFault::Unavailable),
    }
}
