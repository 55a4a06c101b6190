ghost use Rattle.std.specs.Prelude.{◌≡◌};
ghost use Rattle.desk_plan.specs.Reuse.{is_past};

use bank_days::Day;

/// The days after which a sequence may be used again.
const DAYS: i64 = 366;

/// May sequences be used on a day, by the latest day on which the youngest entries that have them
/// settled, or `None` where no entry has one?
///
/// They may where that was at least 366 days before: the desk's own rule, for the format has seven
/// digits for a sequence and does not say when they may come again. A trace names the youngest entry
/// that has its sequence.
pub fn is_past(day: Day, settled: Option<Day>) -> bool
    ensures { result ≡ is_past day settled }
{
    match settled {
        None => true,
        Some(settled) => settled.number() + DAYS <= day.number(),
    }
}
