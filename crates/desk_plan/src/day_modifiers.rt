//! The modifiers of a day's files.
ghost use Rattle.std.specs.Prelude.{◌≡◌, ◌+◌, nat_le, if◌then◌else◌, Some, None};
ghost use Rattle.desk_plan.specs.Modifiers.{modifier_of, most_files};

/// The most files of a day: one for each modifier.
pub const MOST_FILES: u64 = 36;

/// These are the modifiers, in the order in which a day's files get them.
const MODIFIERS: &[u8; 36] = b"ABCDEFGHIJKLMNOPQRSTUVWXYZ0123456789";

/// Returns the modifier of a day's file, by the number of files before it on that day: `A` to `Z`,
/// then `0` to `9`, and `None` for a 37th. In the Nacha format it distinguishes the files of one
/// day.
#[tactic(auto, unfolding(crate::specs::Modifiers::modifiers))]
pub fn modifier(before: u32) -> Option<u8>
    ensures { result ≡ modifier_of before }
{
    MODIFIERS.get(before as usize).copied()
}

/// Returns the number of files that a day already has, if it has modifiers left for `count` more.
pub fn made_before(made: u64, count: usize) -> Option<u32>
    ensures { result ≡ (if nat_le (made + count) most_files then Some made else None) }
{
    match made.checked_add(count as u64) {
        Some(all) if all <= MOST_FILES => Some(made as u32),
        _ => None,
    }
}
