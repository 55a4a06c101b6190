//! Which calls of a database's files fail.
use super::full::Room;

/// Which calls of a file fail: all after the first `calls`, and those that find no room.
#[derive(Clone, Copy)]
pub(super) struct Limits {
    pub calls: u64,
    pub room: Room,
}

// Each call is passed on.
const NO_LIMITS: Limits = Limits {
    calls: u64::MAX,
    room: Room {
        writes: u64::MAX,
        refusals: 0,
    },
};

/// The limits of both files of a database.
#[derive(Clone, Copy)]
pub(super) struct Both {
    pub log: Limits,
    pub db: Limits,
}

impl Both {
    pub(super) const NONE: Both = Both {
        log: NO_LIMITS,
        db: NO_LIMITS,
    };
}

/// One of the two files of a database.
#[derive(Clone, Copy)]
pub(super) enum Which {
    Log,
    Db,
}

/// The calls that fail.
#[derive(Clone, Copy)]
pub(super) enum Harm {
    /// Its machine stops after a number of calls.
    Stops,
    /// After a number of writes, this many find no room.
    HasNoRoom(u64),
}

/// The limits of a file that passes this many calls, or writes, and then fails. The other file has
/// none.
pub(super) fn limits_of(which: Which, harm: Harm, number: u64) -> Both {
    let mut limits = NO_LIMITS;
    match harm {
        Harm::Stops => limits.calls = number,
        Harm::HasNoRoom(refusals) => {
            limits.room = Room {
                writes: number,
                refusals,
            }
        }
    }
    let mut both = Both::NONE;
    match which {
        Which::Log => both.log = limits,
        Which::Db => both.db = limits,
    }
    both
}
