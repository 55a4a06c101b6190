ghost use Rattle.std.specs.Prelude.{◌≡◌};

/// A `CalendarFault` says why a holiday list is refused. Rows count from 1.
#[derive(Clone, Copy, Debug, PartialEq, Eq)]
pub enum CalendarFault {
    /// The row is not a day `YYYY-MM-DD` of the years 2000 to 2099.
    BadRow(u32),
    /// The row's day is not after that of the row before.
    NotAscending(u32),
    /// There are more than 400 rows.
    TooMany,
    /// The reader is out of memory.
    NoMemory,
}

impl CalendarFault {
    ghost use Rattle.bank_days.specs.FaultNumbers.{number_of};

    /// Gives the number of the fault, from 1 to 4.
    pub fn number(self) -> u8
        ensures { result ≡ number_of self }
    {
        match self {
            CalendarFault::BadRow(_) => 1,
            CalendarFault::NotAscending(_) => 2,
            CalendarFault::TooMany => 3,
            CalendarFault::NoMemory => 4,
        }
    }
}
