ghost use Rattle.std.specs.Prelude.{◌≡◌};

/// The reason why 94 bytes are not a record. Positions are counted from 1.
///
/// Bytes are checked first, then the type, then the digits; each fault is at the first position.
#[derive(Clone, Copy, Debug, PartialEq, Eq)]
pub enum RecordFault {
    /// The first character is not 1, 5, 6, 7, 8 or 9.
    BadType,
    /// The type of a 7 is not 05, 98 or 99.
    BadAddendaType,
    /// A digit field has another character at this position.
    BadNumber(u8),
    /// The byte at this position is outside blank to `~`.
    BadByte(u8),
}

impl RecordFault {
    ghost use Rattle.ach_records.specs.FaultNumbers.{number_of};

    /// Gives the number of the fault.
    pub fn number(self) -> u8
        ensures { result ≡ number_of self }
    {
        match self {
            RecordFault::BadType => 1,
            RecordFault::BadAddendaType => 2,
            RecordFault::BadNumber(_) => 3,
            RecordFault::BadByte(_) => 4,
        }
    }
}
