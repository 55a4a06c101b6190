ghost use Rattle.std.specs.Prelude.{◌≡◌};

/// A `FieldFault` says why a field is refused.
#[derive(Clone, Copy, Debug, PartialEq, Eq, Drop)]
pub enum FieldFault {
    /// A digit is wanted and another character was found, or digits are missing.
    NotDigit = 1,
    /// The field may not have one of its characters, or the text is too short.
    NotText = 2,
    /// There are more characters than the field has room for.
    TooLong = 3,
    /// The check digit does not complete the routing number.
    BadCheck = 4,
    /// The digits name no month or no day of a month.
    BadDate = 5,
}

impl FieldFault {
    ghost use Rattle.ach_fields.specs.FaultNumbers.{number_of};

    /// Gives the number of the fault.
    pub fn number(self) -> u8
        ensures { result ≡ number_of self }
    {
        self as u8
    }
}
