ghost use Rattle.std.specs.Prelude.{◌≡◌};
ghost use Rattle.desk_rules.specs.TimeClasses.{time_class_of};

use crate::ReturnCode;

/// The time after settlement within which a receiving bank (the RDFI) may return an entry, by the
/// code of its return.
#[derive(Clone, Copy, Debug, PartialEq, Eq, Drop)]
pub enum TimeClass {
    /// It may until the second banking day.
    TwoBankingDays,
    /// It may until the first banking day after the sixtieth day (an extended return).
    SixtyDays,
    /// It may at any time.
    Unlimited,
}

impl ReturnCode {
    /// Returns the time class of the code. Codes of an unauthorized or revoked debit have sixty
    /// days (R05, R07, R10, R11); codes that report a faulty file, a refused credit or a permitted
    /// return have no limit (R06, R13, R18, R19, R23, R25 to R28); all others have two banking
    /// days.
    pub fn time_class(self) -> TimeClass
        ensures { result ≡ time_class_of self }
    {
        match self.number() {
            5 | 7 | 10 | 11 => TimeClass::SixtyDays,
            6 | 13 | 18 | 19 | 23 | 25 | 26 | 27 | 28 => TimeClass::Unlimited,
            _ => TimeClass::TwoBankingDays,
        }
    }
}
