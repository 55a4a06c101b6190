//! Why no message is made.
ghost use Rattle.std.specs.Prelude.{◌≡◌, IfOk, string_bytes};
ghost use Rattle.cli_submit.specs.FaultLines.{fault_line, row_fault_line, name_of};

use std::alloc::{AllocError, Global};

/// The reason why a row is not an entry.
#[derive(Clone, Copy, Debug, PartialEq, Eq)]
pub enum RowFault {
    /// The row has not eight fields, or is not UTF-8.
    BadRow,
    /// Its cents are not 1 to 18 digits.
    BadCents,
    /// Its prenote is neither `yes` nor empty.
    BadPrenote,
}

impl RowFault {
    /// Gives the words that a line has for it, such as `bad cents`.
    pub fn name(self) -> &'static str
        ensures { result.now ≡ name_of self }
    {
        match self {
            RowFault::BadRow => "bad row",
            RowFault::BadCents => "bad cents",
            RowFault::BadPrenote => "bad prenote",
        }
    }
}

/// An input fault says why the options and the list of entries make no message.
#[derive(Clone, Copy, Debug, PartialEq, Eq)]
pub enum InputFault {
    /// The company is not an identification.
    BadCompany,
    /// A company may not have this key.
    BadKey,
    /// The list has more than 4,194,304 bytes.
    TooLarge,
    /// The first row does not name the eight columns.
    BadHeader,
    /// The row with this number, counted from 1 after the header, is not an entry.
    Row(u64, RowFault),
}

impl InputFault {
    /// Returns the printed line, without its end: `bad company`, `bad key`, `too large`, `bad
    /// header`, or for a row as `row 3: bad cents`.
    pub fn line(self, alloc: Global) -> Result<String, AllocError>
        ensures { IfOk result (λ line. string_bytes line ≡ fault_line self) }
    {
        match self {
            InputFault::BadCompany => String::from_str(alloc, "bad company"),
            InputFault::BadKey => String::from_str(alloc, "bad key"),
            InputFault::TooLarge => String::from_str(alloc, "too large"),
            InputFault::BadHeader => String::from_str(alloc, "bad header"),
            InputFault::Row(number, fault) => row_fault_line(alloc, number, fault),
        }
    }
}

fn row_fault_line(alloc: Global, number: u64, fault: RowFault) -> Result<String, AllocError>
    ensures { IfOk result (λ line. string_bytes line ≡ row_fault_line number fault) }
{
    let name = fault.name();
    format!(in alloc; "row {number}: {name}")
}

/// A submit fault says why a call gave no message.
#[derive(Clone, Copy, Debug, PartialEq, Eq)]
pub enum SubmitFault {
    /// The options and the list make none.
    Input(InputFault),
    /// The call ran out of memory.
    NoMemory,
}

impl From<AllocError> for SubmitFault {
    ghost use Rattle.cli_submit.specs.declared.fault.SubmitFault.TheVariants.{NoMemory};

    ghost from_gives = { λ error fault. fault ≡ NoMemory };

    fn from(_error: AllocError) -> SubmitFault {
        SubmitFault::NoMemory
    }
}
