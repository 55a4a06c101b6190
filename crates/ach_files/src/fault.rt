//! The faults of a file.
ghost use Rattle.std.specs.Prelude.{◌≡◌};

/// The kind of a file's fault. Of several at one place the first in this order is returned.
#[derive(Clone, Copy, Debug, PartialEq, Eq, Drop)]
pub enum FileFault {
    /// There is a byte after the first 4,194,304.
    TooLarge = 1,
    /// A record ends early, by a CR, an LF or the end of the input, or something else than CR and LF
    /// follows the last one.
    BadLength = 2,
    /// Records may not have this character.
    BadByte = 3,
    /// The record may not follow those before it, or the input ends before the file control.
    BadOrder = 4,
    /// A field that holds a number has other characters than digits.
    BadNumber = 5,
    /// The entry is neither a return nor a change.
    ForwardEntry = 6,
    /// An addenda is missing, one too many, of another type, or a change of an entry with an amount.
    BadAddenda = 7,
    /// A control says another number of batches or of entries and addenda.
    BadCount = 8,
    /// A control says another entry hash.
    BadHash = 9,
    /// A control says other total debits or credits.
    BadTotal = 10,
    /// The file control says another number of blocks.
    BadBlock = 11,
    /// Memory ran out. Its record number is 0.
    NoMemory = 12,
    /// The reader has already returned a fault or the file. Its record number is 0.
    Failed = 13,
}

/// A fault, and the number of its record, from 1; 0 if it belongs to no record.
#[derive(Clone, Copy, Debug, PartialEq, Eq, Drop)]
pub struct Fault {
    pub kind: FileFault,
    pub at: u32,
}

impl FileFault {
    ghost use Rattle.ach_files.specs.FaultNames.{name_of};
    ghost use Rattle.ach_files.specs.FaultNumbers.{number_of};

    /// Gives the number of the fault.
    pub fn number(self) -> u8
        ensures { result ≡ number_of self }
    {
        self as u8
    }

    /// Gives the name of the fault.
    pub fn name(self) -> &'static str
        ensures { result.now ≡ name_of self }
    {
        match self {
            FileFault::TooLarge => "TooLarge",
            FileFault::BadLength => "BadLength",
            FileFault::BadByte => "BadByte",
            FileFault::BadOrder => "BadOrder",
            FileFault::BadNumber => "BadNumber",
            FileFault::ForwardEntry => "ForwardEntry",
            FileFault::BadAddenda => "BadAddenda",
            FileFault::BadCount => "BadCount",
            FileFault::BadHash => "BadHash",
            FileFault::BadTotal => "BadTotal",
            FileFault::BadBlock => "BadBlock",
            FileFault::NoMemory => "NoMemory",
            FileFault::Failed => "Failed",
        }
    }
}
