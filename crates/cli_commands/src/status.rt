//! How a command ends.
ghost use Rattle.std.specs.Prelude.{◌≡◌};

/// How a command ended.
#[derive(Clone, Copy, Debug, PartialEq, Eq, Drop)]
pub enum Status {
    /// It did everything.
    Done,
    /// The input was refused, or had a fault.
    Refused,
    /// A read or a write failed, or the program was out of memory.
    Failed,
}

impl Status {
    ghost use Rattle.cli_commands.specs.ExitCodes.{code_of};

    /// Returns the exit status of the process: 0, 1 or 3. (2 is for wrong words.)
    pub fn code(self) -> u8
        ensures { result ≡ code_of self }
    {
        match self {
            Status::Done => 0,
            Status::Refused => 1,
            Status::Failed => 3,
        }
    }
}
