//! The tries that a run has left.
ghost use Rattle.std.specs.Prelude.{◌≡◌, ◌≢◌, ◌+◌, ◌↔◌, Err, IsOk, IfErr, OnOk, OnErr};
ghost use Rattle.std.specs.IoError.{error_kind};
ghost use Rattle.io_retries.specs.Tries.{IsUnused, IsMadeAgain};

use std::io;
use std::io::ErrorKind;

/// How many interrupted calls are made again in a run.
pub const MOST_TRIES: u32 = 1_000;

/// The tries that a run has left. They cannot be copied, so that no run has more.
#[derive(Drop)]
pub struct Tries {
    left: u32,
}

impl Tries {
    /// Gives a new run its 1,000 tries.
    pub fn new() -> Tries
        ensures { IsUnused result }
    {
        Tries { left: MOST_TRIES }
    }

    /// Takes a try for a call that was interrupted. If the call failed otherwise, or no try is left,
    /// returns the error; it is no interruption, so that no caller makes the call again.
    pub(crate) fn spend(&mut self, error: io::Error) -> io::Result<()>
        ensures interrupted { IsOk result ↔ IsMadeAgain error self.old.left }
        ensures spent { OnOk result (self.new.left + 1 ≡ self.old.left) }
        ensures kept { OnErr result (self.new.left ≡ self.old.left) }
        ensures failed { IfErr result (λ e. error_kind e ≢ ErrorKind.Interrupted) }
        ensures none_left { OnErr result (error_kind error ≡ ErrorKind.Interrupted → self.new.left ≡ 0) }
        ensures same { error_kind error ≢ ErrorKind.Interrupted → result ≡ Err error }
    {
        if error.kind() != ErrorKind::Interrupted {
            return Err(error);
        }
        if self.left == 0 {
            return Err(io::Error::from(ErrorKind::TimedOut));
        }
        self.left -= 1;
        Ok(())
    }
}
