//! The ACH desk of an originating bank: the program.
#![tactic(auto)]

use std::process::ExitCode;

fn main(rt: HostRuntime) -> ExitCode {
    ExitCode::from(desk_cli::run_program(&rt))
}
