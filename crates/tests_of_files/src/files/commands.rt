//! The commands of some days: a credit and a debit are sent, and the debit is returned.
use super::bank::{company, credit, day, debit, file_of_returns, holidays};
use desk_core::{Answer, Call, Desk, Store};
use std::alloc::Global;
use std::process::Abort;

/// The number of commands.
pub(super) const COMMANDS: usize = 10;

/// The submissions and the file among them, which may be repeated.
pub(super) const ACCEPTED: [usize; 3] = [3, 5, 9];

// The command with this number, from 0.
fn command(rt: &(impl Abort + Alloc<A = Global>), number: usize) -> Call {
    match number {
        0 => holidays(rt),
        1 => company(rt),
        2 => day(rt, "2025-01-08"),
        3 => credit(rt),
        4 => Call::Cut,
        5 => debit(rt),
        6 => day(rt, "2025-01-09"),
        7 => Call::Cut,
        8 => day(rt, "2025-01-14"),
        _ => file_of_returns(rt),
    }
}

/// Gives the command with this number. Is it done?
pub(crate) fn is_done<S: Store>(
    rt: &(impl Abort + Alloc<A = Global>),
    desk: &mut Desk<S>,
    number: usize,
) -> bool {
    matches!(
        desk.apply(rt.alloc(), command(rt, number)),
        Ok(Answer::Done(_))
    )
}

/// Gives the commands from this number on, until one is not answered. How many were answered, of all?
pub(super) fn give<S: Store>(
    rt: &(impl Abort + Alloc<A = Global>),
    desk: &mut Desk<S>,
    from: usize,
) -> usize {
    for number in from..COMMANDS {
        if desk.apply(rt.alloc(), command(rt, number)).is_err() {
            return number;
        }
    }
    COMMANDS
}
