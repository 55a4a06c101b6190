//! These are worked cases, from a desk whose only holiday is 2025-01-20.
use bank_days::Calendar;
use desk_rules::ReturnCode;
use std::alloc::Global;
use std::process::Abort;

mod bodies;
mod exposures;
mod refusals;
mod retries;
mod returns;

fn calendar(rt: &(impl Abort + Alloc<A = Global>)) -> Calendar {
    Calendar::read(rt.alloc(), b"2025-01-20").expect(rt, "a holiday list")
}

fn code(rt: &impl Abort, text: &[u8; 3]) -> ReturnCode {
    ReturnCode::parse(text).expect(rt, "a code")
}
