//! Several tests take these bodies, and look at the outcome of a run over one.
mod bodies;
mod commands;
mod desks;
mod failing;
mod files;
mod in_memory;
mod kept;
mod large;
pub(crate) mod lists;
mod messages;
mod served;
mod words;

use desk_cli::{Command, Status, first_run, run, run_words};
use std::alloc::Global;
use std::io::Write;

/// A credit of 1500.00 to a checking account.
pub(crate) const PAY_1: &[u8] =
    b"{\"ref\":\"PAY-1\",\"sec\":\"PPD\",\"direction\":\"credit\",\"description\":\"PAYROLL\",\"day\":\"2025-01-10\",\"entries\":[{\"routing\":\"091000019\",\"account\":\"123456789\",\"kind\":\"checking\",\"cents\":150000,\"id\":\"E1\",\"name\":\"ANN LEE\"}]}";

/// Its answer.
pub(crate) const PAY_1_LINE: &str =
    "{\"cents\":150000,\"entries\":1,\"order\":1,\"ref\":\"PAY-1\"}\n";

/// A submission as far as its entries.
const PREFIX: &str =
    "{\"ref\":\"P\",\"sec\":\"CCD\",\"direction\":\"debit\",\"description\":\"DUES\",\"day\":\"2024-02-29\",\"entries\":[";

/// Nothing is read by a command that reads no input.
const NOBODY: &[u8] = b"";

// Does a run over this body end so, and print this line?
fn answers(alloc: Global, body: &[u8], status: Status, line: &str) -> bool {
    let mut body = body;
    let mut output = Vec::new(alloc);
    let ended = first_run(alloc, &mut body, &mut output);
    ended == status && output.as_slice() == line.as_bytes()
}

// These two have no clause, and they alone name the calls: what those promise is long, and no test carries it.

fn carry_out<W: Write>(
    rt: &HostRuntime,
    command: &Command<'_>,
    input: &[u8],
    writer: &mut W,
) -> Status {
    let mut input = input;
    run(rt, command, &mut input, writer)
}

fn carry_out_words(rt: &HostRuntime, words: &[&str], input: &[u8], output: &mut Vec<u8>) -> u8 {
    let mut input = input;
    run_words(rt, words, &mut input, output)
}

// Is the command carried out over this input so, and is this printed?
fn prints(
    rt: &HostRuntime,
    command: &Command<'_>,
    input: &[u8],
    status: Status,
    text: &[u8],
) -> bool {
    let mut printed = Vec::new(rt.alloc());
    let ended = carry_out(rt, command, input, &mut printed);
    ended == status && printed.as_slice() == text
}
