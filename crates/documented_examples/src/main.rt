//! Runs the examples of the pages: the library answers each input, and the page has to show that answer below it.
//!
//! Copies of the pages are in data/, with their paths in the repository. For each page the program prints a line with
//! the number of examples that agree, and before it one for each that does not. The messages of
//! `examples/bank_day` are answered too, and compared with its answers.
#![tactic(auto)]

mod bank_day;
mod bodies;
mod commands;
mod files;
mod library;
mod page;
mod refusals;

use std::{fs, io};

const REFERENCE: &str = "docs/integrate/api.md";

const PAGES: [&str; 4] = [
    "README.md",
    REFERENCE,
    "docs/integrate/csv.md",
    "docs/operate/returns-files.md",
];

fn main(rt: HostRuntime) -> io::Result<()> {
    for name in PAGES {
        let text = fs::read_to_string(&rt, name)?;
        let agreed = page::compare(&rt, name, text.as_str())?;
        println!(rt; "{name}: {agreed} examples agree")?;
    }
    let text = fs::read_to_string(&rt, REFERENCE)?;
    let rows = refusals::count_rows(rt.alloc(), text.as_str())?;
    println!(rt; "{REFERENCE}: {rows} refusals are listed")?;
    bank_day::compare(&rt)?;
    let pay = fs::read(&rt, "examples/pay-1.json")?;
    library::show(&rt, pay.as_slice())
}
