//! A bank's days in messages: one session answers the files of `examples/bank_day` in their order, and the
//! answers have to be `answers.txt`, byte for byte.
use cli_commands::answer_messages;
use std::{fs, io};

/// The files of messages, in the order in which they are sent.
const FILES: [&str; 17] = [
    "01_holidays",
    "02_company",
    "03_day",
    "04_pay_run",
    "05_cut",
    "06_file",
    "07_collection",
    "08_next_day",
    "09_next_cut",
    "10_day_of_return",
    "11_returns_file",
    "12_look_up",
    "13_returns",
    "14_statement",
    "15_settlement",
    "16_status",
    "17_companies",
];

/// Prints how many messages are answered as they have to be, or the answers if they differ.
pub(crate) fn compare(rt: &HostRuntime) -> io::Result<()> {
    let messages = all_messages(rt)?;
    let mut answers = Vec::new(rt.alloc());
    let _status = answer_messages(rt.alloc(), &mut messages.as_slice(), &mut answers);
    if answers == fs::read(rt, "examples/bank_day/answers.txt")? {
        let count = FILES.len();
        return println!(rt; "examples/bank_day: {count} messages are answered as answers.txt says");
    }
    let given = String::from_utf8_lossy(rt.alloc(), answers.as_slice())?;
    println!(rt; "the answers to examples/bank_day are not those of answers.txt:\n{given}")
}

fn all_messages(rt: &HostRuntime) -> io::Result<Vec<u8>> {
    let mut messages = Vec::new(rt.alloc());
    for name in FILES {
        let path = format!(in rt.alloc(); "examples/bank_day/{name}.http")?;
        messages.extend_from_slice(fs::read(rt, path.as_str())?.as_slice())?;
    }
    Ok(messages)
}
