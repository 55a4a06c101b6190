//! Transcripts: commands of the program `achdesk` that need no desk's file, each with what it prints.
use cli_commands::{answer_messages, check_file, first_run, submit_list};
use cli_words::{Command, command_of};
use std::alloc::AllocError;
use std::fs::File;
use std::{fs, io};

/// The transcript that has the commands of this one: each line that begins with `$ `, and what that
/// command prints.
pub(crate) fn transcript(rt: &HostRuntime, text: &str) -> io::Result<Vec<u8>> {
    let mut written = Vec::new(rt.alloc());
    for line in text.lines() {
        if let Some(command) = line.strip_prefix("$ ") {
            written.extend_from_slice(line.as_bytes())?;
            written.push(b'\n')?;
            let printed = carry_out(rt, command)?;
            add_lines(&mut written, printed.as_slice())?;
        }
    }
    Ok(written)
}

/// Adds the lines of a text, as a page shows them: each ends with a line feed alone.
pub(crate) fn add_lines(written: &mut Vec<u8>, text: &[u8]) -> Result<(), AllocError> {
    for line in str::from_utf8(text).unwrap_or("no UTF-8").lines() {
        written.extend_from_slice(line.as_bytes())?;
        written.push(b'\n')?;
    }
    Ok(())
}

fn carry_out(rt: &HostRuntime, command: &str) -> io::Result<Vec<u8>> {
    if let Some(path) = command.strip_prefix("./achdesk < ") {
        let body = fs::read(rt, path)?;
        run_over(rt, "", body.as_slice())
    } else if let Some(words) = command.strip_prefix("./achdesk ") {
        run_over(rt, words, b"")
    } else if let Some((paths, words)) = session_parts(command) {
        let messages = joined_messages(rt, paths, words)?;
        run_over(rt, "stdio", messages.as_slice())
    } else {
        run_over(rt, "", echo_text(command).unwrap_or("").as_bytes())
    }
}

// What the program prints that is run with these words over this input; nothing where it would need a desk's
// file, or is told something else.
fn run_over(rt: &HostRuntime, line: &str, input: &[u8]) -> io::Result<Vec<u8>> {
    let mut words = Vec::new(rt.alloc());
    for word in line.split(' ').filter(|word| !word.is_empty()) {
        words.push(word)?;
    }
    let mut input = input;
    let mut printed = Vec::new(rt.alloc());
    let _status = match command_of(rt.alloc(), words.as_slice()) {
        Ok(Command::AnswerSubmission) => Some(first_run(rt.alloc(), &mut input, &mut printed)),
        Ok(Command::AnswerMessages) => Some(answer_messages(rt.alloc(), &mut input, &mut printed)),
        Ok(Command::Check(path)) => {
            let mut file = File::open(rt, path)?;
            Some(check_file(rt.alloc(), &mut file, &mut printed))
        }
        Ok(Command::Submit(path, options)) => {
            let mut list = File::open(rt, path)?;
            Some(submit_list(rt.alloc(), &options, &mut list, &mut printed))
        }
        Ok(_) | Err(_) => None,
    };
    Ok(printed)
}

// The files and the words of `(cat FILE ..; ./achdesk WORD ..) | ./achdesk stdio`.
fn session_parts(command: &str) -> Option<(&str, &str)> {
    command
        .strip_prefix("(cat ")?
        .strip_suffix(") | ./achdesk stdio")?
        .split_once("; ./achdesk ")
}

// What the files have, and then what the program prints that is run with these words.
fn joined_messages(rt: &HostRuntime, paths: &str, words: &str) -> io::Result<Vec<u8>> {
    let mut messages = Vec::new(rt.alloc());
    for path in paths.split(' ') {
        messages.extend_from_slice(fs::read(rt, path)?.as_slice())?;
    }
    let printed = run_over(rt, words, b"")?;
    messages.extend_from_slice(printed.as_slice())?;
    Ok(messages)
}

// What `echo` hands to the program.
fn echo_text(command: &str) -> Option<&str> {
    command
        .strip_prefix("echo '")?
        .strip_suffix("' | ./achdesk")
}
