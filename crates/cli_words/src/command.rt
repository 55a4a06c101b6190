//! The command that words name.
ghost use Rattle.std.specs.Prelude.{◌≡◌, map};
ghost use Rattle.clap.specs.Words.{fault_of, found_of, kind_of, rows_of};
ghost use Rattle.cli_submit.specs.Options.{texts_of};
ghost use Rattle.cli_words.specs.Arguments.{program_app};
ghost use Rattle.cli_words.specs.CommandLine.{GivesAt, GivesBy, GivesIn, IsFaultAmong, IsFaultOf, NamesNone, check, options_in, submit};
ghost use Rattle.cli_words.specs.SyncWords.{syncs_of};

use crate::file_commands::{init_command, migrate_command, serve_command, stdio_command};
use crate::given_values::argument_text;
use crate::help_words::help_topic;
use crate::init_options::InitOptions;
use crate::plain_arguments::{check_matches, submit_matches};
use crate::program_arguments::program_matches;
use crate::serve_options::ServeOptions;
use crate::syncs::Syncs;
use clap::error::ErrorKind;
use clap::{ArgMatches, Error};
use cli_submit::SubmitOptions;
use std::alloc::Global;

/// A command of the program.
#[derive(Clone, Copy, Debug, PartialEq, Eq, Drop)]
pub enum Command<'a> {
    /// The program answers one submission body.
    AnswerSubmission,
    /// The program checks the incoming file at this path.
    Check(&'a str),
    /// Prints the message that submits the list of entries at this path, with these options.
    Submit(&'a str, SubmitOptions<'a>),
    /// The program answers the messages of one session, by a new desk of the sample bank.
    AnswerMessages,
    /// The program answers the messages of one session, by the desk in the file at this path, which
    /// syncs so often.
    AnswerByFile(&'a str, Syncs),
    /// The program makes a new desk in the file at this path, with these options.
    Init(&'a str, InitOptions<'a>),
    /// The program answers the messages of connections, by the desk in the file at this path, with
    /// these options.
    Serve(&'a str, ServeOptions),
    /// The program brings the desk in the file at this path to the tables of today.
    Migrate(&'a str),
}

impl Command<'_> {
    /// Returns how often a commit of the command syncs: as its option says, and twice for a command that
    /// has no such option.
    pub fn syncs(&self) -> Syncs
        ensures { result ≡ syncs_of self.now }
    {
        match *self {
            Command::AnswerByFile(_, syncs) => syncs,
            Command::Serve(_, options) => options.syncs,
            _ => Syncs::Twice,
        }
    }
}

/// A fault says why the words name no command.
#[derive(Debug, Drop)]
pub enum LineFault {
    /// The words ask for help, which is this text.
    Help(String),
    /// The words ask for the version.
    Version,
    /// The words do not name a command; the text says why.
    Usage(String),
    /// The program is out of memory.
    NoMemory,
}

/// Reads the words after the program's name as a command.
///
/// No words ask for the answer to a submission. `help COMMAND` is read as `COMMAND --help`. Else the
/// first word names a command, and the words after it are read by the rules that `clap` has for that
/// command's arguments.
pub fn command_of<'a>(alloc: Global, words: &'a [&'a str]) -> Result<Command<'a>, LineFault>
    ensures { GivesAt (map (λ w. w.now) words.now) result }
{
    match help_topic(words) {
        Some(name) => Err(help_fault(alloc, &[name, "--help"])),
        None => command_by_name(alloc, words),
    }
}

// Returns the fault of words that do not name a command.
fn help_fault(alloc: Global, words: &[&str]) -> LineFault
    requires { NamesNone (map (λ w. w.now) words.now) }
    ensures { GivesBy (map (λ w. w.now) words.now) (Err result) }
{
    match command_by_name(alloc, words) {
        Ok(_) => LineFault::Usage(String::new(alloc)),
        Err(fault) => fault,
    }
}

// Reads words without change.
fn command_by_name<'a>(alloc: Global, words: &'a [&'a str]) -> Result<Command<'a>, LineFault>
    ensures { GivesBy (map (λ w. w.now) words.now) result }
{
    let Some(name) = words.first() else {
        return Ok(Command::AnswerSubmission);
    };
    match *name {
        "check" => check_command(alloc, words),
        "submit" => submit_command(alloc, words),
        "stdio" => stdio_command(alloc, words),
        "init" => init_command(alloc, words),
        "serve" => serve_command(alloc, words),
        "migrate" => migrate_command(alloc, words),
        _ => Err(unknown_command_fault(alloc, words)),
    }
}

fn check_command<'a>(alloc: Global, words: &'a [&'a str]) -> Result<Command<'a>, LineFault>
    ensures { GivesIn check (map (λ w. w.now) words.now) result }
{
    match check_matches(alloc, words) {
        Ok(matches) => Ok(Command::Check(argument_text(&matches, "FILE"))),
        Err(error) => Err(line_fault(alloc, &error)),
    }
}

fn submit_command<'a>(alloc: Global, words: &'a [&'a str]) -> Result<Command<'a>, LineFault>
    ensures { GivesIn submit (map (λ w. w.now) words.now) result }
{
    match submit_matches(alloc, words) {
        Ok(matches) => {
            let list = argument_text(&matches, "FILE");
            Ok(Command::Submit(list, submit_options(&matches)))
        }
        Err(error) => Err(line_fault(alloc, &error)),
    }
}

fn submit_options<'a>(matches: &ArgMatches<'a>) -> SubmitOptions<'a>
    ensures { texts_of result ≡ options_in (rows_of (found_of matches.now)) }
{
    SubmitOptions {
        company: argument_text(matches, "COMPANY"),
        key: argument_text(matches, "KEY"),
        reference: argument_text(matches, "REF"),
        sec: argument_text(matches, "SEC"),
        direction: argument_text(matches, "DIRECTION"),
        description: argument_text(matches, "TEXT"),
        day: argument_text(matches, "DAY"),
    }
}

/// Gives `clap`'s error as a fault.
pub fn line_fault(alloc: Global, error: &Error) -> LineFault
    ensures { IsFaultOf (kind_of error.now) result }
{
    if error.kind() == ErrorKind::OutOfMemory {
        return LineFault::NoMemory;
    }
    let Ok(text) = format!(in alloc; "{error}") else {
        return LineFault::NoMemory;
    };
    match error.kind() {
        ErrorKind::DisplayHelp => LineFault::Help(text),
        ErrorKind::DisplayVersion => LineFault::Version,
        _ => LineFault::Usage(text),
    }
}

// `clap`'s help or usage where the first word names no command.
fn unknown_command_fault(alloc: Global, words: &[&str]) -> LineFault
    ensures { IsFaultAmong (fault_of program_app (map (λ w. w.now) words.now)) result }
{
    match program_matches(alloc, words) {
        Ok(_) => LineFault::Usage(String::new(alloc)),
        Err(error) => line_fault(alloc, &error),
    }
}
