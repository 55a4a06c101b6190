//! The arguments of the commands that need no desk's file, by `clap`'s rules, and how a command gets
//! an argument or an option.
ghost use Rattle.std.specs.Prelude.{map, IfOk};
ghost use Rattle.clap.specs.Words.{app_of, new_app, with_rule};
ghost use Rattle.cli_words.specs.Arguments.{check_app, option_texts, required_argument, required_option, stdio_app, submit_app, with_options, IsApp};
ghost use Rattle.cli_words.specs.CommandLine.{Parses};

use crate::sync_arguments::sync_option;
use clap::{Arg, ArgAction, ArgMatches, Command as ClapCommand, Error};
use std::alloc::{AllocError, Global};

/// The help says this of `check`.
pub const ABOUT_CHECK: &str = "Checks an incoming ACH file and counts its returns and changes";

/// The help says this of `submit`.
pub const ABOUT_SUBMIT: &str =
    "Prints the HTTP request that submits a list of entries, or the list's first fault";

/// The help says this of `stdio`.
pub const ABOUT_STDIO: &str =
    "Answers HTTP/1.1 requests on standard input, from a desk's file or a sample desk in memory";

/// The help says this of the arguments of `submit`.
const HELP_LIST: &str =
    "Path of the list: CSV with the header routing,account,kind,prenote,cents,id,name,info";

const HELP_COMPANY: &str = "Identification of the company: 1 to 10 of A-Z and 0-9";

const HELP_KEY: &str = "Key of the company: 8 to 64 characters, no spaces";

const HELP_REFERENCE: &str =
    "The company's reference for the submission: 1 to 20 of A-Z, a-z, 0-9, '-', '_' and '.'";

const HELP_DIRECTION: &str = "credit to pay the receivers, debit to collect from them";

const HELP_DESCRIPTION: &str = "Purpose of the entries, which receivers see: 1 to 10 characters";

const HELP_DAY: &str = "Requested settlement day, as in 2025-01-10: 2000-01-01 to 2099-12-31";

/// The help says this below the options of a command that have to be there.
pub const HELP_REQUIRED: &str = "All options are required.";

/// The help says this of the argument of `stdio`.
const HELP_DESK_OR_NONE: &str =
    "Path of the desk's database file [default: none, a sample desk in memory]";

/// The options of `submit`, as `add_options` takes them.
const SUBMIT_OPTIONS: [(&str, &str, &str); 7] = [
    ("COMPANY", "company", HELP_COMPANY),
    ("KEY", "key", HELP_KEY),
    ("REF", "ref", HELP_REFERENCE),
    ("SEC", "sec", "SEC code of the entries: PPD or CCD"),
    ("DIRECTION", "direction", HELP_DIRECTION),
    ("TEXT", "description", HELP_DESCRIPTION),
    ("DAY", "day", HELP_DAY),
];

/// Parses the words of `check FILE`.
pub fn check_matches<'a>(alloc: Global, words: &'a [&'a str]) -> Result<ArgMatches<'a>, Error>
    ensures { Parses check_app (map (λ w. w.now) words.now) result }
{
    let command = check_command(alloc)?;
    command.try_get_matches_from(words)
}

/// Parses the words of `submit FILE` with its options.
pub fn submit_matches<'a>(alloc: Global, words: &'a [&'a str]) -> Result<ArgMatches<'a>, Error>
    ensures { Parses submit_app (map (λ w. w.now) words.now) result }
{
    let command = submit_command(alloc)?;
    command.try_get_matches_from(words)
}

/// Parses the words of `stdio [DB]` with its option.
pub fn stdio_matches<'a>(alloc: Global, words: &'a [&'a str]) -> Result<ArgMatches<'a>, Error>
    ensures { Parses stdio_app (map (λ w. w.now) words.now) result }
{
    let command = stdio_command(alloc)?;
    command.try_get_matches_from(words)
}

fn check_command<'a>(alloc: Global) -> Result<ClapCommand<'a>, AllocError>
    ensures { IfOk result (IsApp check_app) }
{
    let command = new_command(alloc, "achdesk check", ABOUT_CHECK)?;
    add_argument(alloc, command, "FILE", "Path of the file")
}

fn stdio_command<'a>(alloc: Global) -> Result<ClapCommand<'a>, AllocError>
    ensures { IfOk result (IsApp stdio_app) }
{
    let command = new_command(alloc, "achdesk stdio", ABOUT_STDIO)?;
    let path = Arg::new(alloc, "DB")
        .action(ArgAction::Set)
        .help(HELP_DESK_OR_NONE);
    let command = command.arg(path)?;
    let command = command.arg(sync_option(alloc))?;
    Ok(command)
}

fn submit_command<'a>(alloc: Global) -> Result<ClapCommand<'a>, AllocError>
    ensures { IfOk result (IsApp submit_app) }
{
    let command = new_command(alloc, "achdesk submit", ABOUT_SUBMIT)?;
    let command = add_argument(alloc, command, "FILE", HELP_LIST)?;
    add_options(alloc, command.after_help(HELP_REQUIRED), &SUBMIT_OPTIONS)
}

/// Returns a command with its name and its line in the help. It has no arguments yet.
pub fn new_command<'a>(
    alloc: Global,
    name: &'a str,
    about: &'a str,
) -> Result<ClapCommand<'a>, AllocError>
    ensures { IfOk result (IsApp (new_app name.now)) }
{
    let command = ClapCommand::new(alloc, name).about(about).bin_name(name)?;
    Ok(command)
}

/// Gives the command with an argument more, which has to be there.
pub fn add_argument<'a>(
    alloc: Global,
    command: ClapCommand<'a>,
    id: &'a str,
    help: &'a str,
) -> Result<ClapCommand<'a>, AllocError>
    ensures { IfOk result (IsApp (with_rule (app_of command.entry) (required_argument id.now))) }
{
    let argument = Arg::new(alloc, id)
        .required(true)
        .action(ArgAction::Set)
        .help(help);
    let command = command.arg(argument)?;
    Ok(command)
}

/// Gives the command with an option more that has to be there, under a long name.
pub fn add_option<'a>(
    alloc: Global,
    command: ClapCommand<'a>,
    id: &'a str,
    name: &'a str,
    help: &'a str,
) -> Result<ClapCommand<'a>, AllocError>
    ensures { IfOk result
        (IsApp (with_rule (app_of command.entry) (required_option id.now name.now))) }
{
    let option = Arg::new(alloc, id)
        .long(name)
        .required(true)
        .action(ArgAction::Set)
        .help(help);
    let command = command.arg(option)?;
    Ok(command)
}

/// Gives the command with options more that have to be there, each with its identification, its long
/// name and what the help says of it.
pub fn add_options<'a>(
    alloc: Global,
    command: ClapCommand<'a>,
    options: &[(&'static str, &'static str, &'static str)],
) -> Result<ClapCommand<'a>, AllocError>
    ensures { IfOk result
        (IsApp (with_options (app_of command.entry) (map option_texts options.now))) }
{
    let mut command = command;
    for option in options {
        let (id, name, help) = *option;
        command = add_option(alloc, command, id, name, help)?;
    }
    Ok(command)
}
