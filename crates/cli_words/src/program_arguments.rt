//! The names of the commands, by `clap`'s rules.
ghost use Rattle.std.specs.Prelude.{map, IfOk};
ghost use Rattle.clap.specs.Words.{app_of, fault_of, FailsBy};
ghost use Rattle.cli_words.specs.Arguments.{name_text, program_app, with_command, with_commands, IsApp};

use crate::desk_arguments::{ABOUT_INIT, ABOUT_MIGRATE, ABOUT_SERVE};
use crate::plain_arguments::{ABOUT_CHECK, ABOUT_STDIO, ABOUT_SUBMIT};
use crate::version_line::VERSION_LINE;
use clap::{ArgMatches, Command as ClapCommand, Error};
use std::alloc::{AllocError, Global};

/// The help says this of the program.
const ABOUT_PROGRAM: &str =
    "ACH desk of an originating bank.\n\nWithout a command, it reads a submission in JSON from standard input and prints the answer.";

/// The help and the usage say this of the words.
const USAGE_PROGRAM: &str = "achdesk < SUBMISSION\n       achdesk <COMMAND>";

/// The names of the commands, in the help's order, and what it says of them.
const COMMANDS: [(&str, &str); 6] = [
    ("check", ABOUT_CHECK),
    ("submit", ABOUT_SUBMIT),
    ("stdio", ABOUT_STDIO),
    ("init", ABOUT_INIT),
    ("serve", ABOUT_SERVE),
    ("migrate", ABOUT_MIGRATE),
];

/// Parses words that name no command. Its error has the help or the usage, with the names of all
/// commands.
pub fn program_matches<'a>(alloc: Global, words: &'a [&'a str]) -> Result<ArgMatches<'a>, Error>
    ensures { FailsBy (fault_of program_app (map (λ w. w.now) words.now)) result }
{
    let program = program_command(alloc)?;
    program.try_get_matches_from(words)
}

fn program_command<'a>(alloc: Global) -> Result<ClapCommand<'a>, AllocError>
    ensures { IfOk result (IsApp program_app) }
{
    let program = ClapCommand::new(alloc, "achdesk")
        .about(ABOUT_PROGRAM)
        .version(VERSION_LINE)
        .override_usage(USAGE_PROGRAM)
        .no_binary_name(true)
        .subcommand_required(true);
    add_commands(alloc, program, &COMMANDS)
}

/// Gives the program with the names of commands more, each with what the help says of it.
fn add_commands<'a>(
    alloc: Global,
    program: ClapCommand<'a>,
    commands: &[(&'static str, &'static str)],
) -> Result<ClapCommand<'a>, AllocError>
    ensures { IfOk result
        (IsApp (with_commands (app_of program.entry) (map name_text commands.now))) }
{
    let mut program = program;
    for command in commands {
        let (name, about) = *command;
        program = add_command(alloc, program, name, about)?;
    }
    Ok(program)
}

/// Gives the program with the name of a command more.
fn add_command<'a>(
    alloc: Global,
    program: ClapCommand<'a>,
    name: &'a str,
    about: &'a str,
) -> Result<ClapCommand<'a>, AllocError>
    ensures { IfOk result (IsApp (with_command (app_of program.entry) name.now)) }
{
    let command = ClapCommand::new(alloc, name).about(about);
    let program = program.subcommand(command)?;
    Ok(program)
}
