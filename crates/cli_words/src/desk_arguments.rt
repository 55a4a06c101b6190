//! The arguments of the commands that take a desk's file, by `clap`'s rules.
ghost use Rattle.std.specs.Prelude.{map, IfOk};
ghost use Rattle.clap.specs.Words.{found_of, rows_of};
ghost use Rattle.cli_words.specs.Arguments.{init_app, migrate_app, serve_app, IsApp};
ghost use Rattle.cli_words.specs.CommandLine.{HasConnections, HasPatience, HasPort, Parses};

use crate::plain_arguments::{HELP_REQUIRED, add_argument, add_options, new_command};
use crate::serve_arguments::{connections_option, patience_option, port_argument};
use crate::sync_arguments::sync_option;
use clap::{ArgMatches, Command as ClapCommand, Error};
use std::alloc::{AllocError, Global};

/// The help says this of `init`.
pub const ABOUT_INIT: &str = "Creates a desk in a new database file";

/// The help says this of `serve`.
pub const ABOUT_SERVE: &str = "Serves a desk over HTTP/1.1 on a port of 127.0.0.1";

/// The help says this of `migrate`.
pub const ABOUT_MIGRATE: &str = "Upgrades a desk's database file from version 1 to version 2";

/// The help says this of the argument of commands that work by a desk.
const HELP_DESK: &str = "Path of the desk's database file";

/// The help says this of the arguments of `init`.
const HELP_ODFI: &str = "Routing number of the originating bank: nine digits";

const HELP_ODFI_NAME: &str = "Name of the originating bank: 1 to 23 characters";

const HELP_DESTINATION: &str = "Routing number of the ACH operator: nine digits";

const HELP_DESTINATION_NAME: &str = "Name of the ACH operator: 1 to 23 characters";

const HELP_OPERATOR_KEY: &str = "Key of the desk's operator: 8 to 64 characters, no spaces";

/// The options of `init`, as `add_options` takes them.
const INIT_OPTIONS: [(&str, &str, &str); 5] = [
    ("ODFI", "odfi", HELP_ODFI),
    ("ODFI_NAME", "odfi-name", HELP_ODFI_NAME),
    ("DESTINATION", "destination", HELP_DESTINATION),
    (
        "DESTINATION_NAME",
        "destination-name",
        HELP_DESTINATION_NAME,
    ),
    ("KEY", "key", HELP_OPERATOR_KEY),
];

/// Parses the words of `init DB` with its options.
pub fn init_matches<'a>(alloc: Global, words: &'a [&'a str]) -> Result<ArgMatches<'a>, Error>
    ensures { Parses init_app (map (λ w. w.now) words.now) result }
{
    let command = init_command(alloc)?;
    command.try_get_matches_from(words)
}

fn init_command<'a>(alloc: Global) -> Result<ClapCommand<'a>, AllocError>
    ensures { IfOk result (IsApp init_app) }
{
    let command = new_command(alloc, "achdesk init", ABOUT_INIT)?;
    let command = add_argument(alloc, command, "DB", "Path of the new database file")?;
    add_options(alloc, command.after_help(HELP_REQUIRED), &INIT_OPTIONS)
}

/// Parses the words of `serve DB PORT` with its options. Matches have all three numbers, each in its
/// range.
pub fn serve_matches<'a>(alloc: Global, words: &'a [&'a str]) -> Result<ArgMatches<'a>, Error>
    ensures parses { Parses serve_app (map (λ w. w.now) words.now) result }
    ensures port { IfOk result (λ m. HasPort (rows_of (found_of m))) }
    ensures connections { IfOk result (λ m. HasConnections (rows_of (found_of m))) }
    ensures patience { IfOk result (λ m. HasPatience (rows_of (found_of m))) }
{
    let command = serve_command(alloc)?;
    command.try_get_matches_from(words)
}

fn serve_command<'a>(alloc: Global) -> Result<ClapCommand<'a>, AllocError>
    ensures { IfOk result (IsApp serve_app) }
{
    let command = new_command(alloc, "achdesk serve", ABOUT_SERVE)?;
    let command = add_argument(alloc, command, "DB", HELP_DESK)?;
    let command = command.arg(port_argument(alloc))?;
    let command = command.arg(connections_option(alloc))?;
    let command = command.arg(patience_option(alloc))?;
    let command = command.arg(sync_option(alloc))?;
    Ok(command)
}

/// Parses the words of `migrate DB`.
pub fn migrate_matches<'a>(alloc: Global, words: &'a [&'a str]) -> Result<ArgMatches<'a>, Error>
    ensures { Parses migrate_app (map (λ w. w.now) words.now) result }
{
    let command = migrate_command(alloc)?;
    command.try_get_matches_from(words)
}

fn migrate_command<'a>(alloc: Global) -> Result<ClapCommand<'a>, AllocError>
    ensures { IfOk result (IsApp migrate_app) }
{
    let command = new_command(alloc, "achdesk migrate", ABOUT_MIGRATE)?;
    add_argument(alloc, command, "DB", HELP_DESK)
}
