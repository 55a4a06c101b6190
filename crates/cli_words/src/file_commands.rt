//! The commands that work by a desk's file.
ghost use Rattle.std.specs.Prelude.{◌≡◌, [], codes, map, option_map};
ghost use Rattle.clap.specs.Words.{found_of, rows_of};
ghost use Rattle.cli_words.specs.InitOptions.{init_texts_of};
ghost use Rattle.cli_words.specs.CommandLine.{Gives, GivesIn, HasConnections, HasPatience, HasPort, init, init_texts_in, migrate, number_in, serve, session_with, stdio};

use crate::command::{Command, LineFault, line_fault};
use crate::desk_arguments::{init_matches, migrate_matches, serve_matches};
use crate::given_values::{argument_text, connections_of, patience_of, port_of};
use crate::init_options::InitOptions;
use crate::plain_arguments::stdio_matches;
use crate::serve_options::ServeOptions;
use crate::sync_arguments::{no_file_fault, syncs_by};
use crate::syncs::Syncs;
use clap::ArgMatches;
use std::alloc::Global;

/// Reads the words of `stdio [DB]` with its option.
pub fn stdio_command<'a>(alloc: Global, words: &'a [&'a str]) -> Result<Command<'a>, LineFault>
    ensures { GivesIn stdio (map (λ w. w.now) words.now) result }
{
    match stdio_matches(alloc, words) {
        Ok(matches) => session_with(alloc, matches.get_str("DB"), matches.get_str("WHEN")),
        Err(error) => Err(line_fault(alloc, &error)),
    }
}

// A session with the desk in the file that is named, or with a new one, which takes no word of `--sync`.
fn session_with<'a>(
    alloc: Global,
    path: Option<&'a str>,
    word: Option<&str>,
) -> Result<Command<'a>, LineFault>
    ensures { Gives (session_with (option_map (λ p. p.now) path.entry)
        (option_map (λ w. w.now) word.entry)) [] result }
{
    match path {
        Some(path) => {
            let syncs = syncs_by(alloc, word)?;
            Ok(Command::AnswerByFile(path, syncs))
        }
        None if word.is_some() => Err(no_file_fault(alloc)),
        None => Ok(Command::AnswerMessages),
    }
}

/// Reads the words of `init DB` with its options.
pub fn init_command<'a>(alloc: Global, words: &'a [&'a str]) -> Result<Command<'a>, LineFault>
    ensures { GivesIn init (map (λ w. w.now) words.now) result }
{
    match init_matches(alloc, words) {
        Ok(matches) => {
            let path = argument_text(&matches, "DB");
            Ok(Command::Init(path, init_options(&matches)))
        }
        Err(error) => Err(line_fault(alloc, &error)),
    }
}

fn init_options<'a>(matches: &ArgMatches<'a>) -> InitOptions<'a>
    ensures { init_texts_of result ≡ init_texts_in (rows_of (found_of matches.now)) }
{
    InitOptions {
        odfi: argument_text(matches, "ODFI"),
        odfi_name: argument_text(matches, "ODFI_NAME"),
        destination: argument_text(matches, "DESTINATION"),
        destination_name: argument_text(matches, "DESTINATION_NAME"),
        key: argument_text(matches, "KEY"),
    }
}

/// Reads the words of `serve DB PORT` with its options.
pub fn serve_command<'a>(alloc: Global, words: &'a [&'a str]) -> Result<Command<'a>, LineFault>
    ensures { GivesIn serve (map (λ w. w.now) words.now) result }
{
    match serve_matches(alloc, words) {
        Ok(matches) => {
            let path = argument_text(&matches, "DB");
            let syncs = syncs_by(alloc, matches.get_str("WHEN"))?;
            Ok(Command::Serve(path, serve_options(&matches, syncs)))
        }
        Err(error) => Err(line_fault(alloc, &error)),
    }
}

fn serve_options(matches: &ArgMatches<'_>, syncs: Syncs) -> ServeOptions
    requires port { HasPort (rows_of (found_of matches.now)) }
    requires connections { HasConnections (rows_of (found_of matches.now)) }
    requires patience { HasPatience (rows_of (found_of matches.now)) }
    ensures port { result.port ≡ number_in (codes "PORT") (rows_of (found_of matches.now)) }
    ensures connections { result.connections ≡ number_in (codes "N")
        (rows_of (found_of matches.now)) }
    ensures patience { result.patience ≡ number_in (codes "SECONDS")
        (rows_of (found_of matches.now)) }
    ensures syncs { result.syncs ≡ syncs }
{
    ServeOptions {
        port: port_of(matches),
        connections: connections_of(matches),
        patience: patience_of(matches),
        syncs,
    }
}

/// Reads the words of `migrate DB`.
pub fn migrate_command<'a>(alloc: Global, words: &'a [&'a str]) -> Result<Command<'a>, LineFault>
    ensures { GivesIn migrate (map (λ w. w.now) words.now) result }
{
    match migrate_matches(alloc, words) {
        Ok(matches) => Ok(Command::Migrate(argument_text(&matches, "DB"))),
        Err(error) => Err(line_fault(alloc, &error)),
    }
}
