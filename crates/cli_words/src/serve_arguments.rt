//! The numbers that `serve` takes, by `clap`'s rules for a range.
ghost use Rattle.std.specs.Prelude.{◌≡◌, false};
ghost use Rattle.clap.specs.Words.{rule_of};
ghost use Rattle.cli_words.specs.Arguments.{connections_rule, patience_rule, port_rule};

use clap::{Arg, ArgAction, value_parser};
use std::alloc::Global;

/// The help says this of the port.
const HELP_PORT: &str = "Port on 127.0.0.1, 1 to 65535";

/// The help says this of the number of connections.
const HELP_CONNECTIONS: &str =
    "Number of connections to serve before it exits, 1 to 1000000.\nWithout this option it exits after 1000";

/// The help says this of the patience.
const HELP_PATIENCE: &str = "Seconds that a client may keep the desk waiting, 1 to 3600";

/// Gives the port's argument, which has to be there.
pub fn port_argument<'a>(alloc: Global) -> Arg<'a>
    ensures rule { rule_of result ≡ port_rule }
    ensures local { result.global ≡ false }
{
    Arg::new(alloc, "PORT")
        .required(true)
        .action(ArgAction::Set)
        .value_parser(value_parser!(u16).range(1..))
        .help(HELP_PORT)
}

/// Gives the option of how many connections are served, 1000 where it is left out.
pub fn connections_option<'a>(alloc: Global) -> Arg<'a>
    ensures rule { rule_of result ≡ connections_rule }
    ensures local { result.global ≡ false }
{
    Arg::new(alloc, "N")
        .long("connections")
        .action(ArgAction::Set)
        .value_parser(value_parser!(u32).range(1..=1_000_000))
        .default_value("1000")
        .help(HELP_CONNECTIONS)
}

/// Gives the option of how many seconds a client is waited for, 30 where it is left out.
pub fn patience_option<'a>(alloc: Global) -> Arg<'a>
    ensures rule { rule_of result ≡ patience_rule }
    ensures local { result.global ≡ false }
{
    Arg::new(alloc, "SECONDS")
        .long("patience")
        .action(ArgAction::Set)
        .value_parser(value_parser!(u16).range(1..=3_600))
        .default_value("30")
        .help(HELP_PATIENCE)
}
