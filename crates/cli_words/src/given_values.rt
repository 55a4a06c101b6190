//! The values that a command's arguments were given.
ghost use Rattle.std.specs.Prelude.{◌≡◌, codes};
ghost use Rattle.clap.specs.Words.{found_of, rows_of};
ghost use Rattle.cli_words.specs.CommandLine.{HasConnections, HasPatience, HasPort, number_in, text_in};

use clap::ArgMatches;

/// Gives the text of an argument, empty where it has none.
pub fn argument_text<'a>(matches: &ArgMatches<'a>, id: &str) -> &'a str
    ensures { result.now ≡ text_in id.now (rows_of (found_of matches.now)) }
{
    matches.get_str(id).unwrap_or("")
}

/// Gives the port on which a server is to listen.
pub fn port_of(matches: &ArgMatches<'_>) -> u16
    requires { HasPort (rows_of (found_of matches.now)) }
    ensures { result ≡ number_in (codes "PORT") (rows_of (found_of matches.now)) }
{
    matches.get_one::<u16>("PORT").unwrap()
}

/// Gives how many connections a server is to serve.
pub fn connections_of(matches: &ArgMatches<'_>) -> u32
    requires { HasConnections (rows_of (found_of matches.now)) }
    ensures { result ≡ number_in (codes "N") (rows_of (found_of matches.now)) }
{
    matches.get_one::<u32>("N").unwrap()
}

/// Gives how many seconds a server is to wait for a client.
pub fn patience_of(matches: &ArgMatches<'_>) -> u16
    requires { HasPatience (rows_of (found_of matches.now)) }
    ensures { result ≡ number_in (codes "SECONDS") (rows_of (found_of matches.now)) }
{
    matches.get_one::<u16>("SECONDS").unwrap()
}
