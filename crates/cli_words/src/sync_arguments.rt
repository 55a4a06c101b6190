//! The option `--sync`, which says how often a commit syncs.
ghost use Rattle.std.specs.Prelude.{◌≡◌, [], false, option_map};
ghost use Rattle.clap.specs.Words.{rule_of};
ghost use Rattle.cli_words.specs.Arguments.{sync_rule};
ghost use Rattle.cli_words.specs.CommandLine.{GivesSyncs, IsFaultAmong};
ghost use Rattle.cli_words.specs.SyncWords.{syncs_by};

use crate::command::LineFault;
use crate::syncs::Syncs;
use clap::{Arg, ArgAction};
use std::alloc::{AllocError, Global};

/// The help says this of the option.
const HELP_SYNC: &str =
    "How often a commit syncs its files: twice or once [default: twice].\nBoth assume that a write that a power failure cuts off changes no byte outside of it.\n'once' also assumes that each of its bytes is the old one or the new one.\nA disk that finishes each sector it began does both, as NVMe disks have to.";

/// Returns the option `--sync WHEN`, which may be left out.
pub fn sync_option<'a>(alloc: Global) -> Arg<'a>
    ensures rule { rule_of result ≡ sync_rule }
    ensures local { result.global ≡ false }
{
    Arg::new(alloc, "WHEN")
        .long("sync")
        .action(ArgAction::Set)
        .help(HELP_SYNC)
}

/// Returns how often a commit syncs, by the word of `--sync`: `once` or `twice`, and twice if there is no
/// word. Another word is wrong usage.
pub fn syncs_by(alloc: Global, word: Option<&str>) -> Result<Syncs, LineFault>
    ensures { GivesSyncs (syncs_by (option_map (λ w. w.now) word.entry)) result }
{
    let Some(word) = word else {
        return Ok(Syncs::Twice);
    };
    match word {
        "once" => Ok(Syncs::Once),
        "twice" => Ok(Syncs::Twice),
        _ => Err(word_fault(alloc, word)),
    }
}

// The fault of a word that `--sync` does not take, as `clap` words it.
fn word_fault(alloc: Global, word: &str) -> LineFault
    ensures { IsFaultAmong [] result }
{
    usage_fault(format!(in alloc;
        "error: invalid value '{word}' for '--sync <WHEN>'\n  [possible values: once, twice]\n\nFor more information, try '--help'.\n"
    ))
}

/// Returns the fault of `--sync` without a file whose commits it could mean, as `clap` words it.
pub fn no_file_fault(alloc: Global) -> LineFault
    ensures { IsFaultAmong [] result }
{
    usage_fault(String::from_str(
        alloc,
        "error: the following required arguments were not provided:\n  <DB>\n\nUsage: achdesk stdio --sync <WHEN> <DB>\n\nFor more information, try '--help'.\n",
    ))
}

fn usage_fault(text: Result<String, AllocError>) -> LineFault
    ensures { IsFaultAmong [] result }
{
    match text {
        Ok(text) => LineFault::Usage(text),
        Err(_) => LineFault::NoMemory,
    }
}
