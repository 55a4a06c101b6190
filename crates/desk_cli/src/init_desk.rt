//! The command that makes a new desk.
ghost use Rattle.cli_commands.specs.Endings.{IfAnswered, IfFailed};
ghost use Rattle.cli_words.specs.InitOptions.{init_texts_of};
ghost use Rattle.sha2.specs.Sha256.{sha256};
ghost use Rattle.desk_cli.specs.InitRuns.{FailsToSayWhetherCreated, SaysWhetherCreated};
ghost use Rattle.desk_cli.specs.Paths.{IsMadeAt, IsOfOptions};

use crate::open_fault::print_open_fault;
use cli_commands::{Status, identity_of, print_line};
use cli_words::InitOptions;
use desk_history::Identity;
use io_retries::Sink;
use sha2::{Digest, Sha256};
use sql_files::{Connection, DeskFiles, FileStore, Opened, Refusal, create};
use std::alloc::Global;

/// The line that is printed after a new desk was made.
const CREATED: &[u8; 8] = b"created\n";

/// Makes a new desk in the file at a path, prints `created`, and returns the connection.
///
/// It prints `Exists` if the file already has a table `desk`, and `unavailable` if the file cannot be opened or
/// has other contents, or if memory runs out; this is the fault of the refusal that it returns. If an option is
/// bad, it prints the first bad one, as `bad odfi`, and opens no file.
pub fn make_desk<F: DeskFiles, W: Sink>(
    alloc: Global,
    files: &mut F,
    path: &str,
    options: &InitOptions<'_>,
    writer: &mut W,
) -> (Status, Opened<F::Device>)
    ensures file { IsOfOptions F.DeskFiles F.Device.Disk files.old path.now
        (init_texts_of options.now) result.1 files.new }
    ensures answered { IfAnswered result.0 W.Sink writer.old writer.new
        (SaysWhetherCreated (init_texts_of options.now) result.1) }
    ensures failed { IfFailed result.0 W.Sink writer.old writer.new
        (FailsToSayWhetherCreated (init_texts_of options.now) result.1) }
{
    match identity_of(options) {
        Ok(identity) => match new_desk(files, path, identity, options.key) {
            Ok(conn) => (print_line(writer, true, CREATED), Some(Ok(conn))),
            Err(why) => (print_open_fault(alloc, writer, why.fault()), Some(Err(why))),
        },
        Err(fault) => (print_line(writer, false, fault.line()), None),
    }
}

// Makes a new desk of this bank, with the digest of this key.
fn new_desk<F: DeskFiles>(
    files: &mut F,
    path: &str,
    identity: Identity,
    key: &str,
) -> Result<Connection<FileStore<F::Device>>, Refusal<F::Device>>
    ensures { IsMadeAt F.DeskFiles F.Device.Disk files.old path.now identity
        (sha256 key.now) result files.new }
{
    create(files, path, identity, Sha256::digest(key.as_bytes()))
}
