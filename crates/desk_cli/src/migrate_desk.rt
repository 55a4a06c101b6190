//! The command that migrates a desk's file from version 1 to version 2.
ghost use Rattle.cli_commands.specs.Endings.{IfAnswered, IfFailed};
ghost use Rattle.desk_cli.specs.MigrationRuns.{FailsToSayWhetherMigrated, SaysWhetherMigrated};
ghost use Rattle.desk_cli.specs.Paths.{IsMigratedAt};

use crate::open_fault::print_open_fault;
use cli_commands::{Status, print_line};
use io_retries::Sink;
use sql_files::{Connection, DeskFiles, FileStore, Refusal, migrate_file};
use std::alloc::Global;

/// The line that is printed after a migration.
const MIGRATED: &[u8; 16] = b"migrated 1 to 2\n";

/// Migrates the desk's file at a path from version 1 to version 2, prints `migrated 1 to 2`, and returns the
/// connection.
///
/// If the file is not that of a desk of version 1, it prints the fault of the refusal that it returns:
/// `NotADesk`, `WrongVersion 2` or `unavailable`.
pub fn migrate_by_file<F: DeskFiles, W: Sink>(
    alloc: Global,
    files: &mut F,
    path: &str,
    writer: &mut W,
) -> (
    Status,
    Result<Connection<FileStore<F::Device>>, Refusal<F::Device>>,
)
    ensures file { IsMigratedAt F.DeskFiles F.Device.Disk files.old path.now result.1 files.new }
    ensures answered { IfAnswered result.0 W.Sink writer.old writer.new
        (SaysWhetherMigrated result.1) }
    ensures failed { IfFailed result.0 W.Sink writer.old writer.new
        (FailsToSayWhetherMigrated result.1) }
{
    let presence = files.look(path);
    match migrate_file(alloc, files, path, presence) {
        Ok(conn) => (print_line(writer, true, MIGRATED), Ok(conn)),
        Err(why) => (print_open_fault(alloc, writer, why.fault()), Err(why)),
    }
}
