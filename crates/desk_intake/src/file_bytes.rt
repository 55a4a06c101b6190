//! An incoming file, read from its bytes.
ghost use Rattle.std.specs.Prelude.{◌≡◌, ◌≢◌, IfOk, OnErr};
ghost use Rattle.ach_files.specs.declared.fault.FileFault.TheVariants.{NoMemory};
ghost use Rattle.desk_intake.specs.OverStores.{OfFile};

use ach_files::{Fault, FileFault, Reader, Taken, faults_stand};
use desk_history::one_message;
use desk_store::StoreFault;
use std::alloc::Global;

// Returns a fault of the bytes: every one except lack of memory.
fn fault_of_bytes(fault: Fault) -> Result<Fault, StoreFault>
    ensures same { IfOk result (λ told. told ≡ fault) }
    ensures told { IfOk result (λ told. told.kind ≢ NoMemory) }
    ensures memory { OnErr result (fault.kind ≡ NoMemory) }
{
    match fault.kind {
        FileFault::NoMemory => Err(StoreFault::Unavailable),
        _ => Ok(fault),
    }
}

/// Gives what the bytes are: a file, or the first fault of one.
pub(crate) fn read_file(alloc: Global, bytes: &[u8]) -> Result<Result<Taken, Fault>, StoreFault>
    ensures { IfOk result (λ read. OfFile bytes.now (λ file. read ≡ file)) }
{
    one_message();
    faults_stand();
    let mut reader = Reader::new(alloc);
    if let Err(fault) = reader.feed(bytes) {
        return Ok(Err(fault_of_bytes(fault)?));
    }
    Ok(reader.finish())
}
