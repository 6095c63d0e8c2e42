//! The file of a saved history.
ghost use Rattle.std.specs.Prelude.{◌≡◌};
ghost use Rattle.jlr_commands.specs.Audits.{TellsStreamFault, IsUnread, damage};

use jlr_command_line::fault::ProgramFault;
use jlr_command_line::reason::{Place, Reason};
use jlr_trace::file::TraceFault;
use jlr_trace::window::StreamFault;
use std::alloc::{AllocError, Global};
use std::fs::File;
use std::io::ErrorKind;

/// A file, to be read.
///
/// # Errors
/// `CannotRead`, or `NoMemory`.
pub(crate) fn opened(rt: &HostRuntime, path: &str) -> Result<File, ProgramFault> {
    match File::open(rt, path) {
        Ok(file) => Ok(file),
        Err(error) => Err(unread(rt.alloc(), path, error.kind())),
    }
}

/// Why a file that is no trace file ends the program.
fn damage_of(fault: TraceFault) -> ProgramFault
    ensures { result ≡ damage fault }
{
    match fault {
        TraceFault::Truncated => ProgramFault::TraceTruncated,
        TraceFault::BadMark => ProgramFault::BadMark,
        TraceFault::BadVersion => ProgramFault::BadVersion,
        TraceFault::BadEntry(number) => ProgramFault::BadEntry(number),
        TraceFault::NoMemory => ProgramFault::NoMemory(AllocError),
    }
}

/// Why a file that was not read to its end, or is no trace file, ends the program.
pub(crate) fn fault_of(alloc: Global, path: &str, fault: StreamFault) -> ProgramFault
    ensures { TellsStreamFault fault result }
{
    match fault {
        StreamFault::Unread(kind) => unread(alloc, path, kind),
        StreamFault::Damaged(fault) => damage_of(fault),
    }
}

/// That a file cannot be read, or that there is no memory for that, or for saying so.
fn unread(alloc: Global, path: &str, kind: ErrorKind) -> ProgramFault
    ensures { IsUnread result }
{
    if kind == ErrorKind::OutOfMemory {
        return ProgramFault::NoMemory(AllocError);
    }
    match Place::new(alloc, path, Reason::of(kind)) {
        Ok(place) => ProgramFault::CannotRead(place),
        Err(fault) => ProgramFault::NoMemory(fault),
    }
}
