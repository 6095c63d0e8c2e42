//! A session, and what it leaves of the program.
ghost use Rattle.std.specs.Prelude.{◌≡◌, ◌≤◌, ◌⊎◌, List, ℕ, length};
ghost use Rattle.std.specs.Io.KnownBytes.{Appends, Consumes};
ghost use Rattle.jlr_prog.specs.Books.{History};
ghost use Rattle.jlr_prog.specs.Histories.{IsWholeSession};
ghost use Rattle.jlr_session.specs.Limits.{FindsEnd, most_bytes};
ghost use Rattle.jlr_session.specs.declared.shell.SessionEnd.{SessionEnd};
ghost use Rattle.jlr_commands.specs.Ends.{SessionOutOfMemory, IsOutcome};

use jlr_command_line::fault::ProgramFault;
use jlr_device::Device;
use jlr_prog::run::run_over;
use jlr_session::shell::SessionEnd;
use jlr_types::Limits;
use std::alloc::Global;
use std::io::{Read, Write};

/// A session over the heap of these limits, and what its end is to the program. The book that it leaves is let go.
///
/// # Errors
/// The fault of the session's end, or `NoMemory` where there was no room for the heap. Then nothing was read or
/// written, and the device was not called.
pub fn session<R: Read, W: Write, D: Device>(
    alloc: Global,
    limits: Limits,
    reader: &mut R,
    writer: &mut W,
    device: &mut D,
) -> Result<(), ProgramFault>
where
    D::Res: Drop,
    ensures { (SessionOutOfMemory result × (reader.new ≡ reader.old) × (writer.new ≡ writer.old)
        × (device.new ≡ device.old))
        ⊎ ((end : SessionEnd) × (book : History D.Res) × (bytes : List ℕ) × (out : List ℕ) × IsOutcome end result
        × Consumes (R.remaining reader.old) (R.remaining reader.new) bytes
        × Appends (W.contents writer.old) (W.contents writer.new) out
        × (length bytes ≤ most_bytes)
        × IsWholeSession (record {
          count =
              D.count;
          opens = D.may_open;
          connects = D.may_connect;
          failures = D.Res.handling.count;
        })
        D.Res.handling
        limits (FindsEnd (R.remaining reader.new) bytes) end bytes device.old out device.new book) }
{
    match run_over(alloc, limits, reader, writer, device) {
        Ok((end, book)) => {
            drop(book);
            outcome_of(end)
        }
        Err(fault) => Err(ProgramFault::NoMemory(fault)),
    }
}

/// What the end of the session is to the program.
pub(crate) fn outcome_of(end: SessionEnd) -> Result<(), ProgramFault>
    ensures { IsOutcome end result }
{
    match end {
        SessionEnd::Bye | SessionEnd::End => Ok(()),
        SessionEnd::Truncated => Err(ProgramFault::Unfinished),
        SessionEnd::TooManyLines => Err(ProgramFault::TooManyLines),
        SessionEnd::NotJoined(_) => Err(ProgramFault::NotJoined),
        SessionEnd::ReadFault => Err(ProgramFault::Read),
        SessionEnd::WriteFault => Err(ProgramFault::Write),
    }
}
