//! Saved histories: a session whose history is kept, and the file that it goes to.
ghost use Rattle.std.specs.Prelude.{◌≡◌, ◌≤◌, ◌⊎◌, ◌↔◌, List, ℕ, length, IfErr, IfOk, IsErr, IsErrAnd};
ghost use Rattle.std.specs.Io.KnownBytes.{Appends, Consumes};
ghost use Rattle.jlr_prog.specs.Books.{History};
ghost use Rattle.jlr_prog.specs.Histories.{IsWholeSession};
ghost use Rattle.jlr_commands.specs.Ends.{IsOutcome};
ghost use Rattle.jlr_commands.specs.Saving.{IsSaved, IsUnsaved};
ghost use Rattle.jlr_session.specs.Limits.{FindsEnd, most_bytes};
ghost use Rattle.jlr_session.specs.declared.shell.SessionEnd.{SessionEnd};

use crate::saved_file::{put, try_put};
use crate::saving::file::trace_bytes_of;
use crate::session::outcome_of;
use jlr_command_line::fault::ProgramFault;
use jlr_command_line::reason::{Place, Reason};
use jlr_device::Device;
use jlr_prog::Book;
use jlr_prog::run::run_over;
use jlr_session::shell::SessionEnd;
use jlr_types::Limits;
use std::alloc::{AllocError, Global};
use std::io::{self, Read, Write};

/// How a session ended, and the bytes of its history, if there was memory for them.
#[derive(Drop)]
pub struct Recording {
    pub end: SessionEnd,
    pub history: Result<Vec<u8>, AllocError>,
}

/// The bytes of the history of a book, which is let go.
fn history_of<R: Drop>(alloc: Global, book: Book<R>) -> Result<Vec<u8>, AllocError>
    ensures { IfOk result (λ v. IsSaved book v.items) }
{
    let bytes = trace_bytes_of(alloc, &book);
    drop(book);
    bytes
}

/// A session over the heap of these limits, how it ended, and its history as a trace file spells it.
///
/// # Errors
/// `AllocError` where there was no room for the heap. Then nothing was read or written, and the device was not called.
pub fn recorded<R: Read, W: Write, D: Device>(
    alloc: Global,
    limits: Limits,
    reader: &mut R,
    writer: &mut W,
    device: &mut D,
) -> Result<Recording, AllocError>
where
    D::Res: Drop,
    ensures session { IfOk result (λ x. (book : History D.Res) × (bytes : List ℕ) × (out : List ℕ)
        × Consumes (R.remaining reader.old) (R.remaining reader.new) bytes
        × Appends (W.contents writer.old) (W.contents writer.new) out
        × (length bytes ≤ most_bytes)
        × IsWholeSession (record {
          count =
              D.count;
          opens = D.may_open;
          connects = D.may_connect;
          failures = D.Res.handling.count;
        })
        D.Res.handling
        limits (FindsEnd (R.remaining reader.new) bytes) x.end bytes device.old out device.new book
        × IfOk x.history (λ v. IsSaved book v.items)) }
    ensures untouched { IsErr result → (reader.new ≡ reader.old) × (writer.new ≡ writer.old)
        × (device.new ≡ device.old) }
{
    match run_over(alloc, limits, reader, writer, device) {
        Ok((end, book)) => Ok(Recording {
            end,
            history: history_of(alloc, book),
        }),
        Err(fault) => Err(fault),
    }
}

/// A session whose history is saved when it ends, however it ends. Where that cannot be, it does not begin.
///
/// # Errors
/// `CannotSave`, or `NoMemory` where there is no memory for the heap or the history; else the fault of the session's
/// end.
pub fn session_saved<R: Read, W: Write, D: Device>(
    rt: &HostRuntime,
    path: &str,
    limits: Limits,
    reader: &mut R,
    writer: &mut W,
    device: &mut D,
) -> Result<(), ProgramFault>
where
    D::Res: Drop,
    ensures { (IsErrAnd result IsUnsaved × (reader.new ≡ reader.old) × (writer.new ≡ writer.old)
        × (device.new ≡ device.old))
        ⊎ ((end : SessionEnd) × (book : History D.Res) × (bytes : List ℕ) × (out : List ℕ)
        × (IsErrAnd result IsUnsaved ⊎ IsOutcome end result)
        × Consumes (R.remaining reader.old) (R.remaining reader.new) bytes
        × Appends (W.contents writer.old) (W.contents writer.new) out
        × (length bytes ≤ most_bytes)
        × IsWholeSession (record {
          count =
              D.count;
          opens = D.may_open;
          connects = D.may_connect;
          failures = D.Res.handling.count;
        })
        D.Res.handling
        limits (FindsEnd (R.remaining reader.new) bytes) end bytes device.old out device.new book) }
{
    match try_save(rt, path) {
        Ok(()) => {}
        Err(fault) => return Err(fault),
    }
    match recorded(rt.alloc(), limits, reader, writer, device) {
        Ok(recording) => saved_end(rt, path, recording),
        Err(fault) => Err(ProgramFault::NoMemory(fault)),
    }
}

/// Saves the history of a session that has ended, and says what its end is to the program.
fn saved_end(rt: &HostRuntime, path: &str, recording: Recording) -> Result<(), ProgramFault>
    ensures ended { IsErrAnd result IsUnsaved ⊎ IsOutcome recording.end result }
    ensures unsaved { IsErr recording.history → IsErrAnd result IsUnsaved }
{
    let Recording { end, history } = recording;
    let bytes = match history {
        Ok(bytes) => bytes,
        Err(fault) => return Err(ProgramFault::NoMemory(fault)),
    };
    match save(rt, path, bytes.as_slice()) {
        Ok(()) => outcome_of(end),
        Err(fault) => Err(fault),
    }
}

/// Saves bytes to a file: whole, or what stood there stays.
///
/// A file is written anew beside its place and then put there. Where a link leads to a file, that file is replaced, and
/// the link stays. What is neither a file nor a directory, as a terminal or a pipe, is written to as it is, and so is
/// what a path like `/dev/stdout` says is open: where that is a file, the bytes come behind its own.
///
/// # Errors
/// `CannotSave`, or `NoMemory`.
pub fn save(rt: &HostRuntime, path: &str, bytes: &[u8]) -> Result<(), ProgramFault>
    ensures { IfErr result IsUnsaved }
{
    told(rt.alloc(), path, put(rt, path, bytes))
}

/// Tries whether something can be saved to a place, and leaves there what it found: a new file is made beside it, with
/// the rights that the saved one will have, and removed. What is neither a file nor a directory is not tried.
///
/// # Errors
/// `CannotSave`, or `NoMemory`.
pub(crate) fn try_save(rt: &HostRuntime, path: &str) -> Result<(), ProgramFault>
    ensures { IfErr result IsUnsaved }
{
    told(rt.alloc(), path, try_put(rt, path))
}

/// What came of a save, told as the program tells it.
fn told(alloc: Global, path: &str, done: io::Result<()>) -> Result<(), ProgramFault>
    ensures well { IsErr result ↔ IsErr done }
    ensures fault { IfErr result IsUnsaved }
{
    match done {
        Ok(()) => Ok(()),
        Err(error) if error.kind() == io::ErrorKind::OutOfMemory => {
            Err(ProgramFault::NoMemory(AllocError))
        }
        Err(error) => Err(unsaved(alloc, path, Reason::of(error.kind()))),
    }
}

/// That a history cannot be saved, or that memory for saying so ran out.
fn unsaved(alloc: Global, path: &str, reason: Reason) -> ProgramFault
    ensures { IsUnsaved result }
{
    match Place::new(alloc, path, reason) {
        Ok(place) => ProgramFault::CannotSave(place),
        Err(fault) => ProgramFault::NoMemory(fault),
    }
}
