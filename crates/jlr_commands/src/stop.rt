//! Asking a server to end: `refheap stop`.
ghost use Rattle.std.specs.Io.KnownBytes.{Consumes};
ghost use Rattle.jlr_commands.specs.Stopping.{EndsWell, said_in};

use jlr_command_line::fault::ProgramFault;
use jlr_command_line::reason::{Place, Reason};
use std::io::{ErrorKind, Read, Write};
use std::os::unix::net::UnixStream;

/// What a server is told that is to end. Who only connects asks for nothing.
const END: u8 = b'.';

/// What a server says to who asked it to end, once its history is saved, where it is to be.
const ENDED: u8 = b'.';

/// Asks the server that listens at this path to end, and waits until it is gone. Asked by a second one, it cuts its
/// clients off.
///
/// # Errors
/// `CannotConnect` where nobody listens there; `NotEnded` where the server could not save its history, or went without
/// a word.
pub fn stop(rt: &HostRuntime, control: &str) -> Result<(), ProgramFault> {
    let stream = match UnixStream::connect(rt, control) {
        Ok(stream) => stream,
        Err(error) => {
            let place = Place::new(rt.alloc(), control, Reason::of(error.kind()))?;
            return Err(ProgramFault::CannotConnect(place));
        }
    };
    // A server that ends already may be gone before it takes the byte. What it said counts.
    let _ = (&stream).write_all(&[END]);
    let mut server = &stream;
    if says_ended(&mut server) {
        return Ok(());
    }
    Err(ProgramFault::NotEnded)
}

/// What a read gave.
#[derive(Clone, Copy)]
pub enum Heard {
    /// A byte.
    Said(u8),
    /// Nothing yet, since a signal came between.
    Nothing,
    /// No more comes.
    Over,
}

/// Reads a byte.
fn read_byte<R: Read>(reader: &mut R) -> Heard
    ensures { Consumes (R.remaining reader.old) (R.remaining reader.new) (said_in result) }
{
    let mut word = [0u8; 1];
    match reader.read(&mut word) {
        Ok(0) => Heard::Over,
        Ok(_) => Heard::Said(word[0]),
        Err(error) if error.kind() == ErrorKind::Interrupted => Heard::Nothing,
        Err(_) => Heard::Over,
    }
}

/// Whether a server says, before it goes, that it ended in order. One that goes before it has read what it was asked
/// resets the connection behind that.
fn says_ended<R: Read>(reader: &mut R) -> bool
    ensures { EndsWell (R.remaining reader.old) (R.remaining reader.new) result }
{
    let mut has_ended = false;
    for _read in 0..MOST_READS {
        match read_byte(reader) {
            Heard::Said(byte) => has_ended = byte == ENDED,
            Heard::Nothing => {}
            Heard::Over => break,
        }
    }
    has_ended
}

/// More reads than an end takes: a byte and the end of the stream, and some that a signal interrupts.
const MOST_READS: u32 = 1_000;
