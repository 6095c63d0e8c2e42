//! A session with a server: `refheap client PATH`.
use crate::pipe::pass;
use crate::terminal::converse;
use jlr_command_line::fault::ProgramFault;
use jlr_command_line::reason::{Place, Reason};
use std::alloc::AllocError;
use std::io::{self, IsTerminal};
use std::os::unix::net::UnixStream;

/// A session with the server at a path: with a prompt and words where standard input and output are terminals; else
/// bytes in and out.
///
/// # Errors
/// `CannotConnect`; `Read` where the input cannot be read, or, without a prompt, the server's replies; `Write`;
/// `NoMemory`.
pub fn client(rt: &HostRuntime, path: &str) -> Result<(), ProgramFault> {
    let stream = match UnixStream::connect(rt, path) {
        Ok(stream) => stream,
        Err(error) if error.kind() == io::ErrorKind::OutOfMemory => {
            return Err(ProgramFault::NoMemory(AllocError));
        }
        Err(error) => {
            let place = Place::new(rt.alloc(), path, Reason::of(error.kind()))?;
            return Err(ProgramFault::CannotConnect(place));
        }
    };
    if rt.stdin().is_terminal() && rt.stdout().is_terminal() {
        return converse(rt, &stream);
    }
    pass(rt, &stream)
}
