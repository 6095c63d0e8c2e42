//! A session from a pipe: bytes in and out, unchanged.
ghost use Rattle.std.specs.Prelude.{OnOk};
ghost use Rattle.jlr_client.specs.Passing.{Passes};

use crate::outgoing::{Outgoing, ROOM, is_later};
use jlr_command_line::fault::ProgramFault;
use libc::net::{POLLERR, POLLHUP, POLLIN, POLLOUT, poll};
use libc::types::pollfd;
use std::io::{Read, Write};
use std::net::Shutdown;
use std::os::fd::AsRawFd;
use std::os::unix::net::UnixStream;

/// What a wait found.
#[derive(Clone, Copy, Debug)]
struct Ready {
    /// The input has bytes, or has ended.
    input: bool,
    /// The server said something, or has closed.
    replies: bool,
}

/// Waits until there is something to do.
fn wait(stream: &UnixStream, outgoing: &Outgoing) -> Ready {
    let input = if outgoing.wants_more() {
        libc::STDIN_FILENO
    } else {
        -1
    };
    let events = if outgoing.is_empty() {
        POLLIN
    } else {
        POLLIN | POLLOUT
    };
    let mut places = [
        pollfd {
            fd: input,
            events: POLLIN,
            revents: 0,
        },
        pollfd {
            fd: stream.as_raw_fd(),
            events,
            revents: 0,
        },
    ];
    let _ = poll(&mut places, -1);
    let said = places[1].revents & (POLLIN | POLLHUP | POLLERR);
    Ready {
        input: places[0].revents != 0,
        replies: said != 0,
    }
}

/// Passes on what a stream gives at once, and tells whether it may give more.
///
/// # Errors
/// `Read` where a read fails, but for one that is to be made again; `Write`.
fn passed_on<R: Read, W: Write>(
    reader: &mut R,
    writer: &mut W,
    room: &mut [u8],
) -> Result<bool, ProgramFault>
    ensures { OnOk result (Passes (R.remaining reader.old) (R.remaining reader.new) (W.contents writer.old)
        (W.contents writer.new)) }
{
    match reader.read(room) {
        Ok(0) => Ok(false),
        Ok(count) => {
            if writer.write_all(&room[..count]).is_err() {
                return Err(ProgramFault::Write);
            }
            Ok(true)
        }
        Err(error) if is_later(&error) => Ok(true),
        Err(_) => Err(ProgramFault::Read),
    }
}

/// Sends the bytes of the standard input to the server and writes those that come back to the standard output, until
/// the server closes. At the end of the input the server is told that no more comes.
pub fn pass(rt: &HostRuntime, stream: &UnixStream) -> Result<(), ProgramFault> {
    if stream.set_nonblocking(true).is_err() {
        return Err(ProgramFault::Read);
    }
    let mut room = vec![in rt.alloc(); 0u8; ROOM]?;
    let mut outgoing = Outgoing::new(rt.alloc())?;
    let mut server = stream;
    for _ in 0..u64::MAX {
        let ready = wait(stream, &outgoing);
        if ready.replies && !passed_on(&mut server, &mut rt.stdout(), &mut room)? {
            return Ok(());
        }
        if ready.input && outgoing.is_empty() {
            outgoing.fill(&mut rt.stdin())?;
        }
        if !outgoing.is_empty() {
            outgoing.send(&mut server);
        }
        if outgoing.ends() {
            let _ = stream.shutdown(Shutdown::Write);
        }
    }
    Ok(())
}
