//! A heap that clients share over a Unix socket: `refheap serve`.
ghost use Rattle.std.specs.Prelude.{◌≡◌, ◌↔◌, IfOk, IfSome, IsSome, IsTrue, OnOk};
ghost use Rattle.std.specs.Io.KnownBytes.{Appends};
ghost use Rattle.jlr_prog.specs.Books.{last};
ghost use Rattle.jlr_commands.specs.Lines.{counts_lines};
ghost use Rattle.jlr_commands.specs.Saving.{IsSaved};

use crate::descriptors::warn_of_few;
use crate::reach::fenced;
use crate::save::{save, try_save};
use crate::saving::file::trace_bytes_of;
use crate::text::write_text;
use jlr_command_line::arguments::Service;
use jlr_command_line::fault::ProgramFault;
use jlr_command_line::reason::{Place, Reason};
use jlr_device::places::Inode;
use jlr_listener::listener::{LineWatcher, Listener, SocketPlace};
use jlr_listener::socket_file::remove_own;
use jlr_server::Book;
use jlr_server::hall::closing::CloseFault;
use jlr_server::hall::history::Blank;
use jlr_server::server::{ServeFault, Served, serve_watched};
use std::alloc::{AllocError, Global};
use std::io::{self, Write};
use std::marker::Brand;
use std::sync::Wait;
use std::thread::Threads;

/// Serves clients on a Unix socket, and writes how many and how many entries their history has, which is then saved
/// where it is to be. The files of its sockets are removed at the end, where they are still its own. Who asked it to
/// end is told whether the history was saved.
///
/// # Errors
/// `CannotListen` where a socket cannot be made, also where its file exists, which is left alone, and where a thread
/// cannot be started; `Disagree`, `Write`, `NoMemory`; `CannotSave`, also where the lines could not be written.
pub fn serve<T: Threads + Wait + Sync>(
    rt: &HostRuntime,
    threads: &T,
    service: Service<'_>,
    writer: &mut impl Write,
) -> Result<(), ProgramFault> {
    warn_of_few(rt, service.limits);
    if let Some(path) = service.save {
        try_save(rt, path)?;
    }
    let (listener, watcher, files) = listening(rt, service)?;
    let own = [files.socket, files.control.unwrap_or(files.socket)];
    let outcome = served(rt, threads, service, &listener, watcher, &own);
    remove_own(rt, service.socket, files.socket);
    if let (Some(path), Some(file)) = (service.control, files.control) {
        remove_own(rt, path, file);
    }
    let (closed, mut watcher) = outcome?;
    let told = tell(rt.alloc(), writer, &closed);
    if closed.missed > 0 {
        let _ = eprintln!(rt; "refheap: {} of the accepts failed", closed.missed);
    }
    let saved = save_at(rt, service.save, closed.history);
    watcher.tell_askers(saved.is_ok());
    saved?;
    told
}

/// The files of a server's sockets.
#[derive(Clone, Copy)]
struct SocketFiles {
    socket: Inode,
    control: Option<Inode>,
}

/// The sockets of a server, and who watches its clients. Who can ask it to end can connect already.
fn listening(
    rt: &HostRuntime,
    service: Service<'_>,
) -> Result<(Listener, LineWatcher, SocketFiles), ProgramFault> {
    let place = SocketPlace {
        path: service.socket,
        mode: service.mode,
    };
    let (listener, mut watcher, socket) = match Listener::bind(rt, rt.alloc(), place) {
        Ok(bound) => bound,
        Err(error) => return Err(unbound(rt.alloc(), service.socket, &error)),
    };
    match control_of(rt, service, &mut watcher) {
        Ok(control) => Ok((listener, watcher, SocketFiles { socket, control })),
        Err(fault) => {
            remove_own(rt, service.socket, socket);
            Err(fault)
        }
    }
}

/// The file of the socket on which the server is asked to end, if there is to be one.
fn control_of(
    rt: &HostRuntime,
    service: Service<'_>,
    watcher: &mut LineWatcher,
) -> Result<Option<Inode>, ProgramFault> {
    let Some(path) = service.control else {
        return Ok(None);
    };
    let mode = Some(service.control_mode);
    match watcher.listen_for_end(rt, rt.alloc(), SocketPlace { path, mode }) {
        Ok(file) => Ok(Some(file)),
        Err(error) => Err(unbound(rt.alloc(), path, &error)),
    }
}

/// What a server leaves.
#[derive(Drop)]
struct Closed {
    /// How many clients were waited for.
    accepts: u32,
    /// How many of these did not come.
    missed: u32,
    /// How many entries the history has since the heap was opened.
    entries: u64,
    /// The bytes of the history, if it is to be saved and there was memory for them.
    history: Option<Result<Vec<u8>, AllocError>>,
}

fn served<T: Threads + Wait + Sync>(
    rt: &HostRuntime,
    threads: &T,
    service: Service<'_>,
    listener: &Listener,
    watcher: LineWatcher,
    own: &[Inode],
) -> Result<(Closed, LineWatcher), ProgramFault> {
    let alloc = rt.alloc();
    let limits = service.limits;
    let mut devices = Vec::new(alloc);
    for _ in 0..limits.sessions {
        devices.push(fenced(rt, service.reach, own))?;
    }
    let blank = Blank::new(alloc)?;
    let done = serve_watched::<_, _, Brand, _, _>(
        threads,
        alloc,
        limits,
        service.total,
        listener,
        watcher,
        devices,
        blank,
    );
    match done {
        Ok(watched) => {
            let (served, watcher) = watched.into_parts();
            Ok((closed_of(alloc, served, service.save.is_some()), watcher))
        }
        Err(fault) => Err(fault_of(alloc, fault, service.socket)),
    }
}

/// What is left of what was served. The book and the devices are let go.
fn closed_of<R: Drop, D: Drop>(alloc: Global, served: Served<R, D>, saves: bool) -> Closed
    ensures accepts { (result.accepts ≡ served.accepts) × (result.missed ≡ served.missed) }
    ensures entries { result.entries ≡ last served.book }
    ensures saved { IsTrue saves ↔ IsSome result.history }
    ensures history { IfSome result.history (λ made. IfOk made (λ bytes. IsSaved served.book bytes.items)) }
{
    let accepts = served.accepts;
    let missed = served.missed;
    let entries = served.book.last();
    let history = history_of(alloc, &served.book, saves);
    drop(served);
    Closed {
        accepts,
        missed,
        entries,
        history,
    }
}

/// The bytes of the history of a book, if it is to be saved.
fn history_of<R: Drop>(
    alloc: Global,
    book: &Book<R>,
    saves: bool,
) -> Option<Result<Vec<u8>, AllocError>>
    ensures asked { IsTrue saves ↔ IsSome result }
    ensures bytes { IfSome result (λ made. IfOk made (λ bytes. IsSaved book.now bytes.items)) }
{
    if saves {
        return Some(trace_bytes_of(alloc, book));
    }
    None
}

/// Saves a history where it is to be saved.
fn save_at(
    rt: &HostRuntime,
    path: Option<&str>,
    history: Option<Result<Vec<u8>, AllocError>>,
) -> Result<(), ProgramFault> {
    let (Some(path), Some(history)) = (path, history) else {
        return Ok(());
    };
    let bytes = history?;
    save(rt, path, bytes.as_slice())
}

/// What the fault of a server is to the program.
fn fault_of(alloc: Global, fault: ServeFault, path: &str) -> ProgramFault {
    match fault {
        ServeFault::Close(CloseFault::Disagree(seat)) => ProgramFault::Disagree(seat),
        ServeFault::Close(CloseFault::NoMemory) | ServeFault::NoMemory => {
            ProgramFault::NoMemory(AllocError)
        }
        ServeFault::Miscounted => ProgramFault::Disagree(u8::MAX),
        ServeFault::Start => unheard(alloc, path, Reason::NoThread),
    }
}

/// What an error is to the program for which no socket is made at a path.
fn unbound(alloc: Global, path: &str, error: &io::Error) -> ProgramFault {
    match error.kind() {
        io::ErrorKind::OutOfMemory => ProgramFault::NoMemory(AllocError),
        kind => unheard(alloc, path, Reason::of(kind)),
    }
}

/// That nothing listens on a path, or that memory for saying so ran out.
fn unheard(alloc: Global, path: &str, reason: Reason) -> ProgramFault {
    match Place::new(alloc, path, reason) {
        Ok(place) => ProgramFault::CannotListen(place),
        Err(fault) => ProgramFault::NoMemory(fault),
    }
}

/// Writes the counts, a line each.
fn tell<W: Write>(alloc: Global, writer: &mut W, closed: &Closed) -> Result<(), ProgramFault>
    ensures { OnOk result (Appends (W.contents writer.old) (W.contents writer.new)
        (counts_lines closed.now.accepts closed.now.entries)) }
{
    let (accepts, entries) = (closed.accepts, closed.entries);
    let lines = format!(in alloc; "served {accepts}\nentries {entries}\n")?;
    write_text(writer, lines.as_str())
}
