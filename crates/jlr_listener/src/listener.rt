//! Clients that come over a Unix socket, and who watches them.
ghost use Rattle.std.specs.Prelude.{◌≡◌, true, MatchOption};
ghost use Rattle.jlr_listener.specs.News.{TellsAsked};

use crate::acceptor::{AcceptId, Acceptor};
use crate::socket_file::{listen, remove_own};
use crate::watch::{Closing, News, Watcher};
use jlr_device::places::Inode;
use jlr_types::Fault;
use libc::net::{POLLIN, poll};
use libc::types::pollfd;
use mio::unix::SourceFd;
use mio::{Events, Interest, Poll, Registry, Token, Waker};
use std::alloc::Global;
use std::io::{self, Read, Write};
use std::net::Shutdown;
use std::os::fd::{AsRawFd, RawFd};
use std::os::unix::net::{UnixListener, UnixStream};
use std::sync::{Mutex, Wait};

/// What who asked the server to end is told, once it has ended in order.
const ENDED: &[u8] = b".";

/// For how many milliseconds who connected to the socket of control may say nothing.
const PATIENCE: i32 = 1_000;

/// More than can wait at the socket of control.
const MOST_ASKERS: u32 = 10_000;

/// The token of the bell that dismisses the watcher.
const OVER: usize = 0;

/// The token of the socket on which the server is asked to end.
const CONTROL: usize = 1;

/// The first token of a client, that of number 0.
const CLIENTS: usize = 2;

/// Where a socket is made, and the rights of its file, where they are not to be those of the umask.
#[derive(Clone, Copy)]
pub struct SocketPlace<'a> {
    pub path: &'a str,
    pub mode: Option<u32>,
}

/// The connection of a client.
#[derive(Drop)]
struct Line {
    client: u32,
    stream: UnixStream,
}

/// The connections of the clients that are there, and whether they were closed.
#[derive(Drop)]
struct Lines {
    closing: Option<Closing>,
    open: Vec<Line>,
}

impl Lines {
    /// Whether a client could come.
    fn come(&mut self, line: Line) -> bool {
        self.closing.is_none() && self.open.push(line).is_ok()
    }

    /// The descriptor of a client's connection.
    fn descriptor(&self, client: u32) -> Option<RawFd> {
        let line = self.open.iter().find(|line| line.client == client)?;
        Some(line.stream.as_raw_fd())
    }

    fn close(&mut self, closing: Closing) {
        self.closing = Some(closing);
        for line in &self.open {
            let _ = line.stream.shutdown(match closing {
                Closing::Drained => Shutdown::Read,
                Closing::Cut => Shutdown::Both,
            });
        }
    }

    /// A client leaves. Its connection is shut, so that it ends for the client at once, whoever has it open still.
    fn leave(&mut self, client: u32) {
        for line in &self.open {
            if line.client == client {
                let _ = line.stream.shutdown(Shutdown::Both);
            }
        }
        self.open.retain(|line| line.client != client);
    }
}

/// A Unix socket on which clients are waited for.
#[derive(Drop)]
pub struct Listener {
    listener: UnixListener,
    registry: Registry,
    over: Waker,
    lines: Mutex<Lines>,
}

impl Listener {
    /// A socket for clients, who watches them, and the file of the socket, which stays when it is dropped.
    ///
    /// # Errors
    /// As `listen`, or where the system has no more descriptors.
    pub fn bind(
        rt: &HostRuntime,
        alloc: Global,
        place: SocketPlace<'_>,
    ) -> io::Result<(Self, LineWatcher, Inode)> {
        let poll = Poll::new(rt)?;
        let registry = poll.registry().try_clone()?;
        let over = Waker::new(poll.registry(), Token(OVER))?;
        let events = Events::with_capacity(alloc, 1)?;
        let (listener, file) = listen(rt, alloc, place.path, place.mode)?;
        Ok((
            Listener {
                listener,
                registry,
                over,
                lines: Mutex::new(Lines {
                    closing: None,
                    open: Vec::new(alloc),
                }),
            },
            LineWatcher {
                poll,
                events,
                control: None,
                spare: None,
                is_asked: false,
                ready: false,
                askers: Vec::new(alloc),
            },
            file,
        ))
    }
}

fn watch_control(registry: &Registry, control: &UnixListener) -> io::Result<()> {
    control.set_nonblocking(true)?;
    registry.register(
        &mut SourceFd(&control.as_raw_fd()),
        Token(CONTROL),
        Interest::READABLE,
    )
}

impl Acceptor for Listener {
    type In = UnixStream;

    type Out = UnixStream;

    fn accept<T: Wait>(
        &self,
        rt: &T,
        _id: AcceptId,
        client: u32,
    ) -> Result<(UnixStream, UnixStream), Fault> {
        let Ok((input, _)) = self.listener.accept() else {
            return Err(Fault::Other);
        };
        let (Ok(output), Ok(stream)) = (input.try_clone(), input.try_clone()) else {
            return Err(Fault::Other);
        };
        if self.lines.lock(rt).come(Line { client, stream }) {
            return Ok((input, output));
        }
        Err(Fault::Other)
    }

    fn descriptor(&self, input: &UnixStream) -> Option<RawFd> {
        Some(input.as_raw_fd())
    }

    fn watch<T: Wait>(&self, rt: &T, client: u32) -> bool {
        let Some(descriptor) = self.lines.lock(rt).descriptor(client) else {
            return false;
        };
        let token = Token(CLIENTS + client as usize);
        self.registry
            .register(&mut SourceFd(&descriptor), token, Interest::PRIORITY)
            .is_ok()
    }

    fn unwatch<T: Wait>(&self, rt: &T, client: u32) {
        if let Some(descriptor) = self.lines.lock(rt).descriptor(client) {
            let _ = self.registry.deregister(&mut SourceFd(&descriptor));
        }
    }

    fn leave<T: Wait>(
        &self,
        rt: &T,
        _id: AcceptId,
        client: u32,
        input: UnixStream,
        output: UnixStream,
    ) {
        self.lines.lock(rt).leave(client);
        drop((input, output));
    }

    fn close<T: Wait, W: Watcher>(&self, rt: &T, _watcher: &W, closing: Closing) {
        self.lines.lock(rt).close(closing);
        libc::net::shutdown(self.listener.as_raw_fd(), libc::net::SHUT_RDWR);
    }

    fn dismiss(&self) {
        let _ = self.over.wake();
    }
}

/// Waits for clients that go, and for who asks the server to end.
#[derive(Drop)]
pub struct LineWatcher {
    poll: Poll,
    events: Events,
    control: Option<UnixListener>,
    // It is open so that there is a descriptor for who asks the server to end.
    spare: Option<UnixStream>,
    // Whether the server was asked to end.
    is_asked: bool,
    // Whether somebody may wait at the socket of control.
    ready: bool,
    // Who asked. They are connected until the watcher is dropped.
    askers: Vec<UnixStream>,
}

impl LineWatcher {
    /// Another socket at a place: who connects to it and sends a byte asks the server to end, and the second one to end
    /// at once. Its file stays when it is dropped.
    ///
    /// # Errors
    /// As `listen`, or where the socket cannot be watched. No file is left then.
    pub fn listen_for_end(
        &mut self,
        rt: &HostRuntime,
        alloc: Global,
        place: SocketPlace<'_>,
    ) -> io::Result<Inode> {
        let (control, file) = listen(rt, alloc, place.path, place.mode)?;
        if let Err(error) = watch_control(self.poll.registry(), &control) {
            remove_own(rt, place.path, file);
            return Err(error);
        }
        self.control = Some(control);
        self.spare = match UnixStream::pair(rt) {
            Ok((spare, _)) => Some(spare),
            Err(_) => None,
        };
        Ok(file)
    }

    /// Says to who asked the server to end whether it ended in order, and lets them go.
    pub fn tell_askers(&mut self, in_order: bool) {
        if let Some(control) = &self.control {
            for _ in 0..MOST_ASKERS {
                let Ok((asker, _)) = control.accept() else {
                    break;
                };
                if let Err(refused) = self.askers.push(asker) {
                    drop(refused);
                }
            }
        }
        for asker in &self.askers {
            if in_order {
                let _ = (&mut &*asker).write(ENDED);
            }
        }
    }

    /// What the next event tells, if it is news. A wait that fails is the last one.
    fn next(&mut self) -> Option<News>
        ensures told { MatchOption result (Unit {0}) (λ news. TellsAsked news self.new.is_asked) }
        ensures stays { self.old.is_asked ≡ true → self.new.is_asked ≡ true }
    {
        if self.ready {
            return self.order();
        }
        if self.poll.poll(&mut self.events, None).is_err() {
            return Some(News::Over);
        }
        let event = self.events.iter().next()?;
        match event.token().0 {
            OVER => Some(News::Over),
            CONTROL => {
                self.ready = true;
                None
            }
            token => {
                if event.is_write_closed() || event.is_error() {
                    return Some(News::Gone(client_of(token)));
                }
                None
            }
        }
    }

    /// Who waits first at the socket of control. Where descriptors ran out the spare one is given up for that.
    fn admit(&mut self) -> io::Result<UnixStream>
        ensures { self.new.is_asked ≡ self.old.is_asked }
    {
        let Some(control) = &self.control else {
            return Err(io::Error::from(io::ErrorKind::WouldBlock));
        };
        match control.accept() {
            Ok((asker, _)) => Ok(asker),
            Err(error) if error.kind() == io::ErrorKind::WouldBlock => Err(error),
            Err(error) => {
                let Some(spare) = self.spare.take() else {
                    return Err(error);
                };
                drop(spare);
                let (asker, _) = control.accept()?;
                Ok(asker)
            }
        }
    }

    /// Lets go who asked for nothing. Its descriptor is the spare one, where that was given up.
    fn let_go(&mut self, asker: UnixStream)
        ensures { self.new.is_asked ≡ self.old.is_asked }
    {
        let _ = asker.shutdown(Shutdown::Both);
        if self.spare.is_none() {
            self.spare = Some(asker);
        }
    }

    /// What the next one who waits at the socket of control asks for: the first that the server ends, any other that it
    /// ends at once. Where it cannot be let in, since there is no descriptor for it, it is taken to ask for the end.
    fn order(&mut self) -> Option<News>
        ensures told { MatchOption result (Unit {0}) (λ news. TellsAsked news self.new.is_asked) }
        ensures stays { self.old.is_asked ≡ true → self.new.is_asked ≡ true }
    {
        let asker = match self.admit() {
            Ok(asker) if asks(&asker) => Some(asker),
            Ok(asker) => {
                self.let_go(asker);
                return None;
            }
            Err(error) => {
                self.ready = false;
                if self.is_asked || error.kind() == io::ErrorKind::WouldBlock {
                    return None;
                }
                None
            }
        };
        let closing = if self.is_asked {
            Closing::Cut
        } else {
            Closing::Drained
        };
        self.is_asked = true;
        if let Some(asker) = asker {
            if let Err(refused) = self.askers.push(asker) {
                drop(refused);
            }
        }
        Some(News::Asked(closing))
    }
}

/// Whether who connected to the socket of control asks for something: a byte comes. Who only looked whether somebody
/// listens there closes.
fn asks(asker: &UnixStream) -> bool {
    let mut wanted = [pollfd {
        fd: asker.as_raw_fd(),
        events: POLLIN,
        revents: 0,
    }];
    poll(&mut wanted, PATIENCE) > 0 && matches!((&mut &*asker).read(&mut [0u8; 1]), Ok(1))
}

/// The client that has this token.
fn client_of(token: usize) -> u32 {
    u32::try_from(token.saturating_sub(CLIENTS)).unwrap_or(u32::MAX)
}

impl Watcher for LineWatcher {
    ghost asked = { λ w. w.is_asked };

    fn news<T: Wait>(&mut self, rt: &T) -> News {
        for _ in rt.forever() {
            if let Some(news) = self.next() {
                return news;
            }
        }
        News::Over
    }
}
