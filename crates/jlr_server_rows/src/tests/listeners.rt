//! A server on a Unix socket, and its clients as threads: some are answered, some go while they wait, and one asks the
//! server to end.
ghost use Rattle.std.specs.Prelude.{◌≡◌, IfOk, length};

use jlr_device::real::RealDevice;
use jlr_listener::listener::{LineWatcher, Listener, SocketPlace};
use jlr_listener::socket_file::remove_own;
use jlr_server::hall::history::Blank;
use jlr_server::server::{ServeFault, Watched, serve_watched};
use jlr_types::Limits;
use std::alloc::AllocError;
use std::io::{Read, Write};
use std::marker::Brand;
use std::net::Shutdown;
use std::os::unix::net::UnixStream;
use std::sync::Wait;
use std::test::Fail;
use std::thread;
use std::thread::Threads;

/// A client: what it sends, what it is answered, and how it goes.
#[derive(Clone, Copy)]
struct Visitor {
    sends: &'static str,
    answers: &'static str,
    goes: Goes,
}

/// How a client goes.
#[derive(Clone, Copy, PartialEq, Eq)]
enum Goes {
    /// It reads on to the end.
    AtTheEnd,
    /// It sends no more, and reads on to the end.
    HalfClosed,
    /// It reads so much as is to be answered, and is gone.
    Suddenly,
}

/// Whether a client is answered as it says.
fn is_answered(rt: HostRuntime, path: &str, visitor: Visitor) -> bool {
    let Ok(mut stream) = UnixStream::connect(&rt, path) else {
        return false;
    };
    if stream.write_all(visitor.sends.as_bytes()).is_err() {
        return false;
    }
    if visitor.goes == Goes::HalfClosed && stream.shutdown(Shutdown::Write).is_err() {
        return false;
    }
    let mut answers = Vec::new(rt.alloc());
    if visitor.goes != Goes::Suddenly {
        let done = stream.read_to_end(&mut answers);
        return done.is_ok() && answers.as_slice() == visitor.answers.as_bytes();
    }
    if answers.resize(visitor.answers.len(), 0).is_err() {
        return false;
    }
    let done = stream.read_exact(answers.as_mut_slice());
    done.is_ok() && answers.as_slice() == visitor.answers.as_bytes()
}

/// Whether clients are answered as they say, one after the other.
fn are_answered(rt: HostRuntime, path: &'static str, visitors: &'static [Visitor]) -> bool {
    visitors
        .iter()
        .all(|visitor| is_answered(rt, path, *visitor))
}

/// Asks a server to end, and waits until it says that it has ended in order.
fn has_ended(rt: HostRuntime, control: &str) -> bool {
    let Ok(mut stream) = UnixStream::connect(&rt, control) else {
        return false;
    };
    let mut word = Vec::new(rt.alloc());
    stream.write_all(b".").is_ok()
        && stream.read_to_end(&mut word).is_ok()
        && word.as_slice() == b".".as_slice()
}

/// What a server leaves of one row: how many clients were accepted, and how many entries the first two seats have.
type Left = (u32, usize, usize);

/// How many clients were accepted, and how many entries the first two seats have. Who asked for the end is told.
fn served<T: Threads + Wait + Sync>(
    rt: HostRuntime,
    threads: &T,
    limits: Limits,
    total: u32,
    listener: &Listener,
    watcher: LineWatcher,
) -> Option<Left> {
    let devices = devices(rt, limits.sessions).ok()?;
    let blank = Blank::new(rt.alloc()).ok()?;
    left_of(serve_watched::<_, _, Brand, _, _>(
        threads,
        rt.alloc(),
        limits,
        total,
        listener,
        watcher,
        devices,
        blank,
    ))
}

/// A device for each session.
fn devices(rt: HostRuntime, sessions: u32) -> Result<Vec<RealDevice>, AllocError>
    ensures { IfOk result (λ devices. length devices.items ≡ sessions) }
{
    let mut devices = Vec::new(rt.alloc());
    for _ in 0..sessions {
        devices.push(RealDevice::new(rt))?;
    }
    Ok(devices)
}

/// What is left where clients were served. The book is let go.
fn left_of<R: Drop, D: Drop>(
    served: Result<Watched<R, D, LineWatcher>, ServeFault>,
) -> Option<Left> {
    let (served, mut watcher) = served.ok()?.into_parts();
    watcher.tell_askers(true);
    drop(watcher);
    let accepts = served.accepts;
    let (one, other) = super::player::entries(&served.book);
    drop(served);
    Some((accepts, one, other))
}

/// Two clients beside each other and then the others, one after the other.
fn serve_clients<T: Threads + Wait + Sync>(
    rt: HostRuntime,
    threads: &T,
    path: &'static str,
    (sessions, total): (u32, u32),
    first: &'static [Visitor],
    second: &'static [Visitor],
) -> Result<Left, Fail> {
    let limits = Limits::checked(16, sessions, 1, 4, 100, 64)
        .ok()
        .ok_or("limits")?;
    let place = SocketPlace { path, mode: None };
    let (listener, watcher, file) = Listener::bind(&rt, rt.alloc(), place)?;
    let one = thread::spawn(threads, move || are_answered(rt, path, first))?;
    let other = thread::spawn(threads, move || are_answered(rt, path, second))?;
    let left = served(rt, threads, limits, total, &listener, watcher);
    let are_answered = one.join(threads) & other.join(threads);
    remove_own(&rt, path, file);
    if !are_answered {
        return Err("a client was answered otherwise".into());
    }
    Ok(left.ok_or("it was not served")?)
}

/// What a client sends, and what it is answered whatever others do.
const QUIET: Visitor = Visitor {
    sends: "new -\nweak 1 0\nsame 1 1\nint 1 0\nbye\n",
    answers: "= 1\n= 2\nyes\n! 6\nok\n",
    goes: Goes::AtTheEnd,
};

/// The same without its `bye`.
const HALF: Visitor = Visitor {
    sends: "new -\nweak 1 0\nsame 1 1\n",
    answers: "= 1\n= 2\nyes\n",
    goes: Goes::HalfClosed,
};

/// It waits for a death, and is gone.
const WAITING: Visitor = Visitor {
    sends: "queue\nbind q 1\nremove 1\n",
    answers: "= 1\nok\n",
    goes: Goes::Suddenly,
};

/// The next at that seat learns of the death that the one who is gone would have taken.
const NEXT: Visitor = Visitor {
    sends: "find q\nnew -\nweak 2 1\nenqueue 3\nremove 1\nbye\n",
    answers: "= 1\n= 2\n= 3\nyes\n= 4\nok\n",
    goes: Goes::AtTheEnd,
};

#[test]
fn clients_of_a_socket(rt: HostRuntime) -> Result<(), Fail> {
    let left = serve_clients(rt, &rt, "refheap_socket", (2, 2), &[QUIET], &[QUIET])?;
    if left.0 != 2 {
        return Err("another number of clients was accepted".into());
    }
    Ok(())
}

#[test]
fn a_half_closed_client_is_answered(rt: HostRuntime) -> Result<(), Fail> {
    let left = serve_clients(rt, &rt, "refheap_half", (1, 2), &[HALF, QUIET], &[])?;
    if left.0 != 2 {
        return Err("another number of clients was accepted".into());
    }
    Ok(())
}

/// Its join, three asks less the `remove`, which is no entry, and its leave; then six asks more, a join and a leave.
#[test]
fn a_client_that_is_gone_takes_nothing(rt: HostRuntime) -> Result<(), Fail> {
    let left = serve_clients(rt, &rt, "refheap_gone", (1, 2), &[WAITING, NEXT], &[])?;
    if left != (2, 11, 0) {
        return Err("the history is another one".into());
    }
    Ok(())
}

/// A client waits for a death that never comes, and then the server is asked to end: its `remove` is refused, and it
/// leaves.
#[test]
fn a_server_ends_in_order(rt: HostRuntime) -> Result<(), Fail> {
    let limits = Limits::checked(16, 1, 1, 4, 100, 64).ok().ok_or("limits")?;
    let (path, control) = ("refheap_ends", "refheap_control");
    let place = SocketPlace { path, mode: None };
    let beside = SocketPlace {
        path: control,
        mode: Some(0o600),
    };
    let (listener, mut watcher, file) = Listener::bind(&rt, rt.alloc(), place)?;
    let control_file = watcher.listen_for_end(&rt, rt.alloc(), beside)?;
    let client = thread::spawn(&rt, move || waits_and_stops(rt, path, control))?;
    let left = served(rt, &rt, limits, 1_000, &listener, watcher);
    let is_told = client.join(&rt);
    remove_own(&rt, path, file);
    remove_own(&rt, control, control_file);
    if !is_told || left != Some((1, 4, 0)) {
        return Err("it did not end in order".into());
    }
    Ok(())
}

/// A client that waits; then the server is asked to end. Whether both are answered as they are to be.
fn waits_and_stops(rt: HostRuntime, path: &str, control: &str) -> bool {
    let Ok(mut stream) = UnixStream::connect(&rt, path) else {
        return false;
    };
    if stream.write_all(b"queue\nremove 1\n").is_err() {
        return false;
    }
    let mut first = [0u8; 4];
    if stream.read_exact(&mut first).is_err() || first != *b"= 1\n" {
        return false;
    }
    let has_ended = has_ended(rt, control);
    let mut rest = Vec::new(rt.alloc());
    let done = stream.read_to_end(&mut rest);
    has_ended && done.is_ok() && rest.as_slice() == b"! 18\n".as_slice()
}
