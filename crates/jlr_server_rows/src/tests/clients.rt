//! Clients that send lines and look at what they are answered.
use jlr_device::gate::Gate;
use jlr_listener::acceptor::{AcceptId, Acceptor};
use jlr_types::Fault;
use std::alloc::Global;
use std::io::{self, ErrorKind, Read, Write};
use std::sync::Wait;
use std::sync::atomic::{AtomicU64, Ordering};
use std::thread;
use std::time::Duration;

/// How often somebody looks whether another is so far.
const TURNS: u64 = 1_000_000;

/// How often a client asks the same until it is answered as it waits for.
const ASKS: u64 = 65_000;

/// What ends the last of three commands that are sent again, all three, until it counts fewer objects than it did
/// before.
const UNTIL_FEWER: &str = " until fewer";

/// A client: its commands and what each is answered, parted by `; `. A command that ends with ` until` is sent again
/// until it is answered so; a `stat` that ends with ` until fewer`, with the two commands before it, until it counts
/// fewer objects than it did before.
#[derive(Drop)]
pub(super) struct Client {
    pub commands: &'static str,
    pub answers: &'static str,
    /// How many commands were sent, those that were sent again counted once.
    sent: AtomicU64,
    /// How often the last one was sent.
    asked: AtomicU64,
    /// How many lines came back.
    replies: AtomicU64,
    /// How many lines came back as they were to.
    right: AtomicU64,
    /// Whether the last line came back as it was to.
    last_right: AtomicU64,
    /// How many objects the last `stat` counted.
    objects: AtomicU64,
    /// How often the three commands were sent again.
    rounds: AtomicU64,
    /// How many lines it takes: one after those fails.
    takes: u64,
}

/// What a client waits for before it comes.
#[derive(Clone, Copy)]
pub(super) enum After {
    Nothing,
    /// The first client was answered so often.
    Replies(u64),
    /// A read has come to the gate.
    Read,
}

impl Client {
    pub(super) fn new(commands: &'static str, answers: &'static str) -> Self {
        Client::taking(commands, answers, u64::MAX)
    }

    /// One that takes so many lines.
    pub(super) fn taking(commands: &'static str, answers: &'static str, takes: u64) -> Self {
        Client {
            commands,
            answers,
            sent: AtomicU64::new(0),
            asked: AtomicU64::new(0),
            replies: AtomicU64::new(0),
            right: AtomicU64::new(0),
            last_right: AtomicU64::new(0),
            objects: AtomicU64::new(0),
            rounds: AtomicU64::new(0),
            takes,
        }
    }

    /// How many lines came back.
    pub(super) fn replies(&self) -> u64 {
        self.replies.load(Ordering::SeqCst)
    }

    /// Whether each command was sent and answered as it was to.
    pub(super) fn is_served(&self) -> bool {
        let wanted = self.answers.split("; ").count() as u64;
        self.sent.load(Ordering::SeqCst) == self.commands.split("; ").count() as u64
            && self.right.load(Ordering::SeqCst) == wanted
    }

    /// The next line that it sends: the last one again, where that waits for another answer; none at its end.
    fn next(&self) -> Option<&'static str> {
        let sent = self.sent.load(Ordering::SeqCst);
        let last = nth(self.commands, sent.wrapping_sub(1));
        if last.is_some_and(|last| last.ends_with(UNTIL_FEWER)) {
            if self.last_right.load(Ordering::SeqCst) == 1 {
                self.right.fetch_add(1, Ordering::SeqCst);
            } else if self.rounds.fetch_add(1, Ordering::SeqCst) < ASKS {
                return self.again(sent);
            }
        }
        if let Some(command) = last.and_then(|last| last.strip_suffix(" until")) {
            if self.last_right.load(Ordering::SeqCst) == 1 {
                self.right.fetch_add(1, Ordering::SeqCst);
            } else if self.asked.fetch_add(1, Ordering::SeqCst) < ASKS {
                return Some(command);
            }
        }
        let command = nth(self.commands, sent)?;
        self.sent.store(sent.wrapping_add(1), Ordering::SeqCst);
        self.asked.store(0, Ordering::SeqCst);
        let command = command.strip_suffix(UNTIL_FEWER).unwrap_or(command);
        Some(command.strip_suffix(" until").unwrap_or(command))
    }

    /// The first of the last three commands, from which it goes on again: the answers to the first two no longer count.
    fn again(&self, sent: u64) -> Option<&'static str> {
        self.sent.store(sent.wrapping_sub(2), Ordering::SeqCst);
        self.right.fetch_sub(2, Ordering::SeqCst);
        nth(self.commands, sent.wrapping_sub(3))
    }

    /// Whether a `stat` counts fewer objects than the one before.
    fn counts_fewer(&self, line: &str) -> bool {
        let Some(objects) = objects_in(line) else {
            return false;
        };
        objects < self.objects.swap(objects, Ordering::SeqCst)
    }

    /// Whether a line is the answer that this command waits for.
    fn is_right(&self, at: u64, line: &str) -> bool {
        if nth(self.commands, at).is_some_and(|command| command.ends_with(UNTIL_FEWER)) {
            return self.counts_fewer(line);
        }
        nth(self.answers, at) == Some(line)
    }

    /// A line came back.
    fn answered(&self, line: &str) {
        let at = self.sent.load(Ordering::SeqCst).wrapping_sub(1);
        let is_right = self.is_right(at, line);
        let waits = nth(self.commands, at).is_some_and(|command| command.ends_with(" until")
            || command.ends_with(UNTIL_FEWER));
        self.last_right.store(u64::from(is_right), Ordering::SeqCst);
        if is_right && !waits {
            self.right.fetch_add(1, Ordering::SeqCst);
        }
        self.replies.fetch_add(1, Ordering::SeqCst);
    }
}

/// How many objects an answer to `stat` counts.
fn objects_in(line: &str) -> Option<u64> {
    let (count, _) = line.strip_prefix("stat ")?.split_once(' ')?;
    count.parse().ok()
}

/// The part of this number, from 0 on, of those that `; ` parts.
fn nth(parts: &'static str, number: u64) -> Option<&'static str> {
    let mut at = 0u64;
    for part in parts.split("; ") {
        if at == number {
            return Some(part);
        }
        at = at.wrapping_add(1);
    }
    None
}

/// What a client sends, a line a read.
#[derive(Drop)]
pub(super) struct Lines<'a> {
    client: &'a Client,
    line: &'static str,
    ended: bool,
}

impl Read for Lines<'_> {
    fn read(&mut self, buf: &mut [u8]) -> io::Result<usize> {
        if self.ended {
            self.ended = false;
            match self.client.next() {
                Some(line) => self.line = line,
                None => {
                    self.ended = true;
                    return Ok(0);
                }
            }
        }
        let bytes = self.line.as_bytes();
        let count = bytes.len().min(buf.len());
        buf[..count].copy_from_slice(&bytes[..count]);
        if count < buf.len() && count == bytes.len() {
            buf[count] = b'\n';
            self.ended = true;
            return Ok(count + 1);
        }
        self.line = self.line.get(count..).unwrap_or("");
        Ok(count)
    }
}

/// What comes back to a client.
#[derive(Drop)]
pub(super) struct Replies<'a> {
    client: &'a Client,
    line: Vec<u8>,
}

/// A whole line came back.
fn end_line(client: &Client, line: &mut Vec<u8>) {
    client.answered(str::from_utf8(line.as_slice()).unwrap_or(""));
    line.clear();
}

impl Write for Replies<'_> {
    fn write(&mut self, bytes: &[u8]) -> io::Result<usize> {
        if self.client.replies() >= self.client.takes {
            return Err(ErrorKind::Other.into());
        }
        for byte in bytes {
            if *byte == b'\n' {
                end_line(self.client, &mut self.line);
            } else {
                self.line.push(*byte)?;
            }
        }
        Ok(bytes.len())
    }

    fn flush(&mut self) -> io::Result<()> {
        Ok(())
    }
}

impl Client {
    /// What it sends, and where its replies go.
    fn ends(&self, alloc: Global) -> (Lines<'_>, Replies<'_>) {
        (
            Lines {
                client: self,
                line: "",
                ended: true,
            },
            Replies {
                client: self,
                line: Vec::new(alloc),
            },
        )
    }
}

/// The clients of a test, in the order in which they come, and the gate at which reads wait: it opens once the last
/// client was answered so often.
#[derive(Drop)]
pub(super) struct Clients<'a> {
    rt: HostRuntime,
    clients: &'a [Client],
    /// What the second client waits for.
    after: After,
    opens_at: u64,
    arrived: AtomicU64,
    come: AtomicU64,
}

impl<'a> Clients<'a> {
    pub(super) fn new(rt: HostRuntime, clients: &'a [Client], after: After, opens_at: u64) -> Self {
        Clients {
            rt,
            clients,
            after,
            opens_at,
            arrived: AtomicU64::new(0),
            come: AtomicU64::new(0),
        }
    }

    /// Whether the second client may come.
    fn may_come(&self) -> bool {
        match self.after {
            After::Nothing => true,
            After::Read => self.arrived.load(Ordering::SeqCst) > 0,
            After::Replies(count) => self
                .clients
                .first()
                .is_some_and(|first| first.replies() >= count),
        }
    }

    /// Waits until the second client may come. Whether it may.
    fn wait(&self) -> bool {
        for _ in 0..TURNS {
            if self.may_come() {
                return true;
            }
            pause(self.rt);
        }
        false
    }

    /// Whether each was served.
    pub(super) fn are_served(&self) -> bool {
        self.clients.iter().all(Client::is_served)
    }
}

/// Lets others run for a moment.
pub(super) fn pause(rt: HostRuntime) {
    thread::sleep(&rt, Duration::from_micros(10));
}

impl<'a> Acceptor for &Clients<'a> {
    type In = Lines<'a>;

    type Out = Replies<'a>;

    fn accept<T: Wait>(
        &self,
        _rt: &T,
        _id: AcceptId,
        _client: u32,
    ) -> Result<(Lines<'a>, Replies<'a>), Fault> {
        let number = self.come.fetch_add(1, Ordering::SeqCst);
        if number > 0 && !self.wait() {
            return Err(Fault::Other);
        }
        match self.clients.get(number as usize) {
            Some(client) => Ok(client.ends(self.rt.alloc())),
            None => Err(Fault::Other),
        }
    }

    fn leave<T: Wait>(
        &self,
        _rt: &T,
        _id: AcceptId,
        _client: u32,
        input: Lines<'a>,
        output: Replies<'a>,
    ) {
        drop((input, output));
    }
}

impl Gate for &Clients<'_> {
    fn arrived(&self) {
        self.arrived.fetch_add(1, Ordering::SeqCst);
    }

    fn turn(&self) -> bool {
        let is_open = self
            .clients
            .last()
            .is_some_and(|last| last.replies() >= self.opens_at);
        if !is_open {
            pause(self.rt);
        }
        is_open
    }
}
