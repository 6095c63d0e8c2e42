//! Who sits on the seats of the sessions, which of them wait in a `remove`, and how many sessions have joined. It
//! decides who waits and who is woken, and nothing that an answer tells.
use crate::effect::{Effect, was_refused};
use jlr_event::event::Reply;
use jlr_types::{Handle, Mutator};

/// The most seats of sessions.
pub(crate) const MOST_SESSIONS: u8 = 64;

/// Who sits on the seat of a session.
#[derive(Clone, Copy, PartialEq, Eq)]
enum Sitter {
    /// Nobody who could be called off: a `remove` waits.
    Unnamed,
    /// The client of this number: a `remove` waits.
    Client(u32),
    /// A client that is gone: a `remove` does not wait, and takes nothing.
    Gone,
}

/// A `Remove` that waits until its queue holds something.
#[derive(Clone, Copy)]
pub(crate) struct Removal {
    pub(crate) mutator: Mutator,
    pub(crate) queue: Handle,
}

/// The seat of a session.
#[derive(Clone, Copy)]
struct Chair {
    sitter: Sitter,
    /// The `remove` in which it waits.
    waits: Option<Removal>,
}

/// The seats of the sessions, and what is to come.
#[derive(Drop)]
pub(crate) struct Chairs {
    chairs: [Chair; MOST_SESSIONS as usize],
    joined: u32,
    /// How many seats a client sits on.
    seated: u32,
    /// No `remove` waits any more.
    nobody_waits: bool,
    /// How often something was closed, modulo 2^64: a client stood up, or a job ended.
    closings: u64,
}

impl Chairs {
    /// Nobody has sat down, and nobody has joined.
    pub(crate) fn new() -> Self {
        let empty = Chair {
            sitter: Sitter::Unnamed,
            waits: None,
        };
        Chairs {
            chairs: [empty; MOST_SESSIONS as usize],
            joined: 0,
            seated: 0,
            nobody_waits: false,
            closings: 0,
        }
    }

    /// A client of this number sits down.
    pub(crate) fn sit(&mut self, seat: u8, client: u32) {
        if let Some(chair) = self.chairs.get_mut(usize::from(seat)) {
            chair.sitter = Sitter::Client(client);
            self.seated = self.seated.saturating_add(1);
        }
    }

    /// The client at a seat stands up, and what belonged to it is closed.
    pub(crate) fn stand(&mut self, seat: u8) {
        if let Some(chair) = self.chairs.get_mut(usize::from(seat)) {
            chair.sitter = Sitter::Unnamed;
            self.seated = self.seated.saturating_sub(1);
            self.closings = self.closings.wrapping_add(1);
        }
    }

    /// The client of this number is gone. The seat that waits for it, if one does.
    pub(crate) fn call_off(&mut self, client: u32) -> Option<u8> {
        for seat in 0..MOST_SESSIONS {
            if let Some(chair) = self.chairs.get_mut(usize::from(seat)) {
                if chair.sitter == Sitter::Client(client) {
                    chair.sitter = Sitter::Gone;
                    return chair.waits.map(|_| seat);
                }
            }
        }
        None
    }

    /// Whether the client at a seat is gone.
    pub(crate) fn is_gone(&self, seat: u8) -> bool {
        match self.chairs.get(usize::from(seat)) {
            Some(chair) => chair.sitter == Sitter::Gone,
            None => false,
        }
    }

    /// A seat begins to wait, or has waited.
    pub(crate) fn waits(&mut self, seat: u8, removal: Option<Removal>) {
        if let Some(chair) = self.chairs.get_mut(usize::from(seat)) {
            chair.waits = removal;
        }
    }

    /// In which `remove` a seat waits.
    pub(crate) fn removal(&self, seat: u8) -> Option<Removal> {
        match self.chairs.get(usize::from(seat)) {
            Some(chair) => chair.waits,
            None => None,
        }
    }

    /// What an answered event changes.
    pub(crate) fn after<R>(&mut self, effect: Effect, reply: &Reply<R>) {
        match effect {
            Effect::Joins if !was_refused(reply) => self.joined = self.joined.saturating_add(1),
            Effect::Leaves if !was_refused(reply) => self.joined = self.joined.saturating_sub(1),
            Effect::Finishes => self.closings = self.closings.wrapping_add(1),
            _ => {}
        }
    }

    /// No `remove` waits any more.
    pub(crate) fn call_all_off(&mut self) {
        self.nobody_waits = true;
    }

    /// Whether no `remove` waits any more.
    pub(crate) fn nobody_waits(&self) -> bool {
        self.nobody_waits
    }

    /// How often something was closed, modulo 2^64.
    pub(crate) fn closings(&self) -> u64 {
        self.closings
    }

    /// Whether a client sits on a seat, or a session has joined and not left.
    pub(crate) fn is_any_there(&self) -> bool {
        self.joined > 0 || self.seated > 0
    }
}
