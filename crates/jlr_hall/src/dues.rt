//! How many resources the sessions have open, and whether a cycle is owed, as the one history says it: kept step by
//! step, so that nobody has to read the history, which exists in proofs alone.
ghost use Rattle.std.specs.Prelude.{◌≡◌, ◌-◌, ◌+◌, ◌^◌, ℕ, ◌<◌, false, length};
ghost use Rattle.jlr_hall.specs.Locking.{dues_after, count_at, owing_where, with_count, without};

use crate::effect::{
    Effect, gave_handle, gave_resource, lacks_resources, says_collected, says_given_up, was_refused,
};
use jlr_event::event::Reply;

/// So many numbers a seat may have.
const NUMBERS: usize = 256;

/// What sessions have open, and what is owed for it.
#[derive(Drop)]
pub(crate) struct Dues {
    /// For each seat: how many resources its session opened, less those that it closed itself. A count fits, since each
    /// opening is an entry.
    opened: [u64; NUMBERS],
    /// A cycle is owed to what sessions left open, to one that found no room for a resource, or in place of one that
    /// was given up.
    owed: bool,
}

impl Dues {
    /// Nothing is open, and nothing is owed.
    pub(crate) fn new() -> Self
        ensures long { length result.opened ≡ 256 }
        ensures counts { (k : ℕ) → k < 256 → count_at k result ≡ 0 }
        ensures owed { result.owed ≡ false }
    {
        Dues {
            opened: [0; NUMBERS],
            owed: false,
        }
    }

    /// Whether a cycle is owed.
    pub(crate) fn owed(&self) -> bool
        ensures { result ≡ self.now.owed }
    {
        self.owed
    }

    /// What an answered event of a seat changes.
    pub(crate) fn after<R>(&mut self, seat: u8, effect: Effect, reply: &Reply<R>)
        requires { count_at seat self.old + 1 < 2 ^ 64 }
        ensures { self.new ≡ dues_after seat effect reply.now self.old }
    {
        match effect {
            Effect::Leaves => {
                if !was_refused(reply) {
                    self.leave(seat);
                }
            }
            Effect::Opens => {
                if gave_handle(reply) {
                    self.open(seat);
                }
            }
            Effect::Closes => {
                if gave_resource(reply) {
                    self.close(seat);
                }
            }
            Effect::Prepares => self.owe_where(lacks_resources(reply)),
            Effect::Abandons => self.owe_where(says_given_up(reply)),
            Effect::Collects => {
                if says_collected(reply) {
                    self.owed = false;
                }
            }
            Effect::Nothing | Effect::Queues | Effect::Joins | Effect::Finishes => {}
        }
    }

    /// A cycle is owed where this is so.
    pub(crate) fn owe_where(&mut self, is_so: bool)
        ensures { self.new ≡ owing_where is_so self.old }
    {
        self.owed = is_so || self.owed;
    }

    /// A session opened a resource.
    fn open(&mut self, seat: u8)
        requires { count_at seat self.old + 1 < 2 ^ 64 }
        ensures { self.new ≡ with_count seat (count_at seat self.old + 1) self.old }
    {
        let seat = usize::from(seat);
        self.opened[seat] += 1;
    }

    /// A session closed a resource itself.
    fn close(&mut self, seat: u8)
        ensures { self.new ≡ with_count seat (count_at seat self.old - 1) self.old }
    {
        let seat = usize::from(seat);
        self.opened[seat] = self.opened[seat].saturating_sub(1);
    }

    /// A session left. What it left open owes a cycle.
    fn leave(&mut self, seat: u8)
        ensures { self.new ≡ without seat self.old }
    {
        let seat = usize::from(seat);
        self.owed = self.opened[seat] > 0 || self.owed;
        self.opened[seat] = 0;
    }
}
