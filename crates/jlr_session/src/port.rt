//! What the asks of a session go to.
use jlr_event::event::{Event, Reply};
use jlr_machine::ask::{Answer, Ask};
use jlr_machine::data::{CopyRoom, Data};
use jlr_types::{Handle, Mutator, Refusal};
use std::alloc::{AllocError, Global};

/// Room for what a call reads, and for the copies of it in what is told of the call.
#[derive(Drop)]
pub struct ReadRoom {
    pub(crate) bytes: Data,
    pub(crate) copies: CopyRoom,
}

impl ReadRoom {
    /// Such room.
    ///
    /// # Errors
    /// `AllocError` where there is no memory.
    pub fn new(alloc: Global) -> Result<Self, AllocError> {
        Ok(ReadRoom {
            bytes: Data::new(alloc)?,
            copies: CopyRoom::new(alloc)?,
        })
    }
}

/// What answers the asks of one mutator: a heap, or a seat at a heap that others share.
pub trait Port<R> {
    ghost use Rattle.std.specs.Prelude.{◌≡◌, IfErr, None, true};
    ghost use Rattle.jlr_machine.specs.Data.{Brings};
    ghost use Rattle.jlr_machine.specs.declared.ask.Answer.TheVariants.{Refused};
    ghost use Rattle.jlr_event.specs.Asks.{carries_none};
    ghost use Rattle.jlr_event.specs.Events.{ask_of, said_by};
    ghost use Rattle.jlr_machine.specs.declared.ask.Ask.TheVariants.{CheckOut};
    ghost use Rattle.jlr_event.specs.declared.event.Event.TheVariants.{Ask as Asks};
    ghost use Rattle.jlr_event.specs.declared.event.Reply.TheVariants.{Answered};
    ghost use Rattle.jlr_session.specs.Asks.{Asking};

    // in whose name it asks, what an ask and its reply do, and what a settling does
    ghost asking: { Asking Self R };

    /// The mutator in whose name it asks. It is the same as long as there is the port.
    fn mutator(&self) -> Mutator
        ensures { result ≡ asking.mutator self.now };

    /// Room for what a call reads of a guard's resource.
    ///
    /// # Errors
    /// Where the room cannot be had, that by which the port declines to check the resource out.
    fn read_room(&self, guard: Handle) -> Result<ReadRoom, Refusal>
        ensures declined { IfErr result (λ by.
            asking.asks self.now (Asks (CheckOut (asking.mutator self.now) guard)) (Answered (Refused by) None)
            self.now) };

    /// Asks, and gives the reply. With the end of a call that read comes the room in which it is told again.
    fn ask(&mut self, event: Event<R>, room: Option<CopyRoom>) -> Reply<R>
        requires room { Brings room (ask_of event) }
        ensures asked { asking.asks self.old event result self.new }
        ensures named { asking.mutator self.new ≡ asking.mutator self.old };

    /// Asks what carries no resource, neither in nor out, and puts the answer in the place of another.
    fn answer(&mut self, ask: Ask, answer: &mut Answer)
        requires plain { carries_none ask ≡ true }
        ensures answered { (reply : Reply R) × asking.asks self.old (Asks ask) reply self.new
            × (answer.new ≡ said_by reply) }
        ensures named { asking.mutator self.new ≡ asking.mutator self.old };

    /// Does what is left to do after a reply went out.
    fn settle(&mut self)
        ensures settled { asking.settling self.old self.new }
        ensures named { asking.mutator self.new ≡ asking.mutator self.old };
}
