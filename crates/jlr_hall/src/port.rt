//! A seat as what the asks of a session go to.
ghost use Rattle.std.specs.Prelude.{◌≡◌, IfErr, IfSome, None};
ghost use Rattle.jlr_machine.specs.Data.{Brings};
ghost use Rattle.jlr_event.specs.Events.{ask_of};
ghost use Rattle.jlr_machine.specs.declared.ask.Ask.TheVariants.{CheckOut, Remove};
ghost use Rattle.jlr_event.specs.declared.event.Event.TheVariants.{Ask as Asks};
ghost use Rattle.jlr_event.specs.declared.event.Reply.TheVariants.{Answered};
ghost use Rattle.jlr_machine.specs.declared.ask.Answer.TheVariants.{Refused};
ghost use Rattle.jlr_hall.specs.Asking.{Asked};

use crate::chairs::Removal;
use crate::hall::Hall;
use crate::seat::Seat;
use crate::step::Limited;
use crate::vigil::Vigil;
use jlr_event::event::{Event, Reply};
use jlr_log::Naming;
use jlr_machine::ask::{Answer, Ask};
use jlr_machine::data::CopyRoom;
use jlr_session::port::{Port, ReadRoom};
use jlr_types::{Handle, Mutator, Refusal};
use std::marker::Model;
use std::sync::Wait;

/// A seat with its hall, and who looks after its client. Contracts see the seat.
#[derive(Drop)]
pub struct SeatPort<'a, R, L: Naming + Limited, T, V> {
    rt: &'a T,
    hall: &'a Hall<R, L>,
    vigil: V,
    seat: Seat<R, L>,
}

impl<'a, R, L: Naming + Limited, T, V> Model for SeatPort<'a, R, L, T, V> {
    ghost use Rattle.jlr_log.specs.Seeing.{Seen};
    ghost use Rattle.jlr_hall.specs.declared.step.Step.{Step};

    ghost Value = { Seen (Step R) };

    ghost view = { λ p. p.seat };
}

impl<'a, R, L: Naming + Limited, T, V: Drop> SeatPort<'a, R, L, T, V> {
    /// A seat at its hall, whose client is looked after while a `Remove` of it waits.
    pub fn new(rt: &'a T, hall: &'a Hall<R, L>, vigil: V, seat: Seat<R, L>) -> Self
        ensures { result ≡ seat }
    {
        SeatPort {
            rt,
            hall,
            vigil,
            seat,
        }
    }

    /// The seat, as it was left.
    pub fn into_seat(self) -> Seat<R, L>
        ensures { result ≡ self.entry }
    {
        let SeatPort { seat, .. } = self;
        seat
    }
}

impl<'a, R: Drop, L: Naming + Limited, T: Wait, V: Vigil> SeatPort<'a, R, L, T, V> {
    /// A `Remove`, which waits. It is declined where nobody can look after the client meanwhile.
    fn remove(&mut self, removal: Removal) -> Reply<R>
        ensures asked { Asked L.limits self.old (Asks (Remove removal.mutator removal.queue)) result self.new }
        ensures named { self.new.seat ≡ self.old.seat }
    {
        self.seat.remove(self.rt, self.hall, &self.vigil, removal)
    }

    /// Any other event.
    fn ask_once(&mut self, event: Event<R>, room: Option<CopyRoom>) -> Reply<R>
        requires { Brings room (ask_of event) }
        ensures asked { Asked L.limits self.old event result self.new }
        ensures named { self.new.seat ≡ self.old.seat }
    {
        self.seat.ask_once(self.rt, self.hall, event, room)
    }
}

impl<'a, R: Drop, L: Naming + Limited, T: Wait, V: Vigil> Port<R> for SeatPort<'a, R, L, T, V> {
    ghost use Rattle.jlr_machine.specs.declared.ask.Answer.TheVariants.{Refused};
    ghost use Rattle.jlr_machine.specs.Data.{Brings};
    ghost use Rattle.std.specs.Prelude.{true};
    ghost use Rattle.jlr_event.specs.Asks.{carries_none};
    ghost use Rattle.jlr_event.specs.Events.{ask_of, said_by};
    ghost use Rattle.jlr_event.specs.declared.event.Event.TheVariants.{Ask as Asks};
    ghost use Rattle.jlr_event.specs.declared.event.Reply.TheVariants.{Answered};
    ghost use Rattle.jlr_hall.specs.Asking.{Asked};
    ghost use Rattle.jlr_hall.specs.Ports.{by_seat};

    ghost asking = { by_seat L.limits };

    fn mutator(&self) -> Mutator
        ensures { result ≡ self.now.seat }
    {
        Mutator::new(self.seat.index())
    }

    fn read_room(&self, guard: Handle) -> Result<ReadRoom, Refusal>
        ensures declined { IfErr result (λ by.
            Asked L.limits self.now (Asks (CheckOut self.now.seat guard)) (Answered (Refused by) None) self.now) }
    {
        let _declined = guard;
        match ReadRoom::new(self.seat.alloc()) {
            Ok(room) => Ok(room),
            Err(_) => Err(Refusal::NoMemory),
        }
    }

    fn ask(&mut self, event: Event<R>, room: Option<CopyRoom>) -> Reply<R>
        requires { Brings room (ask_of event) }
        ensures asked { Asked L.limits self.old event result self.new }
        ensures named { self.new.seat ≡ self.old.seat }
    {
        if let Some(removal) = removal_of(&event) {
            return self.remove(removal);
        }
        self.ask_once(event, room)
    }

    #[tactic(auto, using(jlr_event::proofs::Carrying::hands_nothing_in))]
    fn answer(&mut self, ask: Ask, answer: &mut Answer)
        requires plain { carries_none ask ≡ true }
        ensures answered { (reply : Reply R) × Asked L.limits self.old (Asks ask) reply self.new
            × (answer.new ≡ said_by reply) }
        ensures named { self.new.seat ≡ self.old.seat }
    {
        self.ask(Event::ask(ask), None).answer_into(answer);
    }

    fn settle(&mut self)
        ensures settled { self.new ≡ self.old }
        ensures named { self.new.seat ≡ self.old.seat }
    {}
}

/// The `Remove` that an event is.
fn removal_of<R>(event: &Event<R>) -> Option<Removal>
    ensures { IfSome result (λ removal. event.now ≡ Asks (Remove removal.mutator removal.queue)) }
{
    let Event::Ask(ask) = event else {
        return None;
    };
    match ask.get() {
        Ask::Remove { mutator, queue } => Some(Removal {
            mutator: *mutator,
            queue: *queue,
        }),
        _ => None,
    }
}
