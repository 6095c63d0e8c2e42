//! A `remove` of a seat whose client is gone takes nothing, and one of the next client there does; once nobody waits
//! any more it is refused, and so is one that would wait where nobody can look after the client.
ghost use Rattle.std.specs.Prelude.{◌≡◌};

use jlr_event::event::{Event, Reply};
use jlr_hall::hall::Hall;
use jlr_hall::history::{Blank, Naming};
use jlr_hall::port::SeatPort;
use jlr_hall::seat::Seat;
use jlr_hall::step::{Limited, Step};
use jlr_hall::vigil::{NoVigil, Vigil};
use jlr_machine::ask::{Answer, Ask};
use jlr_session::port::Port;
use jlr_types::{Handle, Layout, Limits, RefKind, Refusal};
use std::alloc::Global;
use std::marker::Brand;
use std::sync::Wait;
use std::test::Fail;

/// The client that sits there first, and the next one.
const FIRST: u32 = 7;

const NEXT: u32 = 8;

/// Cannot look after a client.
#[derive(Clone, Copy)]
struct Blind;

impl Vigil for Blind {
    fn begin(&self) -> bool {
        false
    }
}

/// How a `remove` on the queue 1 ends.
fn remove<L: Naming + Limited, T: Wait, V: Vigil>(
    port: &mut SeatPort<'_, u32, L, T, V>,
) -> Option<Refusal> {
    let mutator = port.mutator();
    let queue = Handle::new(1);
    let reply = port.ask(Event::ask(Ask::Remove { mutator, queue }), None);
    let refusal = match &reply {
        Reply::Answered { answer, .. } => match answer {
            Answer::Refused(refusal) => Some(*refusal),
            _ => None,
        },
        Reply::Marked(_) => None,
    };
    drop(reply);
    refusal
}

/// The mutator joins, and makes a queue.
fn begin<L: Naming + Limited, T: Wait, V: Vigil>(port: &mut SeatPort<'_, u32, L, T, V>) {
    let mutator = port.mutator();
    drop(port.ask(Event::ask(Ask::Join { mutator }), None));
    drop(port.ask(Event::ask(Ask::MakeQueue { mutator }), None));
}

/// A reference comes into the queue.
fn enqueue<L: Naming + Limited, T: Wait, V: Vigil>(port: &mut SeatPort<'_, u32, L, T, V>) {
    let mutator = port.mutator();
    let layout = Layout::new();
    let referent = Handle::new(2);
    let queue = Handle::new(1);
    let reference = Handle::new(3);
    let kind = RefKind::Weak;
    drop(port.ask(Event::ask(Ask::New { mutator, layout }), None));
    drop(port.ask(
        Event::ask(Ask::MakeRef {
            mutator,
            kind,
            referent,
            queue,
        }),
        None,
    ));
    drop(port.ask(Event::ask(Ask::Enqueue { mutator, reference }), None));
}

/// How the `remove`s of one seat end: those of a client that is gone, of the next one, and of either once nobody waits.
fn removals<L: Naming + Limited, T: Wait>(
    rt: &T,
    hall: &Hall<u32, L>,
    seat: Seat<u32, L>,
) -> [Option<Refusal>; 4] {
    let mut port = SeatPort::new(rt, hall, NoVigil, seat);
    begin(&mut port);
    hall.sit(rt, 0, FIRST);
    hall.call_off(rt, FIRST);
    enqueue(&mut port);
    let gone = remove(&mut port);
    hall.sit(rt, 0, NEXT);
    hall.call_off(rt, FIRST);
    let next = remove(&mut port);
    hall.call_all_off(rt);
    let empty = remove(&mut port);
    hall.call_off(rt, NEXT);
    let gone_too = remove(&mut port);
    drop(port.into_seat());
    [gone, next, empty, gone_too]
}

/// How those of a seat end whose client nobody can look after: one of a queue that holds a reference, one that would
/// wait.
fn unwatched<L: Naming + Limited, T: Wait>(
    rt: &T,
    hall: &Hall<u32, L>,
    seat: Seat<u32, L>,
) -> [Option<Refusal>; 2] {
    let mut port = SeatPort::new(rt, hall, Blind, seat);
    begin(&mut port);
    enqueue(&mut port);
    let some = remove(&mut port);
    let none = remove(&mut port);
    drop(port.into_seat());
    [some, none]
}

/// How the `remove`s of the two seats end.
fn called_off_in<L: Naming + Limited, T: Wait>(
    rt: &T,
    alloc: Global,
    limits: Limits,
    blank: Blank<Step<u32>>,
) -> Result<Option<([Option<Refusal>; 2], [Option<Refusal>; 4])>, Fail>
    requires name { blank ≡ L.table }
    requires limits { limits ≡ L.limits }
{
    let (hall, seats) = Hall::<u32, L>::open(alloc, limits, blank)?;
    let mut seats = seats.into_iter();
    let told = match (seats.next(), seats.next()) {
        (Some(first), Some(second)) => {
            let unwatched = unwatched(rt, &hall, second);
            Some((unwatched, removals(rt, &hall, first)))
        }
        (first, second) => {
            drop((first, second));
            None
        }
    };
    drop((hall, seats));
    Ok(told)
}

#[test]
fn called_off(rt: HostRuntime) -> Result<(), Fail> {
    let limits = Limits::checked(16, 2, 1, 0, 64, 1).ok().ok_or("limits")?;
    let blank = Blank::new(rt.alloc())?;
    let told = called_off_in::<Brand, _>(&rt, rt.alloc(), limits, blank)?;
    let unwatched = [None, Some(Refusal::NoMemory)];
    let removals = [
        Some(Refusal::NoMemory),
        None,
        Some(Refusal::WouldWait),
        Some(Refusal::NoMemory),
    ];
    if told != Some((unwatched, removals)) {
        return Err("a `remove` ended otherwise".into());
    }
    Ok(())
}
