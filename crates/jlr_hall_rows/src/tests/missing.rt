//! Seats that are not handed in at the close of their hall: it names the least of them.
ghost use Rattle.std.specs.Prelude.{◌≡◌};

use jlr_event::event::Event;
use jlr_hall::Book;
use jlr_hall::closing::CloseFault;
use jlr_hall::hall::Hall;
use jlr_hall::history::{Blank, Naming};
use jlr_hall::port::SeatPort;
use jlr_hall::seat::Seat;
use jlr_hall::step::{Limited, Step};
use jlr_hall::vigil::NoVigil;
use jlr_machine::ask::Ask;
use jlr_session::port::Port;
use jlr_types::Limits;
use std::alloc::Global;
use std::marker::Brand;
use std::sync::Wait;
use std::test::Fail;

// The base of the book that a close gives, and how many entries it has.
type Closed = Result<(u64, usize), CloseFault>;

// Which seats are kept back.
#[derive(Clone, Copy)]
enum Missing {
    None,
    One(usize),
    Two,
}

// What is asked before the close, and what that gives.
#[derive(Clone, Copy)]
struct Row {
    /// How often the first session asks, its join among them.
    first: usize,
    /// How often the second then asks.
    second: usize,
    missing: Missing,
    wanted: Closed,
}

const NOTHING: Row = Row {
    first: 0,
    second: 0,
    missing: Missing::None,
    wanted: Ok((0, 0)),
};

const ROWS: [Row; 8] = [
    NOTHING,
    Row {
        missing: Missing::One(2),
        wanted: Err(CloseFault::Disagree(2)),
        ..NOTHING
    },
    Row {
        missing: Missing::Two,
        wanted: Err(CloseFault::Disagree(1)),
        ..NOTHING
    },
    Row {
        first: 3,
        wanted: Ok((0, 3)),
        ..NOTHING
    },
    Row {
        first: 3,
        missing: Missing::One(0),
        wanted: Err(CloseFault::Disagree(0)),
        ..NOTHING
    },
    Row {
        first: 3,
        missing: Missing::One(4),
        wanted: Err(CloseFault::Disagree(4)),
        ..NOTHING
    },
    // With a cut.
    Row {
        first: 3,
        second: 62,
        wanted: Ok((64, 1)),
        ..NOTHING
    },
    Row {
        first: 3,
        second: 62,
        missing: Missing::One(1),
        wanted: Err(CloseFault::Disagree(1)),
    },
];

// Takes away the seats that are kept back.
fn keep_back<L: Naming + Limited>(seats: &mut Vec<Seat<u32, L>>, missing: Missing) {
    match missing {
        Missing::None => {}
        Missing::One(place) => {
            if place < seats.len() {
                drop(seats.remove(place));
            }
        }
        Missing::Two => {
            if seats.len() > 2 {
                drop(seats.remove(2));
                drop(seats.remove(1));
            }
        }
    }
}

// A session joins, and asks so often in all.
fn ask<L: Naming + Limited, T: Wait>(
    rt: &T,
    hall: &Hall<u32, L>,
    seat: Seat<u32, L>,
    times: usize,
) -> Seat<u32, L> {
    let mut port = SeatPort::new(rt, hall, NoVigil, seat);
    let mutator = port.mutator();
    if times > 0 {
        drop(port.ask(Event::ask(Ask::Join { mutator }), None));
    }
    for _ in 1..times {
        drop(port.ask(Event::ask(Ask::Stat { mutator }), None));
    }
    port.into_seat()
}

// What each seat does: the first two ask.
fn play<L: Naming + Limited, T: Wait>(
    rt: &T,
    alloc: Global,
    hall: &Hall<u32, L>,
    seats: Vec<Seat<u32, L>>,
    row: Row,
) -> Vec<Seat<u32, L>> {
    let mut played = Vec::new(alloc);
    for seat in seats {
        let seat = match seat.index() {
            0 => ask(rt, hall, seat, row.first),
            1 => ask(rt, hall, seat, row.second),
            _ => seat,
        };
        // A seat for which there is no memory is missing at the close.
        drop(played.push(seat));
    }
    keep_back(&mut played, row.missing);
    played
}

// What a close gave. The book is let go.
fn told<R: Drop>(outcome: Result<Book<R>, CloseFault>) -> Closed {
    match outcome {
        Ok(book) => {
            let closed = (book.base(), book.records().len());
            drop(book);
            Ok(closed)
        }
        Err(fault) => Err(fault),
    }
}

// A hall of two sessions, whose seats ask as a row says.
fn closed_in<L: Naming + Limited, T: Wait>(
    rt: &T,
    alloc: Global,
    limits: Limits,
    row: Row,
    blank: Blank<Step<u32>>,
) -> Result<Closed, Fail>
    requires name { blank ≡ L.table }
    requires limits { limits ≡ L.limits }
{
    let (hall, seats) = Hall::<u32, L>::open(alloc, limits, blank)?;
    let seats = play(rt, alloc, &hall, seats, row);
    Ok(told(hall.close(seats)))
}

fn closed<T: Wait>(rt: &T, alloc: Global, row: Row) -> Result<Closed, Fail> {
    let limits = Limits::checked(16, 2, 1, 0, 64, 1).ok().ok_or("limits")?;
    let blank = Blank::new(alloc)?;
    closed_in::<Brand, T>(rt, alloc, limits, row, blank)
}

#[test]
fn a_close_names_the_least_missing_seat(rt: HostRuntime) -> Result<(), Fail> {
    for row in ROWS {
        if closed(&rt, rt.alloc(), row)? != row.wanted {
            return Err("a close ended otherwise".into());
        }
    }
    Ok(())
}
