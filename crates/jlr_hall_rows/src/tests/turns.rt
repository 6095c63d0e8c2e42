//! Plays rows over the seats of a hall that ask in turns, with no loop beside them, in the words of `jlr_words`.
//!
//! `drop 1 -> done` is an ask of seat 0 and what it is answered, `seat 1 by 1 drop 1 -> done` one of seat 1 in the name
//! of mutator 1, and `seat 1 60 times by 1 stat -> stat 0 0 0 0 0` stands for so many rows. A row `closes 64 8` wants
//! that the close gives a book with base 64 and 8 entries.
//!
//! A text has several lists. Each begins with `== `, its name, a colon, and how many sessions its hall has and how many
//! entries its trace holds; a hall has 16 cells and two resources. A line that begins with `-- ` is a comment.
ghost use Rattle.std.specs.Prelude.{◌≡◌};

use jlr_event::event::Event;
use jlr_hall::Book;
use jlr_hall::closing::CloseFault;
use jlr_hall::hall::Hall;
use jlr_hall::history::{Blank, Naming};
use jlr_hall::port::SeatPort;
use jlr_hall::seat::Seat;
use jlr_hall::step::{Limited, Step};
use jlr_hall::vigil::NoVigil;
use jlr_machine::data::CopyRoom;
use jlr_session::port::Port;
use jlr_types::Limits;
use jlr_words::{event_of, is_reply};
use std::alloc::Global;
use std::marker::Brand;
use std::sync::Wait;
use std::test::Fail;

const TITLE: &str = "== ";

const ARROW: &str = " -> ";

const CLOSE: &str = "closes ";

/// Every row of all lists is as it says.
pub(super) fn play_all<T: Wait>(
    threads: &T,
    alloc: Global,
    lists: &'static str,
) -> Result<(), Fail> {
    for list in lists.split(TITLE).skip(1) {
        let (title, rows) = list.split_once('\n').ok_or("a list without rows")?;
        if let Some(wrong) = wrong_in(threads, alloc, title, rows)? {
            return Err(told_at(title, wrong));
        }
    }
    Ok(())
}

/// Where a list is not as it says.
fn told_at(title: &str, wrong: &str) -> Fail {
    Fail::new(format_args!("{title}, at {wrong}"))
}

/// The first row that is not as it says.
fn wrong_in<T: Wait>(
    threads: &T,
    alloc: Global,
    title: &str,
    rows: &'static str,
) -> Result<Option<&'static str>, Fail> {
    let limits = limits_of(title).ok_or("limits")?;
    let (wrong, closed) = played(threads, alloc, limits, &Rows { text: rows })?;
    match wrong {
        Some(number) => Ok(rows.lines().nth(number)),
        None => Ok(wrong_close(closed, rows)),
    }
}

/// The limits of a hall that a title tells.
fn limits_of(title: &str) -> Option<Limits> {
    let (_, numbers) = title.split_once(": ")?;
    let (sessions, trace) = numbers.split_once(' ')?;
    let sessions = sessions.parse().ok()?;
    let trace = trace.parse().ok()?;
    Limits::checked(16, sessions, 2, 0, trace, 64).ok()
}

/// What a close gave: the base of its book, and how many entries it has.
type Closed = Option<(u64, usize)>;

/// The rows of a list. A call that picks the brand of a hall cannot be given a text by itself.
#[derive(Clone, Copy)]
struct Rows {
    text: &'static str,
}

/// The number of the first row that is not as it says, and what the close gave then.
fn played<T: Wait>(
    threads: &T,
    alloc: Global,
    limits: Limits,
    rows: &Rows,
) -> Result<(Option<usize>, Closed), Fail> {
    let blank = Blank::new(alloc)?;
    played_in::<Brand, T>(threads, alloc, limits, rows, blank)
}

fn played_in<L: Naming + Limited, T: Wait>(
    threads: &T,
    alloc: Global,
    limits: Limits,
    rows: &Rows,
    blank: Blank<Step<u32>>,
) -> Result<(Option<usize>, Closed), Fail>
    requires name { blank ≡ L.table }
    requires limits { limits ≡ L.limits }
{
    let (hall, seats) = Hall::<u32, L>::open(alloc, limits, blank)?;
    let (wrong, seats) = in_turns(threads, alloc, &hall, seats, rows.text);
    Ok((wrong, told(hall.close(seats))))
}

/// What a close gave. The book is let go.
fn told<R: Drop>(outcome: Result<Book<R>, CloseFault>) -> Closed {
    match outcome {
        Ok(book) => {
            let closed = (book.base(), book.records().len());
            drop(book);
            Some(closed)
        }
        Err(_) => None,
    }
}

/// Asks what the rows say. The number of the first row that is not as it says, and the seats.
fn in_turns<L: Naming + Limited, T: Wait>(
    threads: &T,
    alloc: Global,
    hall: &Hall<u32, L>,
    seats: Vec<Seat<u32, L>>,
    rows: &str,
) -> (Option<usize>, Vec<Seat<u32, L>>) {
    let mut ports = Vec::new(alloc);
    for seat in seats {
        drop(ports.push(SeatPort::new(threads, hall, NoVigil, seat)));
    }
    let wrong = first_wrong(alloc, &mut ports, rows);
    let mut back = Vec::new(alloc);
    for port in ports {
        drop(back.push(port.into_seat()));
    }
    (wrong, back)
}

fn first_wrong<L: Naming + Limited, T: Wait>(
    alloc: Global,
    ports: &mut Vec<SeatPort<'_, u32, L, T, NoVigil>>,
    rows: &str,
) -> Option<usize> {
    for (number, row) in rows.lines().enumerate() {
        let row = row.trim();
        if is_row(row) && !are_answered(alloc, ports, row) {
            return Some(number);
        }
    }
    None
}

/// Whether a line is an ask, and no comment, no close and not empty.
fn is_row(line: &str) -> bool {
    !line.is_empty() && !line.starts_with("-- ") && !line.starts_with(CLOSE)
}

fn are_answered<L: Naming + Limited, T: Wait>(
    alloc: Global,
    ports: &mut Vec<SeatPort<'_, u32, L, T, NoVigil>>,
    row: &str,
) -> bool {
    let (asked, wanted) = row.split_once(ARROW).unwrap_or((row, ""));
    let (seat, asked) = seated(asked);
    let (times, ask) = counted(asked);
    let Some(port) = ports.get_mut(seat) else {
        return false;
    };
    for _ in 0..times {
        if !is_answered(alloc, port, ask, wanted) {
            return false;
        }
    }
    times > 0
}

fn is_answered<L: Naming + Limited, T: Wait>(
    alloc: Global,
    port: &mut SeatPort<'_, u32, L, T, NoVigil>,
    ask: &str,
    wanted: &str,
) -> bool {
    let Some(event) = event_of(alloc, ask) else {
        return false;
    };
    match CopyRoom::new(alloc) {
        Ok(room) => is_told(port, event, room, wanted),
        Err(_) => {
            drop(event);
            false
        }
    }
}

fn is_told<L: Naming + Limited, T: Wait>(
    port: &mut SeatPort<'_, u32, L, T, NoVigil>,
    event: Event<u32>,
    room: CopyRoom,
    wanted: &str,
) -> bool {
    let reply = port.ask(event, Some(room));
    let is_wanted = is_reply(&reply, wanted);
    drop(reply);
    is_wanted
}

/// How often an ask is made.
fn counted(asked: &str) -> (usize, &str) {
    match asked.split_once(" times ") {
        Some((count, ask)) => (count.parse().unwrap_or(0), ask),
        None => (1, asked),
    }
}

/// By which seat: 0, or another behind `seat`.
fn seated(asked: &str) -> (usize, &str) {
    match asked.strip_prefix("seat ") {
        Some(rest) => {
            let (seat, ask) = rest.split_once(' ').unwrap_or((rest, ""));
            (seat.parse().unwrap_or(0), ask)
        }
        None => (0, asked),
    }
}

/// The row of the close, if it is not as it says.
fn wrong_close(closed: Closed, rows: &'static str) -> Option<&'static str> {
    for row in rows.lines() {
        if let Some(words) = row.trim().strip_prefix(CLOSE) {
            return if is_closed(closed, words) {
                None
            } else {
                Some(row)
            };
        }
    }
    Some("its close")
}

/// Whether a close gave a book with these two numbers.
fn is_closed(closed: Closed, words: &str) -> bool {
    closed.is_some() && closed == closed_of(words)
}

/// What two numbers say of a book.
fn closed_of(words: &str) -> Closed {
    let (base, entries) = words.split_once(' ')?;
    Some((base.parse().ok()?, entries.parse().ok()?))
}
