//! Rows over a book, in the words of `jlr_words`.
//!
//! `drop 1 -> done` is an ask of seat 0 and what it is answered, `seat 2 hand_over -> nothing` one of seat 2, and `63
//! times stat -> stat 0` stands for so many rows. A row without an arrow looks at the book: `trace 64 8` wants base 64
//! and 8 entries, `image 2` two objects in the image, `pending yes` that something is pending, `line no` that nothing
//! stands in the cleaner's line, `waits 1 yes` that a `Remove` on handle 1 would wait. `cut` cuts, and `mark idle`
//! marks a piece.
//!
//! A text has several lists. Each begins with `== ` and its name, and has a book of its own, with one session and one
//! resource, that cuts at 64 entries: with 16 cells, which a cut copies, or with so many that it is followed. A line
//! that begins with `-- ` is a comment.
use jlr_event::event::Event;
use jlr_hall::Book;
use jlr_machine::data::CopyRoom;
use jlr_types::{Handle, Limits, Mutator, Progress};
use jlr_words::{event_of, is_reply};
use std::alloc::{AllocError, Global};
use std::test::Fail;

const TITLE: &str = "== ";

const ARROW: &str = " -> ";

// Every row of all lists is as it says, with so many cells.
pub(super) fn play_all(alloc: Global, cells: u32, lists: &str) -> Result<(), Fail> {
    for list in lists.split(TITLE).skip(1) {
        let (title, rows) = list.split_once('\n').ok_or("a list without rows")?;
        play(alloc, cells, title, rows)?;
    }
    Ok(())
}

fn play(alloc: Global, cells: u32, title: &str, rows: &str) -> Result<(), Fail> {
    let limits = Limits::checked(cells, 1, 1, 0, 64, 1).ok().ok_or("limits")?;
    match first_wrong_of(alloc, limits, rows)? {
        Some(row) => Err(Fail::new(format_args!("{title}: {row}"))),
        None => Ok(()),
    }
}

fn first_wrong_of<'a>(
    alloc: Global,
    limits: Limits,
    rows: &'a str,
) -> Result<Option<&'a str>, AllocError> {
    let mut book = Book::new(alloc, limits)?;
    let wrong = first_wrong(alloc, &mut book, rows);
    drop(book);
    Ok(wrong)
}

// The first row that is not as it says.
fn first_wrong<'a>(alloc: Global, book: &mut Book<u32>, rows: &'a str) -> Option<&'a str> {
    for row in rows.lines() {
        let row = row.trim();
        if is_row(row) && !holds(alloc, book, row) {
            return Some(row);
        }
    }
    None
}

// Whether a line is a row, and no comment and not empty.
fn is_row(line: &str) -> bool {
    !line.is_empty() && !line.starts_with("-- ")
}

fn holds(alloc: Global, book: &mut Book<u32>, row: &str) -> bool {
    match row.split_once(ARROW) {
        Some((asked, wanted)) => are_answered(alloc, book, asked, wanted),
        None => looked(book, row) == Some(true),
    }
}

fn are_answered(alloc: Global, book: &mut Book<u32>, asked: &str, wanted: &str) -> bool {
    let (times, asked) = counted(asked);
    let (seat, ask) = seated(asked);
    for _ in 0..times {
        if !is_answered(alloc, book, seat, ask, wanted) {
            return false;
        }
    }
    true
}

fn is_answered(alloc: Global, book: &mut Book<u32>, seat: u8, ask: &str, wanted: &str) -> bool {
    let Some(event) = event_of(alloc, ask) else {
        return false;
    };
    match CopyRoom::new(alloc) {
        Ok(room) => is_told(book, seat, event, room, wanted),
        Err(_) => {
            drop(event);
            false
        }
    }
}

fn is_told(
    book: &mut Book<u32>,
    seat: u8,
    event: Event<u32>,
    room: CopyRoom,
    wanted: &str,
) -> bool {
    let reply = book.step(seat, event, Some(room));
    let is_wanted = is_reply(&reply, wanted);
    drop(reply);
    is_wanted
}

// How often an ask is made.
fn counted(asked: &str) -> (usize, &str) {
    match asked.split_once(" times ") {
        Some((count, ask)) => (count.parse().unwrap_or(0), ask),
        None => (1, asked),
    }
}

// By which seat: 0, or another digit behind `seat`.
fn seated(asked: &str) -> (u8, &str) {
    match asked.strip_prefix("seat ") {
        Some(rest) => {
            let (seat, ask) = rest.split_once(' ').unwrap_or((rest, ""));
            (seat.parse().unwrap_or(0), ask)
        }
        None => (0, asked),
    }
}

fn looked(book: &mut Book<u32>, row: &str) -> Option<bool> {
    match row.split_once(' ') {
        Some(("mark", wanted)) => Some(is_idle(book) == (wanted == "idle")),
        Some((name, wanted)) => shown(book, name, wanted),
        None => { if row == "cut" { Some(cuts(book)) } else { None } }
    }
}

fn cuts(book: &mut Book<u32>) -> bool {
    book.cut().is_ok()
}

fn is_idle(book: &mut Book<u32>) -> bool {
    book.mark(64) == Progress::Idle
}

fn shown(book: &Book<u32>, name: &str, wanted: &str) -> Option<bool> {
    match name {
        "last" => Some(wanted.parse() == Ok(book.last())),
        "image" => Some(wanted.parse().ok() == objects_in_image(book)),
        "pending" => Some(book.pending_empty() == (wanted == "no")),
        "line" => Some(book.line_empty() == (wanted == "no")),
        "trace" => shown_trace(book, wanted),
        "waits" => shown_wait(book, wanted),
        _ => None,
    }
}

fn shown_trace(book: &Book<u32>, wanted: &str) -> Option<bool> {
    let (base, entries) = wanted.split_once(' ')?;
    Some(base.parse() == Ok(book.base()) && entries.parse() == Ok(book.records().len()))
}

fn shown_wait(book: &Book<u32>, wanted: &str) -> Option<bool> {
    let (queue, wanted) = wanted.split_once(' ')?;
    let queue = Handle::new(queue.parse().ok()?);
    Some(book.would_wait(Mutator::new(0), queue) == (wanted == "yes"))
}

// None where there is no memory for the image.
fn objects_in_image(book: &Book<u32>) -> Option<usize> {
    let image = book.image().ok()?;
    let count = image
        .objects
        .as_slice()
        .iter()
        .filter(|place| place.is_some())
        .count();
    drop(image);
    Some(count)
}
