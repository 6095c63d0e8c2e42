//! Plays rows of sessions.
use super::heap::Heap;
use super::row::{Place, Row};
use super::script::{Plan, WELL, device_of};
use super::seat::{Manner, Seat};
use crate::tests::streams::{Failing, Narrow, Pieced, Streams};
use jlr_session::serve::serve;
use jlr_session::shell::{SessionEnd, converse};
use std::alloc::Global;
use std::mem;
use std::test::Fail;

/// How the sessions of a case are played.
#[derive(Clone, Copy)]
struct Setup {
    name: &'static str,
    place: Place,
    plan: Plan,
    long: usize,
    streams: Streams,
    cuts: &'static [usize],
}

/// What became of a session.
#[derive(Drop)]
struct Played {
    end: SessionEnd,
    sent: Vec<u8>,
    asked: String,
    settled: usize,
    counted: usize,
    unread: usize,
}

/// Plays the rows, each of which must hold.
pub(super) fn play(alloc: Global, rows: &[Row]) -> Result<(), Fail> {
    let mut last = None;
    let played = play_on(alloc, &mut last, rows);
    drop(last);
    played
}

fn play_on(alloc: Global, last: &mut Option<Played>, rows: &[Row]) -> Result<(), Fail> {
    let mut setup = case("no case");
    for (number, row) in rows.iter().enumerate() {
        if holds(alloc, &mut setup, last, *row) != Some(true) {
            return Err(failed(setup.name, number));
        }
    }
    Ok(())
}

fn failed(name: &str, number: usize) -> Fail {
    Fail::new(format_args!("{name}: row {number} does not hold"))
}

fn case(name: &'static str) -> Setup {
    Setup {
        name,
        place: Place::Seat(Manner::Obliging),
        plan: WELL,
        long: 0,
        streams: Streams::whole(),
        cuts: &[4096],
    }
}

fn holds(alloc: Global, setup: &mut Setup, last: &mut Option<Played>, row: Row) -> Option<bool> {
    match row {
        Row::Play(given, end, sent) => ends_so(alloc, setup, last, given, end, sent),
        Row::EachReadFails(given, sent) => each_read_fails(alloc, setup, given, sent),
        Row::EachWriteFails(given, sent) => each_write_fails(alloc, setup, given, sent),
        Row::Asked(_) | Row::Settled(_) | Row::Counted(_) | Row::Unread(_) => looked_at(last, row),
        row => {
            set(setup, row);
            Some(true)
        }
    }
}

fn set(setup: &mut Setup, row: Row) {
    match row {
        Row::Case(name) => *setup = case(name),
        Row::On(place) => setup.place = place,
        Row::Device(plan) => setup.plan = plan,
        Row::Long(long) => setup.long = long,
        Row::Step(step) => setup.streams.step = step,
        Row::Cuts(cuts) => setup.cuts = cuts,
        Row::Read(failing) => setup.streams.failing = failing,
        Row::Room(room) => {
            setup.streams.room = room;
            setup.streams.width = 1;
        }
        Row::Flushes(flushes) => setup.streams.flushes = flushes,
        _ => {}
    }
}

fn looked_at(last: &Option<Played>, row: Row) -> Option<bool> {
    let Some(played) = last else {
        return None;
    };
    match row {
        Row::Asked(asked) => Some(played.asked.as_str() == asked),
        Row::Settled(settled) => Some(played.settled == settled),
        Row::Counted(counted) => Some(played.counted == counted),
        Row::Unread(unread) => Some(played.unread == unread),
        _ => None,
    }
}

/// With a piece so many times in place of each `~`.
fn unfolded(alloc: Global, text: &str, piece: &str, times: usize) -> Option<String> {
    let long = piece.repeat(alloc, times).ok()?;
    text.replace(alloc, "~", long.as_str()).ok()
}

fn ends_so(
    alloc: Global,
    setup: &Setup,
    last: &mut Option<Played>,
    given: &str,
    end: SessionEnd,
    sent: &str,
) -> Option<bool> {
    let given = unfolded(alloc, given, "x", setup.long)?;
    drop(mem::replace(last, run(alloc, setup, given.as_bytes(), setup.streams)));
    let ends_so = match last {
        Some(played) => {
            is_end(alloc, setup, played, end, sent)
                && each_cut_is_like(alloc, setup, given.as_bytes(), played)
        }
        None => false,
    };
    drop(given);
    Some(ends_so)
}

/// Whether it ended so, and sent this.
fn is_end(alloc: Global, setup: &Setup, played: &Played, end: SessionEnd, sent: &str) -> bool {
    match unfolded(alloc, sent, "ab", setup.long) {
        Some(sent) => {
            let is_end = played.end == end && played.sent.as_slice() == sent.as_bytes();
            drop(sent);
            is_end
        }
        None => false,
    }
}

fn run(alloc: Global, setup: &Setup, given: &[u8], streams: Streams) -> Option<Played> {
    match setup.place {
        Place::Plain => Some(on_heap(alloc, false, given, streams)),
        Place::Counting => Some(on_heap(alloc, true, given, streams)),
        Place::Seat(manner) => at_seat(alloc, manner, &setup.plan, given, streams),
    }
}

fn on_heap(alloc: Global, counts: bool, given: &[u8], streams: Streams) -> Played {
    let mut reader = Pieced::new(given, streams);
    let mut writer = Narrow::new(alloc, streams);
    let mut heap = Heap::new(counts);
    let end = converse::<Heap, Heap, (), Pieced<'_>, Narrow>(
        &mut reader,
        &mut writer,
        &mut heap,
        &mut (),
    );
    Played {
        end,
        sent: writer.taken,
        asked: String::new(alloc),
        settled: heap.settlings,
        counted: usize::from(heap.count),
        unread: reader.bytes.len(),
    }
}

fn at_seat(
    alloc: Global,
    manner: Manner,
    plan: &Plan,
    given: &[u8],
    streams: Streams,
) -> Option<Played> {
    let mut device = device_of(alloc, plan)?;
    let mut reader = Pieced::new(given, streams);
    let mut writer = Narrow::new(alloc, streams);
    let mut seat = Seat::new(alloc, manner);
    let end = serve(&mut reader, &mut writer, &mut seat, &mut device);
    Some(Played {
        end,
        sent: writer.taken,
        asked: seat.asked,
        settled: seat.settlings,
        counted: 0,
        unread: reader.bytes.len(),
    })
}

/// Plays it with each step that the setup names.
fn each_cut_is_like(alloc: Global, setup: &Setup, given: &[u8], whole: &Played) -> bool {
    for step in setup.cuts {
        let streams = Streams {
            step: *step,
            ..setup.streams
        };
        if !each_first_is_like(alloc, setup, given, streams, whole) {
            return false;
        }
    }
    true
}

/// Plays it with a first piece of each length.
fn each_first_is_like(
    alloc: Global,
    setup: &Setup,
    given: &[u8],
    streams: Streams,
    whole: &Played,
) -> bool {
    for first in 0..=given.len() {
        let played = run(alloc, setup, given, Streams { first, ..streams });
        if !is_like(played, whole) {
            return false;
        }
    }
    true
}

/// Whether nothing but the number of bytes that were read differs.
fn is_like(played: Option<Played>, whole: &Played) -> bool {
    let is_like = match &played {
        Some(played) => compared(played) == compared(whole),
        None => false,
    };
    drop(played);
    is_like
}

fn compared(played: &Played) -> (SessionEnd, &[u8], &str, [usize; 2]) {
    let counts = [played.settled, played.counted];
    (
        played.end,
        played.sent.as_slice(),
        played.asked.as_str(),
        counts,
    )
}

/// The lines that were read are answered, and then the mutator leaves.
fn each_read_fails(alloc: Global, setup: &Setup, given: &str, replies: &str) -> Option<bool> {
    let streams = Streams {
        failing: Failing::Last,
        ..setup.streams
    };
    for count in 0..=given.len() {
        let front = given.as_bytes().split_at(count).0;
        let (_, settled) = breaks_off(
            alloc,
            setup,
            front,
            streams,
            SessionEnd::ReadFault,
            replies,
        )?;
        if settled != lines_in(front) {
            return Some(false);
        }
    }
    Some(true)
}

/// What went out is a prefix of the replies, the command stands carried out, and then the mutator leaves.
fn each_write_fails(alloc: Global, setup: &Setup, given: &str, replies: &str) -> Option<bool> {
    for room in 0..replies.len() {
        for writes_fail in [false, true] {
            let streams = Streams {
                width: 1,
                room,
                writes_fail,
                ..setup.streams
            };
            let given = given.as_bytes();
            let (sent, _) = breaks_off(
                alloc,
                setup,
                given,
                streams,
                SessionEnd::WriteFault,
                replies,
            )?;
            if sent != room {
                return Some(false);
            }
        }
    }
    Some(true)
}

/// What `broken_off` says of a session.
fn breaks_off(
    alloc: Global,
    setup: &Setup,
    given: &[u8],
    streams: Streams,
    end: SessionEnd,
    replies: &str,
) -> Option<(usize, usize)> {
    let played = run(alloc, setup, given, streams)?;
    let broken_off = broken_off(&played, end, replies.as_bytes());
    drop(played);
    broken_off
}

/// How many bytes were sent and how many replies settled, if it ended so after a prefix of these replies, each of which
/// was settled, and the mutator left.
fn broken_off(played: &Played, end: SessionEnd, replies: &[u8]) -> Option<(usize, usize)> {
    let sent = played.sent.as_slice();
    if played.end != end || !replies.starts_with(sent) || played.settled != lines_in(sent) {
        return None;
    }
    if !played.asked.as_str().ends_with("Leave") {
        return None;
    }
    Some((sent.len(), played.settled))
}

fn lines_in(bytes: &[u8]) -> usize {
    let mut count = 0usize;
    for byte in bytes {
        if *byte == b'\n' {
            count = count.wrapping_add(1);
        }
    }
    count
}
