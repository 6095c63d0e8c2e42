//! Writers that fail, or take little at a time.
use super::{Topic, barred, is_line, is_written, play};
use crate::tests::streams::Streams;
use jlr_machine::ask::Answer;
use jlr_wire::reply::write_reply;
use std::alloc::Global;
use std::io::{self, Write};
use std::test::Fail;

// How many bytes are taken at a time and in all, and the answer; whether its line goes out whole, and what goes out,
// between bars.
const FRONTS: &str = "
    1 16 refused Malformed -> whole |! 15|
    1 5 refused Malformed -> whole |! 15|
    1 4 refused Malformed -> cut |! 15|
    1 3 refused Malformed -> cut |! 1|
    1 0 refused Malformed -> cut ||
    3 22 faults 1:Other 2:Denied -> whole |list 1:other 2:denied|
    3 21 faults 1:Other 2:Denied -> cut |list 1:other 2:denied|
    3 14 faults 1:Other 2:Denied -> cut |list 1:other 2|
    3 7 faults 1:Other 2:Denied -> cut |list 1:|
    3 4 faults 1:Other 2:Denied -> cut |list|
    3 0 faults 1:Other 2:Denied -> cut ||
    3 12 data 0102ff -> whole |data 0102ff|
    3 11 data 0102ff -> cut |data 0102ff|
    3 8 data 0102ff -> cut |data 010|
    3 5 data 0102ff -> cut |data |
    3 2 data 0102ff -> cut |da|
    3 0 data 0102ff -> cut ||
    3 10 names ab c -> whole |list ab c|
    3 9 names ab c -> cut |list ab c|
    3 8 names ab c -> cut |list ab |
    3 6 names ab c -> cut |list a|
    3 5 names ab c -> cut |list |
    3 4 names ab c -> cut |list|
";

/// Whether what went out is the whole line, or this prefix of it.
pub(super) fn is_front(sent: &[u8], well: bool, wanted: &str) -> bool {
    let (end, text) = wanted.split_once(" ").unwrap_or((wanted, ""));
    match barred(text) {
        Some(text) => is_cut(sent, well, end, text),
        None => false,
    }
}

fn is_cut(sent: &[u8], well: bool, end: &str, text: &str) -> bool {
    match end {
        "whole" => well && is_line(sent, text),
        "cut" => !well && sent == text.as_bytes(),
        _ => false,
    }
}

// The two numbers that a row begins with, and what is behind them.
fn numbered(row: &str) -> Option<(usize, usize, &str)> {
    let (step, rest) = row.split_once(" ")?;
    let (room, rest) = rest.split_once(" ")?;
    match (step.parse(), room.parse()) {
        (Ok(step), Ok(room)) => Some((step, room, rest)),
        _ => None,
    }
}

/// Whether, with at most so many bytes in one write and so many in all, an answer goes out as this.
pub(super) fn sends(alloc: Global, given: &str, wanted: &str) -> bool {
    let (width, room, words) = numbered(given).unwrap_or((0, 0, ""));
    let streams = Streams {
        width,
        room,
        ..Streams::whole()
    };
    is_written(alloc, streams, Topic::Fronts, words, wanted)
}

// How many writes a reply takes, and how many bytes it has. The longest lines are those of 256 names and of 256 faults.
const WRITES: &str = "
    done -> 1 3
    int -9223372036854775808 -> 1 25
    fault NotFound -> 1 15
    stat 18446744073709551615 18446744073709551615 18446744073709551615 18446744073709551615 18446744073709551615 -> 1 110
    data (a5×200) -> 1 406
    notes (4294967295 ×45) 1234567 123 -> 1 512
    notes (4294967295 ×45) 1234567 1234 -> 1 513
    notes (4294967295 ×256) -> 1 2821
    faults (18446744073709551615:NotFound ×256) -> 1 7685
    names (a_name_of_thirty_two_characters0 ×256) -> 1 8453
";

/// Whether a reply took so many writes, and has so many bytes.
pub(super) fn are_counted(writes: usize, bytes: usize, wanted: &str) -> bool {
    match wanted.split_once(" ") {
        Some((first, second)) => (first.parse(), second.parse()) == (Ok(writes), Ok(bytes)),
        None => false,
    }
}

/// Fails at its first write, perhaps since a signal interrupts it, and takes all later ones.
#[derive(Drop)]
struct FailsOnce {
    is_interrupted: bool,
    failed: bool,
    taken: usize,
}

impl Write for FailsOnce {
    fn write(&mut self, buf: &[u8]) -> io::Result<usize> {
        if !self.failed {
            self.failed = true;
            if self.is_interrupted {
                return Err(io::Error::from(io::ErrorKind::Interrupted));
            }
            return Err(io::Error::from(io::ErrorKind::Other));
        }
        self.taken = buf.len();
        Ok(buf.len())
    }

    fn flush(&mut self) -> io::Result<()> {
        Ok(())
    }
}

// Whether a reply went out whose first write failed, or was interrupted, and how many bytes a later one took.
fn written_after(is_interrupted: bool) -> (bool, usize) {
    let mut writer = FailsOnce {
        is_interrupted,
        failed: false,
        taken: 0,
    };
    let well = write_reply(&Answer::Done, &mut writer).is_ok();
    (well && writer.failed, writer.taken)
}

#[test]
fn replies_go_out_as_far_as_the_writer_takes_them(rt: HostRuntime) -> Result<(), Fail> {
    play(rt.alloc(), Topic::Fronts, FRONTS)?;
    play(rt.alloc(), Topic::Writes, WRITES)?;
    if written_after(false) != (false, 0) {
        return Err(Fail::from("a write that failed is tried again"));
    }
    if written_after(true) != (true, 3) {
        return Err(Fail::from("a write that was interrupted is not made again"));
    }
    Ok(())
}
