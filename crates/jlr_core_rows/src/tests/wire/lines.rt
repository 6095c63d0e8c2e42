//! Lines out of a stream, however it is cut.
use jlr_machine::ask::Answer;
use jlr_types::Refusal;
use jlr_wire::command::read_command;
use jlr_wire::pieces::{Got, Pieces};
use jlr_wire::reply::{WriteFault, write_reply};
use std::alloc::{AllocError, Global};
use std::test::Fail;

/// A line of 512 bytes, one of 513, `put 1`, an empty line, and a last `gc` without its end.
fn stream(alloc: Global) -> Result<Vec<u8>, AllocError> {
    let mut bytes = Vec::new(alloc);
    bytes.extend_from_slice(&[b'x'; 512])?;
    bytes.extend_from_slice(b"\n")?;
    bytes.extend_from_slice(&[b'x'; 513])?;
    bytes.extend_from_slice(b"\nput 1\n\ngc")?;
    Ok(bytes)
}

/// What the stream above is answered, line by line.
const ANSWERS: &str = "! 15\n! 16\n! 15\n! 15\n";

/// Writes the refusal of a line, or `ok` where it is a command.
fn reply(line: &[u8], out: &mut Vec<u8>) -> Result<(), WriteFault> {
    let answer = match read_command(line) {
        Ok(_) => Answer::Done,
        Err(refusal) => Answer::Refused(refusal),
    };
    let written = write_reply(&answer, out);
    drop(answer);
    written
}

/// Writes a reply for each line that ends in a piece: all of them are refused.
fn refuse(pieces: &mut Pieces, piece: &[u8], out: &mut Vec<u8>) -> Result<(), WriteFault> {
    let mut rest = piece;
    while !rest.is_empty() {
        let fed = pieces.feed(rest);
        rest = rest.split_at(fed.used).1;
        if fed.got == Got::More {
            return Ok(());
        }
        reply(pieces.line(), out)?;
    }
    Ok(())
}

/// Whether the stream, in these two parts, is answered as it has to be.
fn is_cut_well(alloc: Global, front: &[u8], back: &[u8]) -> bool {
    let mut pieces = Pieces::new();
    let mut out = Vec::new(alloc);
    let is_cut_well = refuse(&mut pieces, front, &mut out).is_ok()
        && refuse(&mut pieces, back, &mut out).is_ok()
        && ends_well(&pieces, out.as_slice());
    drop(out);
    is_cut_well
}

/// Whether the lines were answered as they have to be, and the last one is under way.
fn ends_well(pieces: &Pieces, out: &[u8]) -> bool {
    out == ANSWERS.as_bytes() && pieces.unfinished() && pieces.line() == b"gc".as_slice()
}

fn each_cut_into_two_gives_the_same_lines(alloc: Global, bytes: &[u8]) -> Result<(), Fail> {
    for cut in 0..=bytes.len() {
        let (front, back) = bytes.split_at(cut);
        if !is_cut_well(alloc, front, back) {
            return Err(Fail::new(format_args!("cut at {cut}")));
        }
    }
    Ok(())
}

/// Whether the stream, byte by byte, is answered as it has to be.
fn is_read_well(alloc: Global, bytes: &[u8]) -> bool {
    let mut pieces = Pieces::new();
    let mut out = Vec::new(alloc);
    let mut are_refused = true;
    for byte in bytes {
        are_refused = refuse(&mut pieces, &[*byte], &mut out).is_ok() && are_refused;
    }
    let is_read_well = are_refused && ends_well(&pieces, out.as_slice());
    drop(out);
    is_read_well
}

fn is_read_well_in_all_parts(alloc: Global, bytes: &[u8]) -> Result<(), Fail> {
    each_cut_into_two_gives_the_same_lines(alloc, bytes)?;
    if is_read_well(alloc, bytes) {
        return Ok(());
    }
    Err(Fail::from("byte by byte"))
}

fn each_part_gives_the_same_lines(alloc: Global) -> Result<(), Fail> {
    let bytes = stream(alloc)?;
    let is_read = is_read_well_in_all_parts(alloc, bytes.as_slice());
    drop(bytes);
    is_read
}

/// Whether the byte alone is no command, and a line of its own where no end of a line.
fn is_no_command(byte: u8) -> bool {
    let mut pieces = Pieces::new();
    let fed = pieces.feed(&[byte, b'\n']);
    let empty = byte == b'\n';
    let used = if empty { 1 } else { 2 };
    matches!(read_command(&[byte]), Err(Refusal::Malformed))
        && fed.got == Got::Line
        && fed.used == used
        && pieces.line().is_empty() == empty
}

fn no_byte_alone_is_a_command() -> Result<(), Fail> {
    for byte in 0..=255u8 {
        if !is_no_command(byte) {
            return Err(Fail::new(format_args!("byte {byte}")));
        }
    }
    Ok(())
}

/// Whether each of so many bytes `x` leaves its line under way.
fn feeds_on(pieces: &mut Pieces, count: usize) -> bool {
    for _ in 0..count {
        if pieces.feed(b"x").got != Got::More {
            return false;
        }
    }
    pieces.unfinished()
}

/// Whether a line of so many bytes `x` ends as it has to, with so many of them kept.
fn ends_with(count: usize, kept: usize) -> bool {
    let mut pieces = Pieces::new();
    let under_way = feeds_on(&mut pieces, count);
    let fed = pieces.feed(b"\nnew -\n");
    let too_long = count > 512;
    let end = if too_long { Got::TooLong } else { Got::Line };
    under_way
        && fed.used == 1
        && fed.got == end
        && !pieces.unfinished()
        && pieces.line().len() == kept
        && matches!(read_command(pieces.line()), Err(Refusal::TooLong)) == too_long
}

fn a_line_has_at_most_512_bytes() -> Result<(), Fail> {
    for (count, kept) in [(511, 511), (512, 512), (513, 513), (514, 513), (2000, 513)] {
        if !ends_with(count, kept) {
            return Err(Fail::new(format_args!("a line of {count} bytes")));
        }
    }
    Ok(())
}

#[test]
fn lines_come_out_of_a_stream(rt: HostRuntime) -> Result<(), Fail> {
    each_part_gives_the_same_lines(rt.alloc())?;
    no_byte_alone_is_a_command()?;
    a_line_has_at_most_512_bytes()
}
