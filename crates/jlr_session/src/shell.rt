//! The lines of a session, from the first one to the end.
ghost use Rattle.std.specs.Prelude.{ℕ, List, ◌≤◌, ◌<◌, IfNone, length};
ghost use Rattle.std.specs.Io.KnownBytes.{Appends, Consumes};
ghost use Rattle.jlr_session.specs.Limits.{FindsEnd, most_lines, most_bytes};
ghost use Rattle.jlr_session.specs.Sessions.{Ended};
ghost use Rattle.jlr_session.specs.Chunks.{TakesChunk, ClosesInput};

use crate::carry::CarryOut;
use crate::turn::{answer_line, reply};
use jlr_device::retry;
use jlr_machine::ask::Answer;
use jlr_types::Refusal;
use jlr_wire::pieces::{LINE_LIMIT, LineAt, Pieces};
use std::io::{Read, Write};

/// The most lines that a session answers.
pub const MOST_LINES: u32 = 1_000_000;

/// The most bytes that a session takes.
pub const MOST_BYTES: usize = 67_108_864;

/// The bytes that are asked for in one read.
const CHUNK_SIZE: usize = 4_096;

/// How a session ended.
#[derive(Clone, Copy, Debug, PartialEq, Eq)]
pub enum SessionEnd {
    /// A line said `bye`.
    Bye,
    /// The input ended after a whole line, or at once.
    End,
    /// The input ended within a line.
    Truncated,
    /// A read failed, or as many bytes were taken as may be.
    ReadFault,
    /// A write or a flush failed, a write took nothing, or an answer has no line.
    WriteFault,
    /// As many lines were answered as may be, and none of them said `bye`.
    TooManyLines,
    /// The session could not join the heap.
    NotJoined(Refusal),
}

/// Answers the lines of the reader one after the other, each on one flushed line, until a line says
/// `bye`, the input ends, or a read or a write fails. After each reply that went out the heap settles.
///
/// `bye` is answered `ok`. Bytes without the end of their line are answered `! 15`, or `! 16` if there are more than
/// 512. A failed read or write is not tried again, an interrupted one is. At most 67,108,864 bytes are taken: in place
/// of the read after them the session ends with `ReadFault`. At most 1,000,000 lines are answered: the session ends
/// with `TooManyLines` after the last of them, unless that is `bye`.
pub fn converse<C: CarryOut<H, D>, H, D, R: Read, W: Write>(
    reader: &mut R,
    writer: &mut W,
    heap: &mut H,
    device: &mut D,
) -> SessionEnd
    ensures { (bytes : List ℕ) × (out : List ℕ)
        × Consumes (R.remaining reader.old) (R.remaining reader.new) bytes
        × Appends (W.contents writer.old) (W.contents writer.new) out
        × (length bytes ≤ most_bytes)
        × Ended C.carries (FindsEnd (R.remaining reader.new) bytes) result bytes (heap.old, device.old) out
        (heap.new, device.new) }
{
    let mut pieces = Pieces::new();
    let mut buffer = [0u8; CHUNK_SIZE];
    let mut answered = 0;
    let mut left = MOST_BYTES;
    while left > 0 {
        let room = &mut buffer[..left.min(CHUNK_SIZE)];
        let Ok(count) = retry::read(reader, room) else {
            return SessionEnd::ReadFault;
        };
        if count == 0 {
            return close::<C, H, D, W>(&pieces, writer, heap);
        }
        let chunk = &room[..count];
        if let Some(end) = take_chunk::<C, H, D, W>(
            &mut pieces,
            chunk,
            &mut answered,
            writer,
            heap,
            device,
        ) {
            return end;
        }
        left -= count;
    }
    SessionEnd::ReadFault
}

/// Answers the lines that end in a chunk, and says how the session ended if it did.
fn take_chunk<C: CarryOut<H, D>, H, D, W: Write>(
    pieces: &mut Pieces,
    chunk: &[u8],
    answered: &mut u32,
    writer: &mut W,
    heap: &mut H,
    device: &mut D,
) -> Option<SessionEnd>
    requires { answered.old < most_lines }
    ensures few { IfNone result (answered.new < most_lines) }
    ensures taken { TakesChunk C.carries pieces.old answered.old chunk.now (heap.old, device.old)
        (W.contents writer.old) result pieces.new answered.new (heap.new, device.new) (W.contents writer.new) }
{
    let mut rest = chunk;
    while !rest.is_empty() {
        let next = pieces.next(rest);
        let line = pieces.line_at(rest, &next);
        rest = rest.split_at(next.used).1;
        if !matches!(next.at, LineAt::Nowhere) {
            if let Some(end) = answer_line::<C, H, D, W>(line, writer, heap, device) {
                return Some(end);
            }
            *answered += 1;
            if *answered == MOST_LINES {
                return Some(SessionEnd::TooManyLines);
            }
        }
    }
    None
}

/// Answers what is left at the end of the input, and settles.
fn close<C: CarryOut<H, D>, H, D, W: Write>(
    pieces: &Pieces,
    writer: &mut W,
    heap: &mut H,
) -> SessionEnd
    ensures { (device : D) → ClosesInput C.carries result pieces.now (heap.old, device) (W.contents writer.old)
        (heap.new, device) (W.contents writer.new) }
{
    if !pieces.unfinished() {
        return SessionEnd::End;
    }
    let refusal = if pieces.line().len() > LINE_LIMIT {
        Refusal::TooLong
    } else {
        Refusal::Malformed
    };
    if reply(&Answer::Refused(refusal), writer).is_err() {
        return SessionEnd::WriteFault;
    }
    C::settle(heap);
    SessionEnd::Truncated
}
