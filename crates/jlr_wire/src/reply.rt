//! Reply lines out of answers.
ghost use Rattle.std.specs.Prelude.{ℕ, List, ◌≡◌, ◌++◌, ◌∷◌, [], ◌≤◌, length, codes, decimal, Some, IfSome, IfNone};
ghost use Rattle.std.specs.Prelude.{IsErr};
ghost use Rattle.std.specs.Io.KnownBytes.{Keeps};
ghost use Rattle.jlr_wire.specs.Replies.{Sends, spaced, stat_words, fault_text, failure_text, data_words, words};
ghost use Rattle.hex.specs.Hex.{encode_lower};

use arrayvec::ArrayVec;
use itoa::Buffer;
use jlr_device::retry;
use jlr_machine::ask::{Answer, Stat};
use jlr_machine::machine::Failure;
use jlr_machine::text::Name;
use jlr_types::{Fault, Handle};
use std::io::Write;

/// The most bytes that one call reads.
const DATA_LIMIT: usize = 200;

/// The most bytes of the line of a handle: `= 250` and its end.
const HANDLE_LINE_ROOM: usize = 6;

/// The most bytes of the line of an answer that is no list and no data; most are shorter by far.
const LINE_ROOM: usize = 128;

/// The most bytes of a line: that of 256 names of 32 bytes, each after a space, with its end.
const LONG_LINE_ROOM: usize = 8_453;

/// A write that failed or took nothing, or an answer that has no line.
#[derive(Clone, Copy, Debug, PartialEq, Eq)]
pub struct WriteFault;

/// Writes the bytes, or after a fault a prefix of them. A failed write is not tried again, an interrupted one is.
fn send<W: Write>(bytes: &[u8], writer: &mut W) -> Result<(), WriteFault>
    ensures { Sends (W.contents writer.old) (W.contents writer.new) result bytes.now }
{
    let mut rest = bytes;
    while !rest.is_empty() {
        match retry::write(writer, rest) {
            Ok(n) if n > 0 => rest = rest.split_at(n).1,
            _ => return Err(WriteFault),
        }
    }
    Ok(())
}

/// Writes two texts, one after the other.
fn send_both<W: Write>(text: &str, more: &str, writer: &mut W) -> Result<(), WriteFault>
    ensures { Sends (W.contents writer.old) (W.contents writer.new) result (text.now ++ more.now) }
{
    send(text.as_bytes(), writer)?;
    send(more.as_bytes(), writer)
}

/// Writes a text and then a number in decimal.
fn send_after<W: Write, N: itoa::Integer + Drop>(
    text: &str,
    n: N,
    writer: &mut W,
) -> Result<(), WriteFault>
    ensures { Sends (W.contents writer.old) (W.contents writer.new) result (text.now ++ N.text n) }
{
    let mut buffer = Buffer::new();
    send_both(text, buffer.format(n), writer)
}

/// Writes a word and then the numbers in decimal, each after a space.
fn send_list<W: Write, N: itoa::Integer + Drop>(
    word: &str,
    numbers: &[N],
    writer: &mut W,
) -> Result<(), WriteFault>
    ensures { Sends (W.contents writer.old) (W.contents writer.new) result (word.now ++ spaced N.text numbers.now) }
{
    send(word.as_bytes(), writer)?;
    for number in numbers {
        send_after(" ", *number, writer)?;
    }
    Ok(())
}

/// Writes the five counts.
fn send_stat<W: Write>(stat: &Stat, writer: &mut W) -> Result<(), WriteFault>
    ensures { Sends (W.contents writer.old) (W.contents writer.new) result (stat_words stat.now) }
{
    let counts = [
        stat.objects,
        stat.resources,
        stat.taken,
        stat.ok,
        stat.failed,
    ];
    send_list("stat", &counts, writer)
}

/// The name of a fault in a line.
fn fault_name(fault: Fault) -> &'static str
    ensures { result.now ≡ fault_text fault }
{
    match fault {
        Fault::NotFound => "notfound",
        Fault::Denied => "denied",
        Fault::Other => "other",
    }
}

/// Writes a space, a failed action and its fault.
fn send_failure<W: Write>(failure: &Failure, writer: &mut W) -> Result<(), WriteFault>
    ensures { Sends (W.contents writer.old) (W.contents writer.new) result (32 ∷ failure_text failure.now) }
{
    send_after(" ", failure.action.number(), writer)?;
    send_both(":", fault_name(failure.fault), writer)
}

/// Writes the list of the failed actions.
fn send_failures<W: Write>(failures: &[Failure], writer: &mut W) -> Result<(), WriteFault>
    ensures { Sends (W.contents writer.old) (W.contents writer.new) result
        (codes "list" ++ spaced failure_text failures.now) }
{
    send(b"list", writer)?;
    for failure in failures {
        send_failure(failure, writer)?;
    }
    Ok(())
}

/// Writes a space and a name.
fn send_name<W: Write>(name: &[u8], writer: &mut W) -> Result<(), WriteFault>
    ensures { Sends (W.contents writer.old) (W.contents writer.new) result (32 ∷ name.now) }
{
    send(b" ", writer)?;
    send(name, writer)
}

/// Writes the list of the names.
fn send_names<W: Write>(names: &[Name], writer: &mut W) -> Result<(), WriteFault>
    ensures { Sends (W.contents writer.old) (W.contents writer.new) result
        (codes "list" ++ spaced (λ name. name) names.now) }
{
    send(b"list", writer)?;
    for name in names {
        send_name(name.as_slice(), writer)?;
    }
    Ok(())
}

/// Writes some bytes in hexadecimal digits.
fn send_digits<W: Write>(bytes: &[u8], writer: &mut W) -> Result<(), WriteFault>
    requires { length bytes.now ≤ 200 }
    ensures { Sends (W.contents writer.old) (W.contents writer.new) result (encode_lower bytes.now) }
{
    let mut room = [0u8; 2 * DATA_LIMIT];
    let digits = &mut room[..2 * bytes.len()];
    hex::encode_to_slice(bytes, digits).unwrap();
    send(digits, writer)
}

/// Writes the bytes that were read, or that there were none.
fn send_data<W: Write>(bytes: &[u8], writer: &mut W) -> Result<(), WriteFault>
    requires { length bytes.now ≤ 200 }
    ensures { Sends (W.contents writer.old) (W.contents writer.new) result (data_words bytes.now) }
{
    if bytes.is_empty() {
        return send(b"end", writer);
    }
    send(b"data ", writer)?;
    send_digits(bytes, writer)
}

/// Writes what an answer says, without the end of the line.
fn write_words<W: Write>(answer: &Answer, writer: &mut W) -> Result<(), WriteFault>
    ensures line { IfSome (words answer.now) (Sends (W.contents writer.old) (W.contents writer.new) result) }
    ensures none { IfNone (words answer.now) (IsErr result × Keeps (W.contents writer.old) (W.contents writer.new)) }
{
    match answer {
        Answer::Done | Answer::AlreadyDone => send(b"ok", writer),
        Answer::Handle(handle) => send_after("= ", handle.number(), writer),
        Answer::Truth(true) => send(b"yes", writer),
        Answer::Truth(false) => send(b"no", writer),
        Answer::Int(n) => send_after("int ", *n, writer),
        Answer::Data(bytes) => send_data(bytes.as_slice(), writer),
        Answer::Wrote(count) => send_after("wrote ", count.number(), writer),
        Answer::Faulted(fault) => send_both("fault ", fault_name(*fault), writer),
        Answer::Names(names) => send_names(names.as_slice(), writer),
        Answer::Notes(notes) => send_list("list", notes.as_slice(), writer),
        Answer::Faults(failures) => send_failures(failures.as_slice(), writer),
        Answer::Stat(stat) => send_stat(stat, writer),
        Answer::Refused(refusal) => send_after("! ", refusal.number(), writer),
        Answer::Job { .. } | Answer::Prepared(_) | Answer::Out(_) | Answer::Handed(_) => {
            Err(WriteFault)
        }
    }
}

/// Writes the line of an answer with its end.
fn write_line<W: Write>(answer: &Answer, writer: &mut W) -> Result<(), WriteFault>
    ensures line { IfSome (words answer.now)
        (λ text. Sends (W.contents writer.old) (W.contents writer.new) result (text ++ 10 ∷ [])) }
    ensures none { IfNone (words answer.now) (IsErr result × Keeps (W.contents writer.old) (W.contents writer.new)) }
{
    write_words(answer, writer)?;
    send(b"\n", writer)
}

/// Writes the line of an answer with its end, and does not flush. It goes out by one write, where the writer takes it
/// whole.
///
/// At a fault a prefix of the line went out. For an answer that has no line nothing is written, and
/// it is a fault.
pub fn write_reply<W: Write>(answer: &Answer, writer: &mut W) -> Result<(), WriteFault>
    ensures line { IfSome (words answer.now)
        (λ text. Sends (W.contents writer.old) (W.contents writer.new) result (text ++ 10 ∷ [])) }
    ensures none { IfNone (words answer.now) (IsErr result × Keeps (W.contents writer.old) (W.contents writer.new)) }
{
    if let Some(line) = fixed_line(answer) {
        return send(line, writer);
    }
    if let Answer::Handle(handle) = answer {
        return send(handle_line(*handle).as_slice(), writer);
    }
    write_short_line(answer, writer)
}

/// The line of an answer that says always the same, with its end.
#[inline(always)]
fn fixed_line(answer: &Answer) -> Option<&'static [u8]>
    ensures { IfSome result (λ line. (text : List ℕ) × (words answer.now ≡ Some text) × (line.now ≡ text ++ 10 ∷ [])) }
{
    match answer {
        Answer::Done | Answer::AlreadyDone => Some(b"ok\n"),
        Answer::Truth(true) => Some(b"yes\n"),
        Answer::Truth(false) => Some(b"no\n"),
        _ => None,
    }
}

/// The line of a handle, with its end.
#[inline(always)]
fn handle_line(handle: Handle) -> ArrayVec<u8, HANDLE_LINE_ROOM>
    ensures { result.items ≡ (codes "= " ++ decimal handle) ++ 10 ∷ [] }
{
    let mut buffer = Buffer::new();
    let digits = buffer.format(handle.number());
    let mut line = ArrayVec::new();
    line.try_extend_from_slice(b"= ").unwrap();
    line.try_extend_from_slice(digits.as_bytes()).unwrap();
    line.push(b'\n');
    line
}

/// As `write_reply`, with room for the lines of most answers.
#[inline(never)]
fn write_short_line<W: Write>(answer: &Answer, writer: &mut W) -> Result<(), WriteFault>
    ensures line { IfSome (words answer.now)
        (λ text. Sends (W.contents writer.old) (W.contents writer.new) result (text ++ 10 ∷ [])) }
    ensures none { IfNone (words answer.now) (IsErr result × Keeps (W.contents writer.old) (W.contents writer.new)) }
{
    let mut line: ArrayVec<u8, LINE_ROOM> = ArrayVec::new();
    if write_line(answer, &mut line).is_ok() {
        return send(line.as_slice(), writer);
    }
    write_long_line(answer, writer)
}

/// As `write_reply`, with room for the lines of data and of long lists.
#[inline(never)]
fn write_long_line<W: Write>(answer: &Answer, writer: &mut W) -> Result<(), WriteFault>
    ensures line { IfSome (words answer.now)
        (λ text. Sends (W.contents writer.old) (W.contents writer.new) result (text ++ 10 ∷ [])) }
    ensures none { IfNone (words answer.now) (IsErr result × Keeps (W.contents writer.old) (W.contents writer.new)) }
{
    let mut line: ArrayVec<u8, LONG_LINE_ROOM> = ArrayVec::new();
    if write_line(answer, &mut line).is_ok() {
        return send(line.as_slice(), writer);
    }
    write_line(answer, writer)
}
