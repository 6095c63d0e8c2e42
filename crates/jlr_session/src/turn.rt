//! One line and its reply.
ghost use Rattle.jlr_session.specs.Turns.{AnswersRead, SendsReply, TurnEnds};

use crate::carry::CarryOut;
use crate::shell::SessionEnd;
use jlr_event::event::write_over;
use jlr_machine::ask::Answer;
use jlr_types::Refusal;
use jlr_wire::command::{Command, read_command};
use jlr_wire::reply::{WriteFault, write_reply};
use std::io::Write;

/// Answers a line that was read, in place of another answer: `bye` by `ok`, a line that is no command by its refusal,
/// and every other command by what carries it out.
#[inline(always)]
fn answer_of<C: CarryOut<H, D>, H, D>(
    read: &Result<Command<'_>, Refusal>,
    heap: &mut H,
    device: &mut D,
    answer: &mut Answer,
)
    ensures { AnswersRead C.carries read.now (heap.old, device.old) answer.new (heap.new, device.new) }
{
    match read {
        Ok(Command::Bye) => write_over(answer, Answer::Done),
        Ok(command) => C::carry_out(heap, device, command, answer),
        Err(refusal) => write_over(answer, Answer::Refused(*refusal)),
    }
}

/// Writes a reply line and flushes.
#[inline(always)]
pub fn reply<W: Write>(answer: &Answer, writer: &mut W) -> Result<(), WriteFault>
    ensures { SendsReply (W.contents writer.old) (W.contents writer.new) result answer.now }
{
    write_reply(answer, writer)?;
    if writer.flush().is_err() {
        return Err(WriteFault);
    }
    Ok(())
}

/// Answers a line, settles once the reply went out, and says how the session ended if this was its last.
pub fn answer_line<C: CarryOut<H, D>, H, D, W: Write>(
    line: &[u8],
    writer: &mut W,
    heap: &mut H,
    device: &mut D,
) -> Option<SessionEnd>
    ensures { TurnEnds C.carries line.now (heap.old, device.old) (W.contents writer.old) result (heap.new, device.new)
        (W.contents writer.new) }
{
    let read = read_command(line);
    let mut answer = Answer::Done;
    answer_of::<C, H, D>(&read, heap, device, &mut answer);
    if reply(&answer, writer).is_err() {
        return Some(SessionEnd::WriteFault);
    }
    C::settle(heap);
    match read {
        Ok(Command::Bye) => Some(SessionEnd::Bye),
        _ => None,
    }
}
