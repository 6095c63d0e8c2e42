//! A whole session over a port and a device.
ghost use Rattle.std.specs.Prelude.{◌≡◌, ◌≤◌, ℕ, List, length};
ghost use Rattle.std.specs.Io.KnownBytes.{Appends, Consumes};
ghost use Rattle.jlr_machine.specs.declared.ask.Ask.TheVariants.{Join, Leave};
ghost use Rattle.jlr_event.specs.declared.event.Event.TheVariants.{Ask as Asks};
ghost use Rattle.jlr_event.specs.declared.event.Reply.{Reply};
ghost use Rattle.jlr_event.specs.Events.{said_by};
ghost use Rattle.jlr_session.specs.Limits.{FindsEnd, most_bytes};
ghost use Rattle.jlr_session.specs.Serving.{IsTurnedAway, Serves};

use crate::asks::ByAsks;
use crate::port::Port;
use crate::shell::{SessionEnd, converse};
use crate::turn::reply;
use jlr_device::Device;
use jlr_event::event::Event;
use jlr_machine::ask::{Answer, Ask};
use jlr_types::Refusal;
use std::io::{Read, Write};

/// A session of the port's mutator: it joins, the lines of the reader are carried out one after the other, and it
/// leaves. Each line is answered by one flushed line of the writer, that of the last answer to its command, and the
/// port settles after it.
///
/// `open` and `connect` ask `Prepare`, call the device and ask `Opened` with its outcome; `read` and `write` ask
/// `CheckOut`, call the resource and ask `CheckIn` with the outcome and the resource; `clean` and `close` ask, and
/// where that takes up a job they do its work and ask `Finish`. Each other command is one ask. Where a count of
/// failures is at its last value no call is made, and the outcome is `other`. A resource that comes with another answer
/// is dropped.
///
/// A refused join is answered by its refusal, and ends the session as `NotJoined` before anything is read; then nobody
/// leaves. An answer that has no line, and a reply that holds no answer, end it as `WriteFault`. The other ends are
/// those of `converse`.
pub fn serve<R: Read, W: Write, P: Port<D::Res>, D: Device>(
    reader: &mut R,
    writer: &mut W,
    port: &mut P,
    device: &mut D,
) -> SessionEnd
where
    D::Res: Drop,
    ensures { (bytes : List ℕ) × (out : List ℕ)
        × Consumes (R.remaining reader.old) (R.remaining reader.new) bytes
        × Appends (W.contents writer.old) (W.contents writer.new) out
        × (length bytes ≤ most_bytes)
        × Serves P.asking (record {
          count = D.count;
          opens = D.may_open;
          connects = D.may_connect;
          failures = D.Res.handling.count;
        })
        D.Res.handling
        (FindsEnd (R.remaining reader.new) bytes) result bytes port.old device.old out port.new device.new }
{
    if let Answer::Refused(refusal) = join(port) {
        return turn_away(writer, port, refusal);
    }
    let end = converse::<ByAsks, P, D, R, W>(reader, writer, port, device);
    leave(port);
    end
}

/// The mutator joins.
#[inline(never)]
fn join<P: Port<R>, R: Drop>(port: &mut P) -> Answer
    ensures { (reply : Reply R) × P.asking.asks port.old (Asks (Join (P.asking.mutator port.old))) reply port.new
        × (result ≡ said_by reply) }
{
    let mutator = port.mutator();
    let mut answer = Answer::Done;
    port.answer(Ask::Join { mutator }, &mut answer);
    answer
}

/// The mutator leaves.
#[inline(never)]
fn leave<P: Port<R>, R: Drop>(port: &mut P)
    ensures { (reply : Reply R) × P.asking.asks port.old (Asks (Leave (P.asking.mutator port.old))) reply port.new }
{
    let mutator = port.mutator();
    let _ = port.ask(Event::ask(Ask::Leave { mutator }), None);
}

/// Tells why the mutator could not join.
#[inline(never)]
fn turn_away<W: Write, P: Port<R>, R>(writer: &mut W, port: &mut P, refusal: Refusal) -> SessionEnd
    ensures { (out : List ℕ) × Appends (W.contents writer.old) (W.contents writer.new) out
        × IsTurnedAway P.asking refusal result port.old out port.new }
{
    if reply(&Answer::Refused(refusal), writer).is_err() {
        return SessionEnd::WriteFault;
    }
    port.settle();
    SessionEnd::NotJoined(refusal)
}
