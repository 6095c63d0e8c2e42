//! Commands carried out by the asks of a port.
ghost use Rattle.std.specs.Prelude.{◌≡◌, false, ⊤};
ghost use Rattle.jlr_machine.specs.declared.ask.Ask.TheVariants as ask;
ghost use Rattle.jlr_event.specs.Asks.{hands_in};
ghost use Rattle.jlr_session.specs.Asks.{AsksTwice, TellsOpened, TellsConnected, TellsRead, TellsWritten};
ghost use Rattle.jlr_session.specs.Asks.{TellsFinished, prepared_by, out_by, job_by};

use crate::call::{connected, opened, read_back, written_back};
use crate::carry::CarryOut;
use crate::event::ask_for;
use crate::job::{carry_out, job_of};
use crate::port::{Port, ReadRoom};
use crate::reply::{handed_out, prepared};
use jlr_device::{Device, Mode, Resource};
use jlr_event::event::{Event, write_over};
use jlr_machine::ask::{Answer, Ask};
use jlr_types::{Handle, Mutator};
use jlr_wire::command::{Command, Digits};

/// Commands are carried out by asks of a port, and between two asks by a call of a device or of one of its resources.
pub(crate) struct ByAsks;

impl<P: Port<D::Res>, D: Device> CarryOut<P, D> for ByAsks
where
    D::Res: Drop,
{
    ghost use Rattle.jlr_session.specs.Asks.{by_asks};

    ghost carries = { by_asks P.asking (record {
      count = D.count;
      opens = D.may_open;
      connects = D.may_connect;
      failures = D.Res.handling.count;
    }) D.Res.handling };

    #[inline(always)]
    fn carry_out(heap: &mut P, device: &mut D, command: &Command<'_>, answer: &mut Answer) {
        let mutator = heap.mutator();
        match command {
            Command::Open { mode, path } => {
                open(heap, device, mutator, *mode, path.as_str(), answer)
            }
            Command::Connect { path } => connect(heap, device, mutator, path.as_str(), answer),
            Command::Read { guard, count } => read(heap, device, mutator, *guard, *count, answer),
            Command::Write { guard, bytes } => write(heap, device, mutator, *guard, bytes, answer),
            Command::Clean { cleanable } => clean(heap, mutator, *cleanable, answer),
            Command::Close { guard } => close(heap, mutator, *guard, answer),
            command => match ask_for(mutator, command) {
                Some(ask) => heap.answer(ask, answer),
                None => write_over(answer, Answer::Done),
            },
        }
    }

    fn settle(heap: &mut P) {
        heap.settle();
    }
}

/// Opens a file.
#[inline(never)]
fn open<P: Port<D::Res>, D: Device>(
    port: &mut P,
    device: &mut D,
    mutator: Mutator,
    mode: Mode,
    path: &str,
    answer: &mut Answer,
)
where
    D::Res: Drop,
    ensures { AsksTwice P.asking (ask.Prepare mutator) prepared_by
        (λ _. TellsOpened (record {
          count = D.count;
          opens = D.may_open;
          connects = D.may_connect;
          failures = D.Res.handling.count;
        }) mutator mode path.now device.old device.new)
        (device.new ≡ device.old) port.old answer.new port.new }
{
    match prepared(port.ask(Event::ask(Ask::Prepare { mutator }), None)) {
        Ok(()) => port
            .ask(opened(device, mutator, mode, path), None)
            .answer_into(answer),
        Err(refused) => write_over(answer, refused),
    }
}

/// Joins a socket.
#[inline(never)]
fn connect<P: Port<D::Res>, D: Device>(
    port: &mut P,
    device: &mut D,
    mutator: Mutator,
    path: &str,
    answer: &mut Answer,
)
where
    D::Res: Drop,
    ensures { AsksTwice P.asking (ask.Prepare mutator) prepared_by
        (λ _. TellsConnected (record {
          count = D.count;
          opens = D.may_open;
          connects = D.may_connect;
          failures = D.Res.handling.count;
        }) mutator path.now device.old device.new)
        (device.new ≡ device.old) port.old answer.new port.new }
{
    match prepared(port.ask(Event::ask(Ask::Prepare { mutator }), None)) {
        Ok(()) => port
            .ask(connected(device, mutator, path), None)
            .answer_into(answer),
        Err(refused) => write_over(answer, refused),
    }
}

/// Reads from a file or a socket.
#[inline(never)]
fn read<P: Port<D::Res>, D: Device>(
    port: &mut P,
    device: &D,
    mutator: Mutator,
    guard: Handle,
    count: u8,
    answer: &mut Answer,
)
where
    D::Res: Drop,
    requires { mutator ≡ P.asking.mutator port.old }
    ensures { AsksTwice P.asking (ask.CheckOut mutator guard) out_by
        (TellsRead D.Res.handling mutator count)
        ⊤ port.old answer.new port.new }
{
    let ReadRoom { bytes, copies } = match port.read_room(guard) {
        Ok(room) => room,
        Err(by) => {
            write_over(answer, Answer::Refused(by));
            return;
        }
    };
    match handed_out(port.ask(Event::ask(Ask::CheckOut { mutator, guard }), None)) {
        Ok(resource) => {
            let told = read_back(device, mutator, resource, count, bytes);
            port.ask(told, Some(copies)).answer_into(answer);
        }
        Err(refused) => write_over(answer, refused),
    }
}

/// Writes to a file or a socket.
#[inline(never)]
fn write<P: Port<D::Res>, D: Device>(
    port: &mut P,
    device: &D,
    mutator: Mutator,
    guard: Handle,
    digits: &Digits<'_>,
    answer: &mut Answer,
)
where
    D::Res: Drop,
    ensures { AsksTwice P.asking (ask.CheckOut mutator guard) out_by
        (TellsWritten D.Res.handling mutator digits.now)
        ⊤ port.old answer.new port.new }
{
    let bytes = digits.decode();
    match handed_out(port.ask(Event::ask(Ask::CheckOut { mutator, guard }), None)) {
        Ok(resource) => {
            let told = written_back(device, mutator, resource, bytes.as_slice());
            port.ask(told, None).answer_into(answer);
        }
        Err(refused) => write_over(answer, refused),
    }
}

/// Takes up a cleaning action before its object is reclaimed, and does its work.
#[inline(never)]
fn clean<P: Port<R>, R: Resource + Drop>(
    port: &mut P,
    mutator: Mutator,
    cleanable: Handle,
    answer: &mut Answer,
)
    ensures { AsksTwice P.asking (ask.Clean mutator cleanable) job_by
        (TellsFinished R.handling mutator)
        ⊤ port.old answer.new port.new }
{
    work(port, mutator, Ask::Clean { mutator, cleanable }, answer);
}

/// Takes up the finishing of a resource, and does it.
#[inline(never)]
fn close<P: Port<R>, R: Resource + Drop>(
    port: &mut P,
    mutator: Mutator,
    guard: Handle,
    answer: &mut Answer,
)
    ensures { AsksTwice P.asking (ask.Close mutator guard) job_by
        (TellsFinished R.handling mutator)
        ⊤ port.old answer.new port.new }
{
    work(port, mutator, Ask::Close { mutator, guard }, answer);
}

/// Takes up a cleaning action and does its work.
fn work<P: Port<R>, R: Resource + Drop>(
    port: &mut P,
    mutator: Mutator,
    ask: Ask,
    answer: &mut Answer,
)
    requires { hands_in ask ≡ false }
    ensures { AsksTwice P.asking ask job_by
        (TellsFinished R.handling mutator)
        ⊤ port.old answer.new port.new }
{
    match job_of(port.ask(Event::ask(ask), None)) {
        Ok(job) => port
            .ask(carry_out(mutator.number(), job), None)
            .answer_into(answer),
        Err(refused) => write_over(answer, refused),
    }
}
