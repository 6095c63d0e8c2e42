//! The commands on files and sockets: at most two asks, and between them one call of the system.
ghost use Rattle.std.specs.Prelude.{◌≡◌, ◌≤◌, true, length, ⊤};
ghost use Rattle.jlr_event.specs.declared.event.Event.TheVariants as event;
ghost use Rattle.jlr_machine.specs.declared.ask.Ask.TheVariants as ask;
ghost use Rattle.jlr_event.specs.Events.{outcome_of};
ghost use Rattle.jlr_session.specs.Calls.{ReadsUpTo, Writes};
ghost use Rattle.jlr_session.specs.Asks.{TellsConnected, TellsFinished, TellsOpened, TellsRead, TellsWritten};
ghost use Rattle.jlr_session.specs.Asks.{job_by, out_by, prepared_by};
ghost use Rattle.jlr_embed.specs.Kinds.{is_data, tells_done, is_faulted, is_handle, is_told, is_wrote};
ghost use Rattle.jlr_heap.specs.Files.{IsAskedTwice, IsEntered, IsSaid, TellsClosed, count_outcome, count_told};
ghost use Rattle.jlr_heap.specs.Files.{data_outcome, data_told, failure, finish_told, guard_told};

use crate::failed::Failed;
use crate::handles::Guard;
use crate::heap::me;
use crate::keeper::Keeper;
use jlr_device::guarded::{guarded_connect, guarded_open, guarded_read, guarded_write};
use jlr_device::{Device, Mode, Resource};
use jlr_event::event::Event;
use jlr_machine::ask::{Answer, Ask, CallOutcome, Outcome};
use jlr_machine::data::{CopyRoom, Data};
use jlr_machine::text::WriteCount;
use jlr_session::job::finish;
use jlr_types::{ActionNo, Fault, Handle};

/// The most bytes that one call reads.
const CALL_LIMIT: usize = 200;

// ---- What answers tell

/// Why it did not succeed.
fn failure(answer: &Answer) -> Failed
    requires { is_told is_faulted answer.now ≡ true }
    ensures { answer.now ≡ failure result }
{
    match answer {
        Answer::Faulted(fault) => Failed::Faulted(*fault),
        Answer::Refused(by) => Failed::Refused(*by),
        _ => unreachable!(),
    }
}

/// A guard.
fn guard(answer: &Answer) -> Result<Guard, Failed>
    requires { is_told is_handle answer.now ≡ true }
    ensures { answer.now ≡ guard_told result }
{
    match answer {
        Answer::Handle(handle) => Ok(Guard::of(*handle)),
        Answer::Refused(by) => Err(Failed::Refused(*by)),
        _ => unreachable!(),
    }
}

/// What was read.
fn data(answer: Answer) -> Result<Data, Failed>
    requires { is_told is_data answer ≡ true }
    ensures { answer ≡ data_told result }
{
    match answer {
        Answer::Data(bytes) => Ok(bytes),
        Answer::Refused(by) => Err(Failed::Refused(by)),
        _ => unreachable!(),
    }
}

/// How many bytes were written.
fn count(answer: &Answer) -> Result<WriteCount, Failed>
    requires { is_told is_wrote answer.now ≡ true }
    ensures { answer.now ≡ count_told result }
{
    match answer {
        Answer::Wrote(count) => Ok(*count),
        Answer::Refused(by) => Err(Failed::Refused(*by)),
        _ => unreachable!(),
    }
}

/// That it ended.
fn done(answer: &Answer) -> Result<(), Failed>
    requires { is_told tells_done answer.now ≡ true }
    ensures { answer.now ≡ finish_told result }
{
    match answer {
        Answer::Done => Ok(()),
        Answer::Refused(by) => Err(Failed::Refused(*by)),
        _ => unreachable!(),
    }
}

// ---- What the heap is told of a call

/// The heap is told how an opening ended, and gives the guard.
fn opened<K: Keeper>(keeper: &mut K, outcome: Result<K::Held, Fault>) -> Result<Guard, Failed>
    ensures { IsSaid K.asking guard_told keeper.old (event.Opened 0 outcome) result keeper.new }
{
    match outcome {
        Ok(held) => {
            let (answer, _) = keeper.carry(
                Event::Opened {
                    mutator: me(),
                    outcome: Ok(held),
                },
                None,
            );
            guard(&answer)
        }
        Err(fault) => {
            let (answer, _) = keeper.carry(
                Event::Opened {
                    mutator: me(),
                    outcome: Err(fault),
                },
                None,
            );
            Err(failure(&answer))
        }
    }
}

/// The heap is told how a read ended, and gives what was read.
fn was_read<K: Keeper>(
    keeper: &mut K,
    held: K::Held,
    outcome: Result<Data, Fault>,
    copies: CopyRoom,
) -> Result<Data, Failed>
    ensures { IsSaid K.asking data_told keeper.old (event.CheckIn 0 (data_outcome outcome) held) result keeper.new }
{
    match outcome {
        Ok(bytes) => {
            let (answer, _) = keeper.carry(
                Event::CheckIn {
                    mutator: me(),
                    outcome: CallOutcome::Data(bytes),
                    resource: held,
                },
                Some(copies),
            );
            data(answer)
        }
        Err(fault) => {
            let (answer, _) = keeper.carry(
                Event::CheckIn {
                    mutator: me(),
                    outcome: CallOutcome::Failed(fault),
                    resource: held,
                },
                None,
            );
            Err(failure(&answer))
        }
    }
}

/// The heap is told how a write ended, and gives how many bytes were written.
fn was_written<K: Keeper>(
    keeper: &mut K,
    held: K::Held,
    outcome: Result<WriteCount, Fault>,
) -> Result<WriteCount, Failed>
    ensures { IsSaid K.asking count_told keeper.old (event.CheckIn 0 (count_outcome outcome) held) result keeper.new }
{
    match outcome {
        Ok(written) => {
            let (answer, _) = keeper.carry(
                Event::CheckIn {
                    mutator: me(),
                    outcome: CallOutcome::Wrote(written),
                    resource: held,
                },
                None,
            );
            count(&answer)
        }
        Err(fault) => {
            let (answer, _) = keeper.carry(
                Event::CheckIn {
                    mutator: me(),
                    outcome: CallOutcome::Failed(fault),
                    resource: held,
                },
                None,
            );
            Err(failure(&answer))
        }
    }
}

/// The heap is told how a job ended that a mutator took up, or, by 255, the cleaner.
pub(crate) fn finished<K: Keeper>(
    keeper: &mut K,
    by: u8,
    action: ActionNo,
    outcome: Result<(), Fault>,
) -> Result<(), Failed>
    ensures { IsEntered K.asking finish_told keeper.old (event.Ask (ask.Finish by action (outcome_of outcome))) result
        keeper.new }
{
    match outcome {
        Ok(()) => {
            let answer = keeper.ask(Ask::Finish {
                by,
                action,
                outcome: Outcome::Ok,
            });
            done(&answer)
        }
        Err(fault) => {
            let answer = keeper.ask(Ask::Finish {
                by,
                action,
                outcome: Outcome::Failed(fault),
            });
            Err(failure(&answer))
        }
    }
}

// ---- Calls of the system

/// Reads at most so many bytes, 200 at most, into the room for them.
fn read_of<D: Device>(
    device: &D,
    resource: &mut D::Res,
    count: u8,
    room: Data,
) -> Result<Data, Fault>
    ensures { ReadsUpTo D.Res.handling count resource.old (data_outcome result) resource.new }
{
    let mut buffer = [0u8; CALL_LIMIT];
    let bytes = &mut buffer[..CALL_LIMIT.min(usize::from(count))];
    match guarded_read(device, resource, bytes) {
        Ok(n) => {
            let mut room = room;
            room.fill(&bytes[..n]);
            Ok(room)
        }
        Err(fault) => Err(fault),
    }
}

/// Writes bytes, at most 200, or a prefix of them.
fn write_of<D: Device>(device: &D, resource: &mut D::Res, bytes: &[u8]) -> Result<WriteCount, Fault>
    requires { length bytes.now ≤ 200 }
    ensures { Writes D.Res.handling bytes.now resource.old (count_outcome result) resource.new }
{
    match guarded_write(device, resource, bytes) {
        Ok(n) => Ok(WriteCount::new(n as u8).unwrap()),
        Err(fault) => Err(fault),
    }
}

// ---- Commands

/// Opens a file.
pub(crate) fn open<K: Keeper, D: Device<Res = K::Held>>(
    keeper: &mut K,
    device: &mut D,
    mode: Mode,
    path: &str,
) -> Result<Guard, Failed>
where
    K::Held: Resource,
    ensures { IsAskedTwice K.asking (ask.Prepare 0) prepared_by
        (λ _. TellsOpened
        (record { count = D.count; opens = D.may_open; connects = D.may_connect; failures = K.Held.handling.count })
        0 mode path.now device.old device.new)
        (device.new ≡ device.old) (λ result said. said ≡ guard_told result) keeper.old result keeper.new }
{
    match keeper.ask(Ask::Prepare { mutator: me() }) {
        Answer::Prepared(_) => {
            let outcome = guarded_open(device, mode, path);
            opened(keeper, outcome)
        }
        Answer::Refused(by) => Err(Failed::Refused(by)),
        _ => unreachable!(),
    }
}

/// Joins a socket.
pub(crate) fn connect<K: Keeper, D: Device<Res = K::Held>>(
    keeper: &mut K,
    device: &mut D,
    path: &str,
) -> Result<Guard, Failed>
where
    K::Held: Resource,
    ensures { IsAskedTwice K.asking (ask.Prepare 0) prepared_by
        (λ _. TellsConnected
        (record { count = D.count; opens = D.may_open; connects = D.may_connect; failures = K.Held.handling.count })
        0 path.now device.old device.new)
        (device.new ≡ device.old) (λ result said. said ≡ guard_told result) keeper.old result keeper.new }
{
    match keeper.ask(Ask::Prepare { mutator: me() }) {
        Answer::Prepared(_) => {
            let outcome = guarded_connect(device, path);
            opened(keeper, outcome)
        }
        Answer::Refused(by) => Err(Failed::Refused(by)),
        _ => unreachable!(),
    }
}

/// Reads from a file or a socket.
pub(crate) fn read<K: Keeper, D: Device<Res = K::Held>>(
    keeper: &mut K,
    device: &D,
    guard: Handle,
    count: u8,
    room: Data,
    copies: CopyRoom,
) -> Result<Data, Failed>
where
    K::Held: Resource,
    ensures { IsAskedTwice K.asking (ask.CheckOut 0 guard) out_by (TellsRead K.Held.handling 0 count) ⊤
        (λ result said. said ≡ data_told result) keeper.old result keeper.new }
{
    let (answer, held) = keeper.carry(
        Event::ask(Ask::CheckOut {
            mutator: me(),
            guard,
        }),
        None,
    );
    match answer {
        Answer::Out(_) => match held {
            Some(held) => {
                let mut held = held;
                let outcome = read_of(device, &mut held, count, room);
                was_read(keeper, held, outcome, copies)
            }
            None => unreachable!(),
        },
        Answer::Refused(by) => Err(Failed::Refused(by)),
        _ => unreachable!(),
    }
}

/// Writes to a file or a socket.
pub(crate) fn write<K: Keeper, D: Device<Res = K::Held>>(
    keeper: &mut K,
    device: &D,
    guard: Handle,
    bytes: &[u8],
) -> Result<WriteCount, Failed>
where
    K::Held: Resource,
    requires { length bytes.now ≤ 200 }
    ensures { IsAskedTwice K.asking (ask.CheckOut 0 guard) out_by (TellsWritten K.Held.handling 0 bytes.now) ⊤
        (λ result said. said ≡ count_told result) keeper.old result keeper.new }
{
    let (answer, held) = keeper.carry(
        Event::ask(Ask::CheckOut {
            mutator: me(),
            guard,
        }),
        None,
    );
    match answer {
        Answer::Out(_) => match held {
            Some(held) => {
                let mut held = held;
                let outcome = write_of(device, &mut held, bytes);
                was_written(keeper, held, outcome)
            }
            None => unreachable!(),
        },
        Answer::Refused(by) => Err(Failed::Refused(by)),
        _ => unreachable!(),
    }
}

/// Takes up the finishing of what a guard holds, and does it.
pub(crate) fn close<K: Keeper>(keeper: &mut K, guard: Handle) -> Result<bool, Failed>
where
    K::Held: Resource,
    ensures { IsAskedTwice K.asking (ask.Close 0 guard) job_by (TellsFinished K.Held.handling 0) ⊤ TellsClosed
        keeper.old result keeper.new }
{
    let (answer, held) = keeper.carry(
        Event::ask(Ask::Close {
            mutator: me(),
            guard,
        }),
        None,
    );
    match answer {
        Answer::Job { action, .. } => {
            let outcome = finish(held);
            match finished(keeper, 0, action, outcome) {
                Ok(()) => Ok(true),
                Err(why) => Err(why),
            }
        }
        Answer::AlreadyDone | Answer::Handed(_) => Ok(false),
        Answer::Refused(by) => Err(Failed::Refused(by)),
        _ => unreachable!(),
    }
}
