//! Calls of devices and of resources, and the events that tell their outcomes.
ghost use Rattle.std.specs.Prelude.{◌≤◌, length};
ghost use Rattle.jlr_session.specs.Asks.{TellsOpened, TellsConnected, TellsRead, TellsWritten};
ghost use Rattle.jlr_session.specs.Calls.{ReadsUpTo, Writes};

use jlr_device::guarded::{guarded_connect, guarded_open, guarded_read, guarded_write};
use jlr_device::{Device, Mode};
use jlr_event::event::Event;
use jlr_machine::ask::CallOutcome;
use jlr_machine::data::Data;
use jlr_machine::text::WriteCount;
use jlr_types::Mutator;

/// The most bytes that one call reads.
const CALL_LIMIT: usize = 200;

/// Opens a file, and gives the event that tells its outcome.
pub(crate) fn opened<D: Device>(
    device: &mut D,
    mutator: Mutator,
    mode: Mode,
    path: &str,
) -> Event<D::Res>
    ensures { TellsOpened (record {
      count = D.count;
      opens = D.may_open;
      connects = D.may_connect;
      failures = D.Res.handling.count;
    }) mutator mode path.now device.old device.new result }
{
    Event::Opened {
        mutator,
        outcome: guarded_open(device, mode, path),
    }
}

/// Joins a socket, and gives the event that tells its outcome.
pub(crate) fn connected<D: Device>(device: &mut D, mutator: Mutator, path: &str) -> Event<D::Res>
    ensures { TellsConnected (record {
      count = D.count;
      opens = D.may_open;
      connects = D.may_connect;
      failures = D.Res.handling.count;
    }) mutator path.now device.old device.new result }
{
    Event::Opened {
        mutator,
        outcome: guarded_connect(device, path),
    }
}

/// Reads at most so many bytes of a resource, 200 at most, into the room for them, and gives the event that tells them
/// and hands it back.
pub(crate) fn read_back<D: Device>(
    device: &D,
    mutator: Mutator,
    resource: D::Res,
    count: u8,
    room: Data,
) -> Event<D::Res>
    ensures { TellsRead D.Res.handling
        mutator count resource result }
{
    let mut resource = resource;
    Event::CheckIn {
        mutator,
        outcome: read_of(device, &mut resource, count, room),
        resource,
    }
}

fn read_of<D: Device>(device: &D, resource: &mut D::Res, count: u8, room: Data) -> CallOutcome
    ensures { ReadsUpTo D.Res.handling
        count resource.old result resource.new }
{
    let mut buffer = [0u8; CALL_LIMIT];
    let bytes = &mut buffer[..CALL_LIMIT.min(usize::from(count))];
    match guarded_read(device, resource, bytes) {
        Ok(n) => {
            let mut room = room;
            room.fill(&bytes[..n]);
            CallOutcome::Data(room)
        }
        Err(fault) => CallOutcome::Failed(fault),
    }
}

/// Writes bytes to a resource, at most 200, and gives the event that tells how many it took and hands it back.
pub(crate) fn written_back<D: Device>(
    device: &D,
    mutator: Mutator,
    resource: D::Res,
    bytes: &[u8],
) -> Event<D::Res>
    requires { length bytes.now ≤ 200 }
    ensures { TellsWritten D.Res.handling
        mutator bytes.now resource result }
{
    let mut resource = resource;
    Event::CheckIn {
        mutator,
        outcome: write_of(device, &mut resource, bytes),
        resource,
    }
}

fn write_of<D: Device>(device: &D, resource: &mut D::Res, bytes: &[u8]) -> CallOutcome
    requires { length bytes.now ≤ 200 }
    ensures { Writes D.Res.handling
        bytes.now resource.old result resource.new }
{
    match guarded_write(device, resource, bytes) {
        Ok(n) => CallOutcome::Wrote(WriteCount::new(n as u8).unwrap()),
        Err(fault) => CallOutcome::Failed(fault),
    }
}
