//! Guarded files and sockets: what opens, reads, writes and closes them.
ghost use Rattle.std.specs.Prelude.{Result, Some, length, min, take};
ghost use Rattle.jlr_types.specs.declared.Fault.{Fault as Why};
ghost use Rattle.jlr_event.specs.Events.{outcome_of};
ghost use Rattle.jlr_session.specs.Calls.{Finishes};
ghost use Rattle.jlr_heap.specs.Entries.{IsEntry};
ghost use Rattle.jlr_heap.specs.Files.{IsClosed, IsConnected, IsOpened, IsRead, WritesFile, finish_told};

use crate::commands::{close, connect, finished, open, read, write};
use crate::failed::Failed;
use crate::handles::Guard;
use crate::heap::Heap;
use crate::keeper::Keeper;
use jlr_device::{Device, Mode, Resource};
use jlr_machine::ask::Ask;
use jlr_machine::data::{CopyRoom, Data};
use jlr_machine::text::WriteCount;
use jlr_session::job::finish;
use jlr_types::ActionNo;
use std::alloc::{AllocError, Global};

/// The most bytes that one call writes.
const CALL_LIMIT: usize = 200;

/// Room for what one call reads, 200 bytes, and for what a history tells of it.
#[derive(Drop)]
pub struct ReadRoom {
    bytes: Data,
    copies: CopyRoom,
}

impl ReadRoom {
    /// Such room.
    ///
    /// # Errors
    /// `AllocError` where there is no memory.
    pub fn new(alloc: Global) -> Result<Self, AllocError> {
        Ok(ReadRoom {
            bytes: Data::new(alloc)?,
            copies: CopyRoom::new(alloc)?,
        })
    }
}

impl<K: Keeper> Heap<K>
where
    K::Held: Resource,
{
    /// A file that is there is opened for reading: its guard. It may take memory.
    pub fn open_read<D: Device<Res = K::Held>>(
        &mut self,
        device: &mut D,
        path: &str,
    ) -> Result<Guard, Failed>
        ensures { IsOpened K.asking
            (record { count = D.count; opens = D.may_open; connects = D.may_connect; failures = K.Held.handling.count })
            Mode.Read path.now device.old device.new self.old result self.new }
    {
        let result = open(&mut self.keeper, device, Mode::Read, path);
        self.follow();
        result
    }

    /// A file is made, or loses what it holds, and is opened for writing: its guard. It may take memory.
    pub fn create<D: Device<Res = K::Held>>(
        &mut self,
        device: &mut D,
        path: &str,
    ) -> Result<Guard, Failed>
        ensures { IsOpened K.asking
            (record { count = D.count; opens = D.may_open; connects = D.may_connect; failures = K.Held.handling.count })
            Mode.Write path.now device.old device.new self.old result self.new }
    {
        let result = open(&mut self.keeper, device, Mode::Write, path);
        self.follow();
        result
    }

    /// A socket is joined: its guard. It may take memory.
    pub fn connect<D: Device<Res = K::Held>>(
        &mut self,
        device: &mut D,
        path: &str,
    ) -> Result<Guard, Failed>
        ensures { IsConnected K.asking
            (record { count = D.count; opens = D.may_open; connects = D.may_connect; failures = K.Held.handling.count })
            path.now device.old device.new self.old result self.new }
    {
        let result = connect(&mut self.keeper, device, path);
        self.follow();
        result
    }

    /// At most so many bytes are read, 200 at most; none at the end.
    pub fn read<D: Device<Res = K::Held>>(
        &mut self,
        device: &D,
        guard: Guard,
        count: u8,
        room: ReadRoom,
    ) -> Result<Data, Failed>
        ensures { IsRead K.asking K.Held.handling guard count self.old result self.new }
    {
        let ReadRoom { bytes, copies } = room;
        let result = read(
            &mut self.keeper,
            device,
            guard.handle(),
            count,
            bytes,
            copies,
        );
        self.follow();
        result
    }

    /// Bytes of the front of these, of which only the first 200 are looked at, are written: how many.
    pub fn write<D: Device<Res = K::Held>>(
        &mut self,
        device: &D,
        guard: Guard,
        bytes: &[u8],
    ) -> Result<WriteCount, Failed>
        ensures { WritesFile K.asking K.Held.handling guard (take (min 200 (length bytes.now)) bytes.now) self.old
            result
            self.new }
    {
        let front = &bytes[..CALL_LIMIT.min(bytes.len())];
        let result = write(&mut self.keeper, device, guard.handle(), front);
        self.follow();
        result
    }

    /// A guard is closed: its file's bytes go to the disk, or its socket is shut down. Whether it was now; it was
    /// before, where not.
    pub fn close(&mut self, guard: Guard) -> Result<bool, Failed>
        ensures { IsClosed K.asking K.Held.handling guard self.old result self.new }
    {
        let result = close(&mut self.keeper, guard.handle());
        self.follow();
        result
    }

    /// A job of `next_job` is done: what a guard that was reclaimed held is finished, and how that ended is told.
    pub fn finish_held(&mut self, action: ActionNo, held: K::Held) -> Result<(), Failed>
        ensures { (outcome : Result (Unit {0}) Why) × Finishes K.Held.handling (Some held) outcome
            × IsEntry K.asking self.old (Ask.Finish 255 action (outcome_of outcome)) (finish_told result) self.new }
    {
        let outcome = finish(Some(held));
        let result = finished(&mut self.keeper, 255, action, outcome);
        self.follow();
        result
    }
}
