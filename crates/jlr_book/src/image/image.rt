//! The machine before a trace.
ghost use Rattle.std.specs.Prelude.{◌≡◌, ◌≤◌, false, [], IfOk, OnOk, OnErr, None, option_map, vec_capacity};
ghost use Rattle.jlr_machine.specs.declared.machine.Machine.{Machine as MachineOf};
ghost use Rattle.jlr_machine.specs.Run.{Run, empty};
ghost use Rattle.jlr_machine.specs.WellFormed.{IsImage, IsWellFormed};
ghost use Rattle.jlr_plain.specs.Records.{replayed};
ghost use Rattle.jlr_plain.specs.Unseen.{unseen};
ghost use Rattle.jlr_book.specs.Led.{with_cycle_closed, shut};
ghost use Rattle.jlr_book.specs.ImageKeeping.{kept_from};

use crate::image::cells::add_cells;
use crate::image::following::{follow_all, follow_at, make_array};
use jlr_machine::copies::copy_machine;
use jlr_machine::items::Items;
use jlr_machine::machine::Machine;
use jlr_machine::object::Object;
use jlr_plain::empty::{empty_plain, empty_plain_with};
use jlr_plain::record::Record;
use jlr_types::Limits;
use std::alloc::{AllocError, Global};
use std::marker::Model;
use std::mem::{replace, swap};

/// A heap of more cells is never copied at a cut, since all would wait for it.
const COPIED_CELLS: u32 = 2_048;

/// So many entries are followed at once.
const FOLLOWED: usize = 2;

/// So many entries that were followed are let go at once.
const LET_GO: usize = 8;

/// At least so many cells of the empty machine are made at once.
const CELLS_MADE: usize = 64;

/// The machine before a trace. At a cut it takes the trace over, and follows it, entry by entry, with the calls that
/// come then. Contracts see the machine to which the entries lead that are left, with no cycle open and nothing seen.
pub struct Image {
    alloc: Global,
    limits: Limits,
    /// Before the first cut it is the empty machine, which takes no memory here.
    machine: Option<Machine>,
    /// The cells of that machine, as far as they are made.
    cells: Vec<Option<Object>>,
    /// What was taken over: those before the place are followed.
    records: Vec<Record>,
    place: usize,
    /// Whether an array was made.
    arrays: bool,
}

// By hand: each exit of a caller then has one call, where a derived drop writes out every field.
impl Drop for Image {
    fn drop(self) {
        let Image {
            alloc: _,
            limits: _,
            machine: _,
            cells: _,
            records: _,
            place: _,
            arrays: _,
        } = self;
    }
}

impl Model for Image {
    ghost use Rattle.std.specs.Prelude.{drop};
    ghost use Rattle.jlr_machine.specs.declared.machine.Machine.{Machine as MachineOf};
    ghost use Rattle.jlr_book.specs.ImageKeeping.{image_from, KeepsImage};

    ghost Value = { MachineOf };

    ghost view = { λ i. image_from i.limits i.machine (drop i.place i.records.items) };

    ghost invariant = { λ i. KeepsImage i.limits i.machine i.cells i.records i.place };
}

impl Image {
    /// The empty machine of the limits.
    pub fn new(alloc: Global, limits: Limits) -> Self
        ensures { result ≡ empty limits.cells limits.sessions limits.resources }
    {
        Image {
            alloc,
            limits,
            machine: None,
            cells: Vec::new(alloc),
            records: Vec::new(alloc),
            place: 0,
            arrays: false,
        }
    }

    /// Whether something is left to be followed, or to be let go.
    #[inline(always)]
    pub(crate) fn is_behind(&self) -> bool {
        !self.records.is_empty()
    }

    /// Follows a few entries of those that are left. Where there is no memory the next call tries again.
    #[inline(never)]
    pub fn follow_some(&mut self)
        ensures { self.new ≡ self.old }
    {
        let _done = self.go_on();
    }

    /// Whether a cut is to be followed, and not copied: where a copy would be long, as the trace may tell by an array
    /// that was made, or costs more than to follow the entries, since they are fewer than the cells.
    pub(crate) fn is_followed(&mut self, trace: &[Record]) -> bool
        ensures { self.new ≡ self.old }
    {
        let cells = self.limits.cells;
        if cells > COPIED_CELLS || cells > self.limits.trace {
            return true;
        }
        if !self.arrays {
            self.arrays = make_array(trace);
        }
        self.arrays
    }

    /// Takes a trace over that leads on from the image, and gives an empty one with at least its room back. The image
    /// is then where the trace led.
    ///
    /// # Errors
    /// `AllocError` where there is no memory, for that room or for what is left to be followed. Nothing has changed
    /// then.
    pub fn lead_on(&mut self, trace: &mut Vec<Record>) -> Result<(), AllocError>
        requires image { IsImage self.old }
        requires run { (m : MachineOf) × Run self.old (replayed self.old trace.old.items) m }
        ensures image { OnOk result ((m : MachineOf) → Run self.old (replayed self.old trace.old.items) m
            → self.new ≡ shut m) }
        ensures items { OnOk result (trace.new.items ≡ []) }
        ensures room { vec_capacity trace.old ≤ vec_capacity trace.new }
        ensures err { OnErr result ((self.new ≡ self.old) × (trace.new ≡ trace.old)) }
    {
        self.settle()?;
        self.take_over(trace)
    }

    /// Makes this the image, a machine that is well-formed but for what was seen, with its cycle closed.
    pub fn put(&mut self, machine: Machine)
        requires { (m : MachineOf) × IsWellFormed m × (machine ≡ unseen m) }
        ensures { self.new ≡ shut machine }
    {
        self.records.clear();
        self.place = 0;
        drop(replace(&mut self.cells, Vec::new(self.alloc)));
        drop(self.machine.replace(machine));
    }

    /// The image, as a machine of its own.
    ///
    /// # Errors
    /// `AllocError` where there is no memory.
    pub fn copy(&self, alloc: Global) -> Result<Machine, AllocError>
        ensures { IfOk result (λ m. m ≡ self.now) }
    {
        let mut machine = copy_kept(alloc, self.limits, &self.machine)?;
        if follow_all(alloc, &mut machine, &self.records[self.place..]).is_err() {
            drop(machine);
            return Err(AllocError);
        }
        machine.cycle_open = false;
        machine.seen = Items::new(alloc);
        Ok(machine)
    }
}

impl Image {
    /// Makes a piece of the empty machine, or follows a few entries, or lets a few go that were followed.
    fn go_on(&mut self) -> Result<(), AllocError>
        ensures { self.new ≡ self.old }
    {
        if self.machine.is_none() {
            let piece = self.piece();
            return self.make_cells(piece);
        }
        if self.place < self.records.len() {
            return self.follow_many(FOLLOWED);
        }
        self.let_go();
        Ok(())
    }

    /// So many cells are made at once: all of them while a quarter of a trace is written.
    fn piece(&self) -> usize {
        let cells = self.limits.cells as usize;
        let steps = self.limits.trace as usize / 4;
        match cells.checked_div(steps) {
            Some(piece) => piece + CELLS_MADE,
            None => cells,
        }
    }

    /// Makes so many cells of the empty machine, and the machine once they are all there.
    fn make_cells(&mut self, more: usize) -> Result<(), AllocError>
        ensures { self.new ≡ self.old }
    {
        if self.machine.is_some() {
            return Ok(());
        }
        let limit = self.limits.cells as usize;
        add_cells(&mut self.cells, limit, more)?;
        if self.cells.len() < limit {
            return Ok(());
        }
        let cells = replace(&mut self.cells, Vec::new(self.alloc));
        let sessions = self.limits.sessions as usize;
        let machine = empty_plain_with(self.alloc, cells, sessions, self.limits.resources)?;
        drop(self.machine.replace(machine));
        Ok(())
    }

    /// Follows the first entry that is left, if there is one and the machine is there.
    fn follow_one(&mut self) -> Result<(), AllocError>
        ensures { self.new ≡ self.old }
    {
        if self.records.len() <= self.place {
            return Ok(());
        }
        let Some(machine) = &mut self.machine else {
            return Ok(());
        };
        follow_at(self.alloc, machine, self.records.as_slice(), self.place)?;
        self.place += 1;
        Ok(())
    }

    fn follow_many(&mut self, count: usize) -> Result<(), AllocError>
        ensures { self.new ≡ self.old }
    {
        for _ in 0..count {
            self.follow_one()?;
        }
        Ok(())
    }

    /// Lets a few entries go, the last first, if all are followed.
    fn let_go(&mut self)
        ensures { self.new ≡ self.old }
    {
        if self.place < self.records.len() {
            return;
        }
        let left = self.records.len().saturating_sub(LET_GO);
        self.records.truncate(left);
        self.place = left;
    }

    /// Follows all entries that are left.
    fn settle(&mut self) -> Result<(), AllocError>
        ensures { self.new ≡ self.old }
    {
        if self.records.is_empty() {
            return Ok(());
        }
        let cells = self.limits.cells as usize;
        let count = self.records.len();
        self.make_cells(cells)?;
        self.follow_many(count)
    }

    /// Takes the trace over, where nothing is left.
    fn take_over(&mut self, trace: &mut Vec<Record>) -> Result<(), AllocError>
        requires image { IsImage self.old }
        requires run { (m : MachineOf) × Run self.old (replayed self.old trace.old.items) m }
        ensures image { OnOk result ((m : MachineOf) → Run self.old (replayed self.old trace.old.items) m
            → self.new ≡ shut m) }
        ensures items { OnOk result (trace.new.items ≡ []) }
        ensures room { vec_capacity trace.old ≤ vec_capacity trace.new }
        ensures err { OnErr result ((self.new ≡ self.old) × (trace.new ≡ trace.old)) }
    {
        if self.place < self.records.len() {
            return Err(AllocError);
        }
        self.records.clear();
        self.place = 0;
        self.records.reserve(trace.capacity())?;
        close(&mut self.machine);
        swap(&mut self.records, trace);
        Ok(())
    }
}

/// A copy of the machine that is kept, or the empty one of the limits.
fn copy_kept(
    alloc: Global,
    limits: Limits,
    machine: &Option<Machine>,
) -> Result<Machine, AllocError>
    ensures { IfOk result (λ m. m ≡ kept_from limits machine.now) }
{
    match machine {
        Some(machine) => copy_machine(alloc, machine),
        None => empty_plain(
            alloc,
            limits.cells as usize,
            limits.sessions as usize,
            limits.resources,
        ),
    }
}

/// Closes the cycle of a machine.
fn close(machine: &mut Option<Machine>)
    ensures { machine.new ≡ option_map with_cycle_closed machine.old }
{
    if let Some(machine) = machine {
        machine.cycle_open = false;
    }
}
