//! What the core keeps, as the machine has it, and the checks of refusals that many asks share.
ghost use Rattle.jlr_state.specs.State.{Checks, HandleRefused};
ghost use Rattle.std.specs.Prelude.{◌≡◌, ◌≤◌, [], None, Some, Ok, Err, MatchResult, IfOk, replicate, true, false, not};
ghost use Rattle.std.specs.Prelude.{is_none, is_some, ◌&&◌, ◌==◌, OnOk, IsTrue};
ghost use Rattle.jlr_machine.specs.WellFormed.{IsWellFormed};
ghost use Rattle.jlr_machine.specs.Lookups.{slot_named, object_named, has_free_handle};
ghost use Rattle.jlr_machine.specs.Refusals.{is_joined, has_call};
ghost use Rattle.jlr_machine.specs.Run.{empty_from};
ghost use Rattle.jlr_barrier.specs.Graphs.{empty_known};
ghost use Rattle.jlr_resource.specs.Resources.{values};

use jlr_barrier::Heap;
use jlr_cleaner::Cleaner;
use jlr_machine::items::Items;
use jlr_machine::machine::Machine;
use jlr_machine::table::Table;
use jlr_types::{Handle, Limits, Mutator, Refusal, Slot};
use std::alloc::{AllocError, Global};

/// The heap, the soft age, in collections, what cleaning actions left and the files and sockets, whether a cycle is
/// open, and where lists of an answer come from.
pub struct State<R> {
    pub heap: Heap,
    pub soft_age: u32,
    pub cleaner: Cleaner<R>,
    pub cycle_open: bool,
    pub alloc: Global,
}

// By hand: each exit of a caller then has one call, where a derived drop writes out every field.
impl<R: Drop> Drop for State<R> {
    fn drop(self) {
        let State {
            heap: _,
            soft_age: _,
            cleaner: _,
            cycle_open: _,
            alloc: _,
        } = self;
    }
}

impl<R> State<R> {
    ghost use Rattle.jlr_state.specs.Machines.{machine_of};

    /// The state of an empty machine, whose next action is this one, at least 1. All room is made at once.
    pub fn new(alloc: Global, limits: Limits, next_action: u64) -> Result<Self, AllocError>
        requires { 1 ≤ next_action }
        ensures machine { IfOk result (λ state. machine_of state
            ≡ empty_from limits.cells limits.sessions limits.resources next_action) }
        ensures age { IfOk result (λ state. state.soft_age ≡ limits.soft_age) }
        ensures clock { IfOk result (λ state. state.heap.clock ≡ (empty_known limits.cells limits.sessions).clock) }
        ensures none_held { IfOk result (λ state. values state.cleaner.table ≡ []) }
        ensures none_waits { IfOk result (λ state. state.cleaner.waiting ≡ replicate limits.cells None) }
    {
        let heap = Heap::new(alloc, limits)?;
        match Cleaner::starting_at(alloc, limits, next_action) {
            Ok(cleaner) => Ok(State {
                heap,
                soft_age: limits.soft_age,
                cleaner,
                cycle_open: false,
                alloc,
            }),
            Err(error) => {
                drop(heap);
                Err(error)
            }
        }
    }

    /// The machine as plain data, with nothing seen.
    pub fn image(&self, alloc: Global) -> Result<Machine, AllocError>
        ensures { IfOk result (λ machine. machine ≡ machine_of self.now) }
    {
        let mut machine = self.without_lists(alloc);
        if self.copy_lists(alloc, &mut machine).is_err() {
            drop(machine);
            return Err(AllocError);
        }
        Ok(machine)
    }

    /// What takes no memory: the numbers of the machine, with lists and tables that are empty.
    fn without_lists(&self, alloc: Global) -> Machine
        ensures { result ≡ record (machine_of self.now) {
          objects = [];
          mutators = [];
          names = [];
          pending = [];
          line = [];
          jobs = [];
          resources = [];
          faults = [];
          notes = [];
        } }
    {
        let totals = self.cleaner.totals();
        Machine {
            objects: Table::from_vec(Vec::new(alloc)),
            mutators: Table::from_vec(Vec::new(alloc)),
            names: Items::new(alloc),
            pending: Items::new(alloc),
            line: Items::new(alloc),
            jobs: Items::new(alloc),
            resources: Items::new(alloc),
            resource_limit: self.cleaner.resource_limit(),
            faults: Items::new(alloc),
            notes: Items::new(alloc),
            next_action: self.cleaner.next_action(),
            taken: totals.taken,
            ok: totals.ok,
            failed: totals.failed,
            cycle_open: self.cycle_open,
            seen: Items::new(alloc),
        }
    }

    /// Puts the lists and tables of the machine into plain data, which is lent, so that no exit lets go of it.
    fn copy_lists(&self, alloc: Global, machine: &mut Machine) -> Result<(), AllocError>
        ensures { IfOk result (λ _. machine.new ≡ record machine.old {
          objects = (machine_of self.now).objects;
          mutators = (machine_of self.now).mutators;
          names = (machine_of self.now).names;
          pending = (machine_of self.now).pending;
          line = (machine_of self.now).line;
          jobs = (machine_of self.now).jobs;
          resources = (machine_of self.now).resources;
          faults = (machine_of self.now).faults;
          notes = (machine_of self.now).notes;
        }) }
    {
        machine.objects = self.heap.objects_image(alloc)?;
        machine.mutators = self.heap.mutators_image(alloc)?;
        machine.names = self.heap.names_image(alloc)?;
        machine.pending = self.heap.pending_image(alloc)?;
        machine.line = self.heap.line_image(alloc)?;
        machine.jobs = self.cleaner.jobs(alloc)?;
        machine.resources = self.cleaner.resources(alloc)?;
        machine.faults = self.cleaner.faults(alloc)?;
        machine.notes = self.cleaner.notes(alloc)?;
        Ok(())
    }

    /// The mutator is joined.
    pub fn check_session(&self, by: Mutator) -> Result<(), Refusal>
        ensures { MatchResult result (λ _. is_joined (machine_of self.now) by ≡ true)
            (λ r. (r ≡ Refusal.NoSession) × (is_joined (machine_of self.now) by ≡ false)) }
    {
        if self.heap.roots().is_joined(by) {
            Ok(())
        } else {
            Err(Refusal::NoSession)
        }
    }

    /// The slot of a handle that is null or in use. None where it is null.
    pub fn check_handle(&self, by: Mutator, handle: Handle) -> Result<Option<Slot>, Refusal>
        requires { IsWellFormed (machine_of self.now) }
        ensures { MatchResult result
            (λ slot. (slot_named (machine_of self.now) by handle ≡ slot)
            × ((not (handle == 0) && is_none (slot_named (machine_of self.now) by handle)) ≡ false)
            × ((handle == 0) ≡ is_none slot))
            (λ r. (r ≡ Refusal.NoHandle)
            × ((not (handle == 0) && is_none (slot_named (machine_of self.now) by handle)) ≡ true)) }
    {
        if handle.number() == 0 {
            return Ok(None);
        }
        match self.heap.roots().lookup(by, handle) {
            Some(slot) => Ok(Some(slot)),
            None => Err(Refusal::NoHandle),
        }
    }

    /// The slot of a handle that is in use. There is an object.
    pub fn check_object(&self, by: Mutator, handle: Handle) -> Result<Slot, Refusal>
        requires fit { IsWellFormed (machine_of self.now) }
        ensures object { OnOk result (IsTrue (is_some (object_named (machine_of self.now) by handle))) }
        ensures in_use { OnOk result
            ((not (handle == 0) && is_none (slot_named (machine_of self.now) by handle)) ≡ false) }
        ensures slot { MatchResult result
            (λ slot. (slot_named (machine_of self.now) by handle ≡ Some slot) × ((handle == 0) ≡ false))
            (λ r. HandleRefused (handle == 0) (slot_named (machine_of self.now) by handle) r) }
    {
        if handle.number() == 0 {
            return Err(Refusal::Null);
        }
        match self.heap.roots().lookup(by, handle) {
            Some(slot) => Ok(slot),
            None => Err(Refusal::NoHandle),
        }
    }

    /// A handle is free.
    pub fn check_free_handle(&self, by: Mutator) -> Result<(), Refusal>
        ensures { MatchResult result (λ _. has_free_handle (machine_of self.now) by ≡ true)
            (λ r. (r ≡ Refusal.HandlesFull) × (has_free_handle (machine_of self.now) by ≡ false)) }
    {
        if self.heap.roots().has_free_handle(by) {
            Ok(())
        } else {
            Err(Refusal::HandlesFull)
        }
    }

    /// The mutator has no call in flight.
    pub fn check_no_call(&self, by: Mutator) -> Result<(), Refusal>
        ensures { Checks result Refusal.Busy (has_call (machine_of self.now) by) }
    {
        if self.heap.roots().has_call(by) {
            Err(Refusal::Busy)
        } else {
            Ok(())
        }
    }
}
