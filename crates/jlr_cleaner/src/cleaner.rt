//! The cleaner.
ghost use Rattle.std.specs.Prelude.{◌≡◌, ◌≢◌, ℕ, ◌+◌, ◌-◌, ◌^◌, ◌<◌, ◌≤◌, ◌∷◌, ◌++◌, ◌↔◌, ◌⊎◌, None, Some, Err, true};
ghost use Rattle.std.specs.Prelude.{false, length, nat_le, IfErr, IfNone, IfOk, IfSome, IsOk, OnErr, OnOk};
ghost use Rattle.std.specs.Option.{option_to_list};
ghost use Rattle.std.specs.List.Sorted.{IsPermutation};
ghost use Rattle.jlr_machine.specs.declared.machine.Job.{Job as RunningJob};
ghost use Rattle.jlr_machine.specs.declared.machine.Machine.{Machine};
ghost use Rattle.jlr_machine.specs.declared.machine.ResourceState.TheVariants as state;
ghost use Rattle.jlr_machine.specs.declared.object.Cleanable.{Cleanable};
ghost use Rattle.jlr_machine.specs.Lookups.{with_object, with_resource, with_state, without_resource};
ghost use Rattle.jlr_machine.specs.Objects.{at, empty_at, with_cleanable};
ghost use Rattle.jlr_machine.specs.Calls.{finished, spent, taken_up};
ghost use Rattle.jlr_resource.specs.declared.place.Kept.TheVariants as kept;
ghost use Rattle.jlr_resource.specs.Resources.{changed, kept_at, opening, removed, resource_in, resources};
ghost use Rattle.jlr_resource.specs.Resources.{resource_state_at};
ghost use Rattle.jlr_resource.specs.Resources.{values};
ghost use Rattle.jlr_cleaner.specs.Jobs.{is_job_of, is_running, job_in, runs_job};
ghost use Rattle.jlr_cleaner.specs.Cleanings.{HandsOut, HasWork, IsInState, after_finish, after_register};
ghost use Rattle.jlr_cleaner.specs.Cleanings.{after_take_up, fresh, machine_of_cleanings, table_closed, table_closing};

use crate::job::Job;
use crate::outcomes::Outcomes;
use crate::running::Running;
use crate::waiting::Waiting;
use jlr_machine::ask::Outcome;
use jlr_machine::items::Items;
use jlr_machine::machine::{Failure, Job as RunningJob, Resource};
use jlr_resource::{State, Table};
use jlr_types::{ActionNo, Limits, Refusal, Rid, Slot, Work};
use std::alloc::{AllocError, Global};
use std::marker::Model;

/// How many jobs were taken up, and how many of those ended well and failed. The others run.
#[derive(Clone, Copy, PartialEq, Eq, Debug)]
pub struct Totals {
    /// The take-ups so far.
    pub taken: u64,
    /// The jobs that ended well.
    pub ok: u64,
    /// The jobs that failed.
    pub failed: u64,
}

/// The actions that wait, the jobs that run, what became of the others, and the files and sockets. `R` need not be
/// `Drop`: none of them is lost here.
pub struct Cleaner<R> {
    waiting: Waiting,
    running: Running,
    outcomes: Outcomes,
    table: Table<R>,
    next_action: u64,
    taken: u64,
}

// By hand: each exit of a caller then has one call, where a derived drop writes out every field.
impl<R: Drop> Drop for Cleaner<R> {
    fn drop(self) {
        let Cleaner {
            waiting: _,
            running: _,
            outcomes: _,
            table: _,
            next_action: _,
            taken: _,
        } = self;
    }
}

impl<R> Model for Cleaner<R> {
    ghost use Rattle.jlr_cleaner.specs.Cleanings.{Cleanings, IsCleanings};

    ghost Value = { Cleanings R };

    ghost view = { λ a. record {
      waiting = a.waiting;
      jobs = a.running;
      table = a.table;
      faults = a.outcomes.faults;
      notes = a.outcomes.notes;
      next_action =
          a.next_action;
      taken = a.taken;
      ok = a.outcomes.ok;
      failed = a.outcomes.failed;
    } };

    ghost invariant = { λ a. IsCleanings a.waiting a.table a.running a.next_action a.taken a.outcomes.ok
        a.outcomes.failed };
}

impl<R> Cleaner<R> {
    /// Nothing was registered or taken up, and the first action number is 1. It reserves a place for each cell, and
    /// room for a job of each taker and for the last notes and faults.
    ///
    /// # Errors
    /// `AllocError` where there is no memory.
    pub fn new(alloc: Global, limits: Limits) -> Result<Self, AllocError>
        ensures { IfOk result (λ cleaner. cleaner ≡ fresh limits.cells limits.resources 1) }
    {
        Cleaner::starting_at(alloc, limits, 1)
    }

    /// As `new`, but the first action number is this one.
    ///
    /// # Errors
    /// `AllocError` where there is no memory.
    pub fn starting_at(alloc: Global, limits: Limits, next_action: u64) -> Result<Self, AllocError>
        requires { 1 ≤ next_action }
        ensures { IfOk result (λ cleaner. cleaner ≡ fresh limits.cells limits.resources next_action) }
    {
        Ok(Cleaner {
            waiting: Waiting::new(alloc, limits.cells)?,
            running: Running::new(alloc)?,
            outcomes: Outcomes::new(alloc)?,
            table: Table::new(alloc, limits.resources),
            next_action,
            taken: 0,
        })
    }

    // ---- Actions that wait

    /// The action number that is given next, 1 to 2^64 - 1. The last one is never given.
    pub fn next_action(&self) -> u64
        ensures { result ≡ self.now.next_action }
    {
        self.next_action
    }

    /// Whether no action number is left.
    pub fn is_exhausted(&self) -> bool
        ensures { result ≡ nat_le (2 ^ 64 - 1) self.now.next_action }
    {
        self.next_action == u64::MAX
    }

    /// How many places there are at which actions wait: one for each cell.
    pub fn places(&self) -> usize
        ensures { result ≡ length self.now.waiting }
    {
        self.waiting.len()
    }

    /// The action that was registered at a place and not yet taken up, if there is one.
    pub fn waits(&self, place: Slot) -> Option<ActionNo>
        ensures { result ≡ at self.now.waiting place }
    {
        self.waiting.at(place)
    }

    /// Registers an action at the place of its cleanable, if a number is left: 1 to 2^64 - 2, and not given before. It
    /// waits there to be taken up.
    pub fn register(&mut self, place: Slot) -> Option<ActionNo>
        requires { place < length self.old.waiting }
        ensures number { IfSome result (λ action. (action ≡ self.old.next_action) × (1 ≤ action)
            × (action ≤ 2 ^ 64 - 2)) }
        ensures registered { IfSome result (λ _. self.new ≡ after_register self.old place) }
        ensures none { IfNone result ((self.old.next_action ≡ 2 ^ 64 - 1) × (self.new ≡ self.old)) }
    {
        if self.is_exhausted() {
            return None;
        }
        let action = ActionNo::new(self.next_action);
        self.next_action += 1;
        self.waiting.put(place, action);
        Some(action)
    }

    // ---- Jobs

    /// Whether the job with this action runs.
    pub fn is_running(&self, action: ActionNo) -> bool
        ensures { result ≡ is_running self.now.jobs action }
    {
        self.running.is_running(action)
    }

    /// Whether a job of this taker runs: a mutator, or 255 for the cleaner.
    pub fn runs_job(&self, by: u8) -> bool
        ensures { result ≡ runs_job self.now.jobs by }
    {
        self.running.runs_job(by)
    }

    /// Takes up the action that waits at a place, where it waits no more, for a taker that runs no job. Where its work
    /// is to finish a resource, that resource is Idle; it is then Closing, and goes out with the job.
    pub fn take_up(&mut self, by: u8, place: Slot, action: ActionNo, work: Work) -> Job<R>
        requires waits { at self.old.waiting place ≡ Some action }
        requires not_running { is_running self.old.jobs action ≡ false }
        requires free { runs_job self.old.jobs by ≡ false }
        requires idle { HasWork self.old.table action state.Idle work }
        requires numbered { self.old.taken + 1 < self.old.next_action }
        ensures action { result.action ≡ action }
        ensures work { result.work ≡ work }
        ensures put_in_last { HandsOut self.old.table work result.resource }
        ensures taken { self.new ≡ after_take_up self.old place (record { action = action; work = work; by = by }) }
        ensures waits_no_more { (other : ℕ) → at self.new.waiting other ≢ Some action }
        ensures running { job_in self.new.jobs action ≡ Some (record { action = action; work = work; by = by }) }
        ensures machine { (m : Machine) (s : ℕ) (c : Cleanable) → c.action ≡ action → c.work ≡ work
            → machine_of_cleanings self.new (with_object m s (with_cleanable spent))
            ≡ taken_up (machine_of_cleanings self.old m) by s c }
        ensures values { IsPermutation (values self.old.table)
            (option_to_list result.resource ++ values self.new.table) }
    {
        // The work can be passed on only once, since its type holds one with a model: the helper is lent it, and the
        // job told a copy.
        let told = work;
        self.waiting.clear(place);
        let resource = take_out(&mut self.table, &work);
        self.running.start(RunningJob { action, work, by });
        self.taken += 1;
        Job {
            action,
            work: told,
            resource,
        }
    }

    /// The taker tells the outcome of its job: the job is over, and so is its resource, which it finished. Answers
    /// whether there was such a job; else nothing has changed.
    pub fn finish(&mut self, by: u8, action: ActionNo, outcome: Outcome) -> bool
        ensures answer { result ≡ is_job_of self.old.jobs by action }
        ensures refused { result ≡ false → self.new ≡ self.old }
        ensures finished { (job : RunningJob) → job_in self.old.jobs action ≡ Some job → job.by ≡ by
            → self.new ≡ after_finish self.old job outcome }
        ensures machine { (m : Machine) (job : RunningJob) → job_in self.old.jobs action ≡ Some job → job.by ≡ by
            → machine_of_cleanings self.new m ≡ finished (machine_of_cleanings self.old m) job outcome }
        ensures values { values self.new.table ≡ values self.old.table }
    {
        let Some(job) = self.running.end(by, action) else {
            return false;
        };
        close(&mut self.table, job.work);
        self.outcomes.record(action, job.work, outcome);
        true
    }

    /// The counts. What was taken up ended well, failed, or runs.
    pub fn totals(&self) -> Totals
        ensures counts { (result.taken ≡ self.now.taken) × (result.ok ≡ self.now.ok)
            × (result.failed ≡ self.now.failed) }
        ensures adds_up { result.taken ≡ result.ok + result.failed + length self.now.jobs }
        ensures numbered { result.taken < self.now.next_action }
    {
        Totals {
            taken: self.taken,
            ok: self.outcomes.ok,
            failed: self.outcomes.failed,
        }
    }

    /// The jobs that run, with rising actions.
    ///
    /// # Errors
    /// `AllocError` where there is no memory.
    pub fn jobs(&self, alloc: Global) -> Result<Items<RunningJob>, AllocError>
        ensures { IfOk result (λ items. items ≡ self.now.jobs) }
    {
        self.running.image(alloc)
    }

    /// The last 256 actions that failed, and why, the oldest first.
    ///
    /// # Errors
    /// `AllocError` where there are some and no memory for a copy of them.
    pub fn faults(&self, alloc: Global) -> Result<Items<Failure>, AllocError>
        ensures items { IfOk result (λ items. items ≡ self.now.faults) }
        ensures some { OnErr result (1 ≤ length self.now.faults) }
    {
        self.outcomes.faults.image(alloc)
    }

    /// The last 256 notes, the oldest first.
    ///
    /// # Errors
    /// `AllocError` where there are some and no memory for a copy of them.
    pub fn notes(&self, alloc: Global) -> Result<Items<u32>, AllocError>
        ensures items { IfOk result (λ items. items ≡ self.now.notes) }
        ensures some { OnErr result (1 ≤ length self.now.notes) }
    {
        self.outcomes.notes.image(alloc)
    }

    // ---- Files and sockets: the calls of the table

    /// How many resources have not ended.
    pub fn count(&self) -> usize
        ensures { result ≡ length (resources self.now.table) }
    {
        self.table.count()
    }

    /// How many resources the limits allow.
    pub fn resource_limit(&self) -> u32
        ensures { result ≡ self.now.table.limit }
    {
        self.table.limit()
    }

    /// Whether as many resources are open as the limits allow.
    pub fn is_full(&self) -> bool
        ensures { result ≡ nat_le self.now.table.limit (length (resources self.now.table)) }
    {
        self.table.is_full()
    }

    /// Where the resource at a Rid is, if there is one.
    pub fn state(&self, rid: Rid) -> Option<State>
        ensures { result ≡ resource_state_at self.now.table rid }
    {
        self.table.state(rid)
    }

    /// The resources, with rising Rids.
    ///
    /// # Errors
    /// `AllocError` where there is no memory.
    pub fn resources(&self, alloc: Global) -> Result<Items<Resource>, AllocError>
        ensures { IfOk result (λ items. items ≡ resources self.now.table) }
    {
        self.table.image(alloc)
    }

    /// Makes room for one resource more: then a `prepare` finds memory.
    ///
    /// # Errors
    /// `NoMemory` where there is no room and none can be made, also where the next place has no number below 2^32.
    /// Nothing has changed then but the room.
    pub fn reserve(&mut self) -> Result<(), Refusal>
        ensures room { OnOk result (length (resources self.new.table) < self.new.table.room) }
        ensures next { OnOk result (self.new.table.next < 2 ^ 32) }
        ensures refused { IfErr result (λ r. r ≡ Refusal.NoMemory) }
        ensures succeeds { length (resources self.old.table) < self.old.table.room → self.old.table.next < 2 ^ 32
            → IsOk result }
        ensures grows { self.old.table.room ≤ self.new.table.room }
        ensures table { self.new.table ≡ record self.old.table { room = self.new.table.room } }
        ensures rest { self.new ≡ record self.old { table = self.new.table } }
    {
        self.table.reserve()
    }

    /// A resource is about to be opened, for this cleaning action. It is Opening, at a Rid that no resource has.
    ///
    /// # Errors
    /// `ResourcesFull` where the table holds as many as it may; `NoMemory` where it has no room and cannot grow, also
    /// where the next place has no number below 2^32. Nothing has changed then but the room.
    pub fn prepare(&mut self, action: ActionNo) -> Result<Rid, Refusal>
        ensures full { (result ≡ Err Refusal.ResourcesFull)
            ↔ (self.old.table.limit ≤ length (resources self.old.table)) }
        ensures next { IfOk result (λ rid. (rid ≡ self.old.table.next) × (rid < 2 ^ 32)) }
        ensures free { IfOk result (λ rid. resource_in (resources self.old.table) rid ≡ None) }
        ensures held { IfOk result (λ rid. self.new.table.held ≡ opening self.old.table rid action) }
        ensures state { IfOk result (λ rid. resource_state_at self.new.table rid ≡ Some state.Opening) }
        ensures others { IfOk result (λ rid. (other : ℕ) → other ≢ rid
            → kept_at self.new.table other ≡ kept_at self.old.table other) }
        ensures resources { IfOk result (λ rid. resources self.new.table
            ≡ with_resource (resources self.old.table) (record { rid = rid; action = action; state = state.Opening })) }
        ensures refused { IfErr result (λ r. (r ≡ Refusal.ResourcesFull) ⊎ (r ≡ Refusal.NoMemory)) }
        ensures no_room { result ≡ Err Refusal.NoMemory → (self.old.table.room ≤ length (resources self.old.table))
            ⊎ (2 ^ 32 ≤ self.old.table.next) }
        ensures err { OnErr result (self.new.table.held ≡ self.old.table.held) }
        ensures err_next { OnErr result (self.new.table.next ≡ self.old.table.next) }
        ensures untouched { result ≡ Err Refusal.ResourcesFull → self.new ≡ self.old }
        ensures values { values self.new.table ≡ values self.old.table }
        ensures limit { self.new.table.limit ≡ self.old.table.limit }
        ensures room { self.old.table.room ≤ self.new.table.room }
        ensures rest { self.new ≡ record self.old { table = self.new.table } }
    {
        self.table.prepare(action)
    }

    /// The open ended well: the resource is Idle, and lies here.
    pub fn opened(&mut self, rid: Rid, resource: R)
        requires { resource_state_at self.old.table rid ≡ Some state.Opening }
        ensures idle { self.new ≡ record self.old { table = changed self.old.table rid (kept.Idle resource) } }
        ensures lies_here { kept_at self.new.table rid ≡ Some (kept.Idle resource) }
        ensures state { resource_state_at self.new.table rid ≡ Some state.Idle }
        ensures others { (other : ℕ) → other ≢ rid → kept_at self.new.table other ≡ kept_at self.old.table other }
        ensures machine { (m : Machine) → machine_of_cleanings self.new m ≡ with_state (machine_of_cleanings self.old m)
            rid
            state.Idle }
        ensures values { IsPermutation (resource ∷ values self.old.table) (values self.new.table) }
    {
        self.table.opened(rid, resource);
    }

    /// The open failed: there is no such resource any more, and its Rid is free. The action that waits at a place,
    /// which was to finish it, waits no more.
    pub fn open_failed(&mut self, place: Slot, rid: Rid)
        requires place { place < length self.old.waiting }
        requires opening { resource_state_at self.old.table rid ≡ Some state.Opening }
        ensures gone { self.new ≡ record self.old {
          waiting = empty_at self.old.waiting place;
          table = removed self.old.table rid;
        } }
        ensures state { resource_state_at self.new.table rid ≡ None }
        ensures others { (other : ℕ) → other ≢ rid → kept_at self.new.table other ≡ kept_at self.old.table other }
        ensures machine { (m : Machine) → machine_of_cleanings self.new m
            ≡ without_resource (machine_of_cleanings self.old m) rid }
        ensures values { values self.new.table ≡ values self.old.table }
        ensures room { length (resources self.new.table) < self.new.table.room }
    {
        self.waiting.clear(place);
        self.table.closed(rid);
    }

    /// A call begins: the resource that was put in last for this Rid goes out.
    pub fn check_out(&mut self, rid: Rid) -> R
        requires { resource_state_at self.old.table rid ≡ Some state.Idle }
        ensures put_in_last { kept_at self.old.table rid ≡ Some (kept.Idle result) }
        ensures out { self.new ≡ record self.old { table = changed self.old.table rid kept.Out } }
        ensures state { resource_state_at self.new.table rid ≡ Some state.Out }
        ensures others { (other : ℕ) → other ≢ rid → kept_at self.new.table other ≡ kept_at self.old.table other }
        ensures machine { (m : Machine) → machine_of_cleanings self.new m ≡ with_state (machine_of_cleanings self.old m)
            rid state.Out }
        ensures values { IsPermutation (values self.old.table) (result ∷ values self.new.table) }
    {
        self.table.check_out(rid)
    }

    /// The call has ended, well or not: the resource is Idle, and lies here again.
    pub fn check_in(&mut self, rid: Rid, returned: R)
        requires { resource_state_at self.old.table rid ≡ Some state.Out }
        ensures idle { self.new ≡ record self.old { table = changed self.old.table rid (kept.Idle returned) } }
        ensures lies_here { kept_at self.new.table rid ≡ Some (kept.Idle returned) }
        ensures state { resource_state_at self.new.table rid ≡ Some state.Idle }
        ensures others { (other : ℕ) → other ≢ rid → kept_at self.new.table other ≡ kept_at self.old.table other }
        ensures machine { (m : Machine) → machine_of_cleanings self.new m ≡ with_state (machine_of_cleanings self.old m)
            rid
            state.Idle }
        ensures values { IsPermutation (returned ∷ values self.old.table) (values self.new.table) }
    {
        self.table.check_in(rid, returned);
    }
}

/// The resource of this work, if it is one, goes out to be finished.
fn take_out<R>(table: &mut Table<R>, work: &Work) -> Option<R>
    requires idle { IsInState table.old state.Idle work.now }
    ensures put_in_last { HandsOut table.old work.now result }
    ensures closing { table.new ≡ table_closing table.old work.now }
    ensures values { IsPermutation (values table.old) (option_to_list result ++ values table.new) }
{
    match work {
        Work::Note(_) => None,
        Work::Resource(rid) => Some(table.take_for_close(*rid)),
    }
}

/// The resource of this work, if it is one, has ended.
fn close<R>(table: &mut Table<R>, work: Work)
    requires closing { IsInState table.old state.Closing work }
    ensures closed { table.new ≡ table_closed table.old work }
    ensures values { values table.new ≡ values table.old }
{
    match work {
        Work::Note(_) => {}
        Work::Resource(rid) => table.closed(rid),
    }
}
