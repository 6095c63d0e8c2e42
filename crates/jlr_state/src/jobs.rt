//! Jobs that a mutator takes up, and the numbers of actions.
ghost use Rattle.std.specs.Prelude.{◌≡◌, ◌≢◌, ◌-◌, ◌^◌, None, Some, nat_le};
ghost use Rattle.jlr_machine.specs.declared.object.Cleanable.{Cleanable};
ghost use Rattle.jlr_machine.specs.declared.object.Object.TheVariants as object;
ghost use Rattle.jlr_machine.specs.declared.object.CleanState.TheVariants as state;
ghost use Rattle.jlr_machine.specs.declared.machine.ResourceState.TheVariants.{Idle};
ghost use Rattle.jlr_machine.specs.Objects.{at};
ghost use Rattle.jlr_machine.specs.Lookups.{cleanable_at};
ghost use Rattle.jlr_machine.specs.Calls.{cleaned, take_up_answer, taken_up};
ghost use Rattle.jlr_machine.specs.WellFormed.{IsWellFormed};
ghost use Rattle.jlr_cleaner.specs.Cleanings.{HandsOut, HasWork};
ghost use Rattle.jlr_state.specs.State.{Checks};
ghost use Rattle.jlr_state.specs.Flows.{Conserves, GoesOut, Moves};
ghost use Rattle.jlr_state.specs.Guards.{IsIdleAt};
ghost use Rattle.jlr_state.specs.Waiting.{AllWait, Releases, WaitsOn};
ghost use Rattle.jlr_state.specs.TakeUps.{IsFreeMutator, job_resource, started_answer};

use crate::state::State;
use jlr_cleaner::Job;
use jlr_machine::machine::Call;
use jlr_machine::object::{CleanState, Cleanable};
use jlr_types::{Mutator, Refusal, Slot};

impl<R> State<R> {
    ghost use Rattle.jlr_state.specs.Machines.{machine_of};
    ghost use Rattle.jlr_state.specs.Rest.{LeavesSizes};

    /// An action number is left.
    pub fn check_numbers(&self) -> Result<(), Refusal>
        ensures { Checks result Refusal.Exhausted (nat_le (2 ^ 64 - 1) self.now.cleaner.next_action) }
    {
        if self.cleaner.is_exhausted() {
            Err(Refusal::Exhausted)
        } else {
            Ok(())
        }
    }

    /// A mutator without a call takes up the action of a cleanable whose resource, if its work is one, lies here,
    /// unless it was taken up before. The job is its call then.
    pub fn start_job(&mut self, by: Mutator, slot: Slot) -> Option<Job<R>>
        requires fit { IsWellFormed (machine_of self.old) }
        requires free { IsFreeMutator (machine_of self.old) by }
        requires idle { IsIdleAt (machine_of self.old) slot }
        requires waits { AllWait (machine_of self.old) self.old.cleaner.waiting }
        ensures cleaned { machine_of self.new ≡ cleaned (machine_of self.old) by slot
            (cleanable_at (machine_of self.old) slot) }
        ensures answer { (c : Cleanable) → at self.old.heap.graph.objects slot ≡ Some (object.Cleanable c)
            → take_up_answer c ≡ started_answer result }
        ensures flow { Conserves None self.old.cleaner.table (job_resource result) self.new.cleaner.table }
        ensures moves { Moves None self.old.cleaner.table (job_resource result) self.new.cleaner.table }
        ensures goes_out { GoesOut self.old.cleaner.table None (Some (started_answer result)) (job_resource result) }
        ensures rest { LeavesSizes self.old self.new }
        ensures waits { WaitsOn (machine_of self.new) self.old.cleaner self.new.cleaner }
        ensures marking { self.new.heap.marking ≡ self.old.heap.marking }
    {
        let cleanable = self.heap.cleanable(slot)?;
        if cleanable.state == CleanState::Spent {
            return None;
        }
        let job = self.take_up_at(by, slot, cleanable);
        self.heap.begin_call(by, None, Call::Job(job.action));
        Some(job)
    }

    /// The action of a cleanable that was not taken up before is taken up by a mutator without a call. The cleanable is
    /// Spent then.
    fn take_up_at(&mut self, by: Mutator, slot: Slot, cleanable: Cleanable) -> Job<R>
        requires fit { IsWellFormed (machine_of self.old) }
        requires there { at self.old.heap.graph.objects slot ≡ Some (object.Cleanable cleanable) }
        requires unspent { cleanable.state ≢ state.Spent }
        requires free { IsFreeMutator (machine_of self.old) by }
        requires idle { HasWork self.old.cleaner.table cleanable.action Idle cleanable.work }
        requires waits { AllWait (machine_of self.old) self.old.cleaner.waiting }
        ensures job { (result.action ≡ cleanable.action) × (result.work ≡ cleanable.work) }
        ensures taken_up { machine_of self.new ≡ taken_up (machine_of self.old) by slot cleanable }
        ensures put_in_last { HandsOut self.old.cleaner.table cleanable.work result.resource }
        ensures flow { Conserves None self.old.cleaner.table result.resource self.new.cleaner.table }
        ensures moves { Moves None self.old.cleaner.table result.resource self.new.cleaner.table }
        ensures rest { LeavesSizes self.old self.new }
        ensures waits { Releases (machine_of self.new) self.old.cleaner self.new.cleaner }
        ensures marking { self.new.heap.marking ≡ self.old.heap.marking }
    {
        self.heap.spend(slot);
        self.cleaner
            .take_up(by.number(), slot, cleanable.action, cleanable.work)
    }
}
