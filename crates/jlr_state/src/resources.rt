//! The asks on files and sockets: a call on one begins, and ends.
ghost use Rattle.std.specs.Prelude.{◌≡◌, ◌&&◌, IsTrue, MatchResult, None, Some, false, is_some, not, true};
ghost use Rattle.jlr_machine.specs.declared.object.Object.TheVariants as object;
ghost use Rattle.jlr_machine.specs.declared.ask.Outcome.{Outcome};
ghost use Rattle.jlr_machine.specs.declared.ask.Outcome.TheVariants as ended;
ghost use Rattle.jlr_machine.specs.declared.ask.CallOutcome.{CallOutcome};
ghost use Rattle.jlr_machine.specs.declared.machine.ResourceState.TheVariants as state;
ghost use Rattle.jlr_machine.specs.Objects.{at, is_spent, some_and};
ghost use Rattle.jlr_machine.specs.Lookups.{cleanable_of_guard, has_free_handle, resource_at};
ghost use Rattle.jlr_machine.specs.Refusals.{is_cleanable, is_guard, is_out_state, refusal};
ghost use Rattle.jlr_machine.specs.Calls.{call_answer, new_handle, opened};
ghost use Rattle.jlr_machine.specs.Run.{no_choice};
ghost use Rattle.jlr_machine.specs.WellFormed.{IsWellFormed};
ghost use Rattle.jlr_resource.specs.Resources.{resource_state_at};
ghost use Rattle.jlr_event.specs.Events.{answer_in, resource_of_reply, outcome_of, resource_of};
ghost use Rattle.jlr_state.specs.Events.{StepsMachine};
ghost use Rattle.jlr_state.specs.Flows.{Conserves, GoesOut, Moves};
ghost use Rattle.jlr_state.specs.Guards.{HoldsGuard, IsGuardNamed, IsIdleAt, fenced_guard, is_spent_at};
ghost use Rattle.jlr_state.specs.TakeUps.{IsFreeMutator, clean_answer, handed_out};
ghost use Rattle.jlr_state.specs.State.{Meets};
ghost use Rattle.jlr_state.specs.Waiting.{AllWait, Releases, WaitAsBefore, WaitsOn};
ghost use Rattle.jlr_state.specs.Marks.{MarksNew};

use crate::state::State;
use jlr_cleaner::Job;
use jlr_event::event::Reply;
use jlr_machine::ask::{Answer, Ask, CallOutcome};
use jlr_machine::machine::{Call, ResourceState};
use jlr_machine::object::{CleanState, Guard};
use jlr_types::{Fault, Handle, Mutator, Refusal, Rid, Slot};

/// A guard and its slot.
#[derive(Clone, Copy)]
pub(crate) struct Guarded {
    pub(crate) slot: Slot,
    pub(crate) guard: Guard,
}

impl<R> State<R> {
    ghost use Rattle.jlr_state.specs.Machines.{machine_of};
    ghost use Rattle.jlr_state.specs.Rest.{LeavesSizes};

    // ---- A guard that a call holds

    /// The guard that a mutator's call holds by its fence.
    fn fenced(&self, by: Mutator) -> Option<Guarded>
        ensures { result ≡ fenced_guard (machine_of self.now) by }
    {
        let slot = self.heap.roots().fence(by)?;
        let guard = self.heap.guard(slot)?;
        Some(Guarded { slot, guard })
    }

    /// The guard of the open that a mutator's call is.
    fn check_opened(&self, by: Mutator) -> Result<Guarded, Refusal>
        requires { IsWellFormed (machine_of self.now) }
        ensures { MatchResult result
            (λ held. ((outcome : Outcome) → refusal (machine_of self.now) (Ask.Opened by outcome) ≡ None)
            × HoldsGuard (machine_of self.now) by held state.Opening
            × (has_free_handle (machine_of self.now) by ≡ true))
            (λ r. (outcome : Outcome) → refusal (machine_of self.now) (Ask.Opened by outcome) ≡ Some r) }
    {
        self.check_session(by)?;
        let Some(Call::Opening(_)) = self.heap.roots().call(by) else {
            return Err(Refusal::NotOut);
        };
        match self.fenced(by) {
            Some(held) => Ok(held),
            None => Err(Refusal::NotOut),
        }
    }

    /// The guard of the read or write that a mutator's call is.
    fn check_out_call(&self, by: Mutator) -> Result<Guarded, Refusal>
        requires { IsWellFormed (machine_of self.now) }
        ensures { MatchResult result
            (λ held. ((outcome : CallOutcome) → refusal (machine_of self.now) (Ask.CheckIn by outcome) ≡ None)
            × HoldsGuard (machine_of self.now) by held state.Out)
            (λ r. (outcome : CallOutcome) → refusal (machine_of self.now) (Ask.CheckIn by outcome) ≡ Some r) }
    {
        self.check_session(by)?;
        let Some(Call::Out(_)) = self.heap.roots().call(by) else {
            return Err(Refusal::NotOut);
        };
        match self.fenced(by) {
            Some(held) => Ok(held),
            None => Err(Refusal::NotOut),
        }
    }

    // ---- The end of an open

    /// An open has ended. With a fault the resource is over, and its cleanable Spent.
    pub fn opened(&mut self, by: Mutator, outcome: Result<R, Fault>) -> Reply<R>
        requires fit { IsWellFormed (machine_of self.old) }
        requires waits { AllWait (machine_of self.old) self.old.cleaner.waiting }
        ensures entry { StepsMachine (machine_of self.old) self.old.heap.marking
            (Some (Ask.Opened by (outcome_of outcome)))
            (answer_in result) no_choice (machine_of self.new) }
        ensures memory { answer_in result ≡ Some (Answer.Refused Refusal.NoMemory) → ⊥ }
        ensures flow { Conserves (resource_of outcome) self.old.cleaner.table (resource_of_reply result)
            self.new.cleaner.table }
        ensures moves { Moves (resource_of outcome) self.old.cleaner.table (resource_of_reply result)
            self.new.cleaner.table }
        ensures goes_out { GoesOut self.old.cleaner.table (resource_of outcome) (answer_in result)
            (resource_of_reply result) }
        ensures rest { LeavesSizes self.old self.new }
        ensures waits { WaitsOn (machine_of self.new) self.old.cleaner self.new.cleaner }
        ensures marks { MarksNew (machine_of self.old) self.old.heap.marking no_choice (machine_of self.new)
            self.new.heap.marking }
    {
        let held = match self.check_opened(by) {
            Ok(held) => held,
            Err(refusal) => {
                return Reply::Answered {
                    answer: Answer::Refused(refusal),
                    resource: outcome.ok(),
                };
            }
        };
        Reply::Answered {
            answer: self.end_open(by, held, outcome),
            resource: None,
        }
    }

    /// The open that a mutator's call is has ended.
    fn end_open(&mut self, by: Mutator, held: Guarded, outcome: Result<R, Fault>) -> Answer
        requires allowed { refusal (machine_of self.old) (Ask.Opened by (outcome_of outcome)) ≡ None }
        requires held { HoldsGuard (machine_of self.old) by held state.Opening }
        requires room { has_free_handle (machine_of self.old) by ≡ true }
        requires waits { AllWait (machine_of self.old) self.old.cleaner.waiting }
        ensures meets { Meets (machine_of self.old) (Ask.Opened by (outcome_of outcome)) result no_choice
            (machine_of self.new) }
        ensures memory { result ≡ Answer.Refused Refusal.NoMemory → ⊥ }
        ensures flow { Conserves (resource_of outcome) self.old.cleaner.table None self.new.cleaner.table }
        ensures moves { Moves (resource_of outcome) self.old.cleaner.table None self.new.cleaner.table }
        ensures goes_out { GoesOut self.old.cleaner.table (resource_of outcome) (Some result) None }
        ensures rest { LeavesSizes self.old self.new }
        ensures waits { WaitsOn (machine_of self.new) self.old.cleaner self.new.cleaner }
        ensures marks { MarksNew (machine_of self.old) self.old.heap.marking no_choice (machine_of self.new)
            self.new.heap.marking }
    {
        match outcome {
            Ok(resource) => self.open_done(by, held, resource),
            Err(fault) => self.open_failed(by, held, fault),
        }
    }

    /// An open has ended well: the file or socket lies here, and the mutator holds its guard.
    fn open_done(&mut self, by: Mutator, held: Guarded, resource: R) -> Answer
        requires held { HoldsGuard (machine_of self.old) by held state.Opening }
        requires room { has_free_handle (machine_of self.old) by ≡ true }
        ensures answer { new_handle (machine_of self.old) by ≡ Some result }
        ensures opened { machine_of self.new ≡ opened (machine_of self.old) by held.guard ended.Ok }
        ensures flow { Conserves (Some resource) self.old.cleaner.table None self.new.cleaner.table }
        ensures moves { Moves (Some resource) self.old.cleaner.table None self.new.cleaner.table }
        ensures rest { LeavesSizes self.old self.new }
        ensures waits { WaitAsBefore self.old.cleaner self.new.cleaner }
        ensures marks { MarksNew (machine_of self.old) self.old.heap.marking no_choice (machine_of self.new)
            self.new.heap.marking }
    {
        self.cleaner.opened(held.guard.rid, resource);
        self.heap.end_call(by);
        self.give(by, held.slot)
    }

    /// An open has failed: there is no such file or socket, and nothing is left to be cleaned.
    fn open_failed(&mut self, by: Mutator, held: Guarded, fault: Fault) -> Answer
        requires held { HoldsGuard (machine_of self.old) by held state.Opening }
        requires waits { AllWait (machine_of self.old) self.old.cleaner.waiting }
        ensures answer { result ≡ Answer.Faulted fault }
        ensures opened { machine_of self.new ≡ opened (machine_of self.old) by held.guard (ended.Failed fault) }
        ensures flow { Conserves None self.old.cleaner.table None self.new.cleaner.table }
        ensures moves { Moves None self.old.cleaner.table None self.new.cleaner.table }
        ensures rest { LeavesSizes self.old self.new }
        ensures waits { Releases (machine_of self.new) self.old.cleaner self.new.cleaner }
        ensures marks { MarksNew (machine_of self.old) self.old.heap.marking no_choice (machine_of self.new)
            self.new.heap.marking }
    {
        let Guard { rid, cleanable } = held.guard;
        self.cleaner.open_failed(cleanable, rid);
        self.heap.spend(cleanable);
        self.heap.end_call(by);
        Answer::Faulted(fault)
    }

    // ---- A guard that is named

    /// The guard at a slot.
    fn check_guard(&self, slot: Slot) -> Result<Guard, Refusal>
        requires { IsTrue (is_some (at self.now.heap.graph.objects slot)) }
        ensures { MatchResult result (λ guard. at self.now.heap.graph.objects slot ≡ Some (object.Guard guard))
            (λ r. (r ≡ Refusal.WrongKind)
            × (some_and (λ o. not (is_guard o)) (at self.now.heap.graph.objects slot) ≡ true)) }
    {
        match self.heap.guard(slot) {
            Some(guard) => Ok(guard),
            None => Err(Refusal::WrongKind),
        }
    }

    /// The resource that this cleanable finishes is closed or closing.
    fn is_closed(&self, cleanable: Slot) -> bool
        ensures { result ≡ is_spent_at (machine_of self.now) cleanable }
    {
        match self.heap.cleanable(cleanable) {
            Some(cleanable) => is_spent(cleanable.state),
            None => false,
        }
    }

    /// The resource at a Rid is out.
    fn is_out(&self, rid: Rid) -> bool
        ensures { result ≡ some_and (λ r. is_out_state r.state) (resource_at (machine_of self.now) rid) }
    {
        match self.cleaner.state(rid) {
            Some(state) => is_out_state(state),
            None => false,
        }
    }

    /// The resource at a Rid, which this cleanable finishes, is out.
    fn is_busy(&self, cleanable: Slot, rid: Rid) -> bool
        ensures { result ≡ (not (is_spent_at (machine_of self.now) cleanable)
            && some_and (λ r. is_out_state r.state) (resource_at (machine_of self.now) rid)) }
    {
        if self.is_closed(cleanable) {
            return false;
        }
        self.is_out(rid)
    }

    // ---- A call begins

    /// The guard whose file or socket is used, and which lies here.
    fn check_use(&self, by: Mutator, guard: Handle) -> Result<Guarded, Refusal>
        requires { IsWellFormed (machine_of self.now) }
        ensures { MatchResult result
            (λ held. (refusal (machine_of self.now) (Ask.CheckOut by guard) ≡ None)
            × IsGuardNamed (machine_of self.now) by guard held × IsFreeMutator (machine_of self.now) by
            × (resource_state_at self.now.cleaner.table held.guard.rid ≡ Some state.Idle))
            (λ r. refusal (machine_of self.now) (Ask.CheckOut by guard) ≡ Some r) }
    {
        self.check_session(by)?;
        let slot = self.check_object(by, guard)?;
        let guard = self.check_guard(slot)?;
        if self.is_closed(guard.cleanable) {
            return Err(Refusal::Closed);
        }
        if self.is_out(guard.rid) {
            return Err(Refusal::Busy);
        }
        self.check_no_call(by)?;
        Ok(Guarded { slot, guard })
    }

    /// A call on a file or socket begins: it goes out, and its guard is held.
    pub fn check_out(&mut self, by: Mutator, guard: Handle) -> Reply<R>
        requires { IsWellFormed (machine_of self.old) }
        ensures entry { StepsMachine (machine_of self.old) self.old.heap.marking (Some (Ask.CheckOut by guard))
            (answer_in result) no_choice (machine_of self.new) }
        ensures memory { answer_in result ≡ Some (Answer.Refused Refusal.NoMemory) → ⊥ }
        ensures flow { Conserves None self.old.cleaner.table (resource_of_reply result) self.new.cleaner.table }
        ensures moves { Moves None self.old.cleaner.table (resource_of_reply result) self.new.cleaner.table }
        ensures goes_out { GoesOut self.old.cleaner.table None (answer_in result) (resource_of_reply result) }
        ensures rest { LeavesSizes self.old self.new }
        ensures waits { WaitAsBefore self.old.cleaner self.new.cleaner }
        ensures marking { self.new.heap.marking ≡ self.old.heap.marking }
    {
        let held = match self.check_use(by, guard) {
            Ok(held) => held,
            Err(refusal) => {
                return Reply::Answered {
                    answer: Answer::Refused(refusal),
                    resource: None,
                };
            }
        };
        let rid = held.guard.rid;
        let resource = self.cleaner.check_out(rid);
        self.heap.begin_call(by, Some(held.slot), Call::Out(rid));
        Reply::Answered {
            answer: Answer::Out(rid),
            resource: Some(resource),
        }
    }

    // ---- And ends

    /// A call on a file or socket has ended, well or not: it lies here again.
    pub fn check_in(&mut self, by: Mutator, outcome: CallOutcome, resource: R) -> Reply<R>
        requires { IsWellFormed (machine_of self.old) }
        ensures entry { StepsMachine (machine_of self.old) self.old.heap.marking (Some (Ask.CheckIn by outcome))
            (answer_in result) no_choice (machine_of self.new) }
        ensures memory { answer_in result ≡ Some (Answer.Refused Refusal.NoMemory) → ⊥ }
        ensures flow { Conserves (Some resource) self.old.cleaner.table (resource_of_reply result)
            self.new.cleaner.table }
        ensures moves { Moves (Some resource) self.old.cleaner.table (resource_of_reply result) self.new.cleaner.table }
        ensures goes_out { GoesOut self.old.cleaner.table (Some resource) (answer_in result)
            (resource_of_reply result) }
        ensures rest { LeavesSizes self.old self.new }
        ensures waits { WaitAsBefore self.old.cleaner self.new.cleaner }
        ensures marks { MarksNew (machine_of self.old) self.old.heap.marking no_choice (machine_of self.new)
            self.new.heap.marking }
    {
        let held = match self.check_out_call(by) {
            Ok(held) => held,
            Err(refusal) => {
                return Reply::Answered {
                    answer: Answer::Refused(refusal),
                    resource: Some(resource),
                };
            }
        };
        self.cleaner.check_in(held.guard.rid, resource);
        self.heap.end_call(by);
        Reply::Answered {
            answer: ended(outcome),
            resource: None,
        }
    }

    // ---- A guard is closed

    /// The cleanable of the guard that is closed.
    fn check_close(&self, by: Mutator, guard: Handle) -> Result<Slot, Refusal>
        requires { IsWellFormed (machine_of self.now) }
        ensures { MatchResult result
            (λ slot. (refusal (machine_of self.now) (Ask.Close by guard) ≡ None)
            × (cleanable_of_guard (machine_of self.now) by guard ≡ Some slot)
            × IsFreeMutator (machine_of self.now) by × IsIdleAt (machine_of self.now) slot
            × IsTrue (some_and is_cleanable (at self.now.heap.graph.objects slot)))
            (λ r. refusal (machine_of self.now) (Ask.Close by guard) ≡ Some r) }
    {
        self.check_session(by)?;
        let slot = self.check_object(by, guard)?;
        let guard = self.check_guard(slot)?;
        if self.is_busy(guard.cleanable, guard.rid) {
            return Err(Refusal::Busy);
        }
        self.check_no_call(by)?;
        Ok(guard.cleanable)
    }

    /// A mutator takes up the action by which the file or socket of a guard is finished, unless it was taken up before.
    pub fn close(&mut self, by: Mutator, guard: Handle) -> Result<Option<Job<R>>, Refusal>
        requires fit { IsWellFormed (machine_of self.old) }
        requires waits { AllWait (machine_of self.old) self.old.cleaner.waiting }
        ensures meets { Meets (machine_of self.old) (Ask.Close by guard) (clean_answer result) no_choice
            (machine_of self.new) }
        ensures memory { clean_answer result ≡ Answer.Refused Refusal.NoMemory → ⊥ }
        ensures flow { Conserves None self.old.cleaner.table (handed_out result) self.new.cleaner.table }
        ensures moves { Moves None self.old.cleaner.table (handed_out result) self.new.cleaner.table }
        ensures goes_out { GoesOut self.old.cleaner.table None (Some (clean_answer result)) (handed_out result) }
        ensures rest { LeavesSizes self.old self.new }
        ensures waits { WaitsOn (machine_of self.new) self.old.cleaner self.new.cleaner }
        ensures marking { self.new.heap.marking ≡ self.old.heap.marking }
    {
        let slot = self.check_close(by, guard)?;
        Ok(self.start_job(by, slot))
    }
}

fn is_spent(state: CleanState) -> bool
    ensures { result ≡ is_spent state }
{
    match state {
        CleanState::Spent => true,
        CleanState::Armed | CleanState::Pending | CleanState::Lined => false,
    }
}

fn is_out_state(state: ResourceState) -> bool
    ensures { result ≡ is_out_state state }
{
    match state {
        ResourceState::Out => true,
        ResourceState::Opening | ResourceState::Idle | ResourceState::Closing => false,
    }
}

/// What the end of a call on a file or socket is answered.
fn ended(outcome: CallOutcome) -> Answer
    ensures { result ≡ call_answer outcome }
{
    match outcome {
        CallOutcome::Data(bytes) => Answer::Data(bytes),
        CallOutcome::Wrote(count) => Answer::Wrote(count),
        CallOutcome::Failed(fault) => Answer::Faulted(fault),
    }
}
