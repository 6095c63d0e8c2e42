//! The asks on cleaners and cleanables, and the cleaner's: actions are registered, taken up, and told how they ended.
ghost use Rattle.std.specs.Prelude.{◌≡◌, ℕ, ◌-◌, ◌^◌, ◌≤◌, IsTrue, MatchResult, None, Some, false, true, not, is_some};
ghost use Rattle.std.specs.Prelude.{length, nat_le};
ghost use Rattle.jlr_machine.specs.declared.object.Cleanable.{Cleanable};
ghost use Rattle.jlr_machine.specs.declared.object.Object.TheVariants as object;
ghost use Rattle.jlr_machine.specs.declared.object.CleanState.TheVariants as state;
ghost use Rattle.jlr_machine.specs.Objects.{at, some_and, is_cleaner};
ghost use Rattle.jlr_machine.specs.Lookups.{has_free_handle, job_of, on, slot_named};
ghost use Rattle.jlr_machine.specs.Refusals.{has_call, is_cleanable, is_joined, refusal};
ghost use Rattle.jlr_machine.specs.Calls.{finished, outcome_answer};
ghost use Rattle.jlr_cleaner.specs.Jobs.{is_job_of};
ghost use Rattle.jlr_machine.specs.Run.{no_choice};
ghost use Rattle.jlr_machine.specs.Choices.{nothing_chosen};
ghost use Rattle.jlr_machine.specs.WellFormed.{IsWellFormed};
ghost use Rattle.jlr_resource.specs.Resources.{values};
ghost use Rattle.jlr_state.specs.Events.{MayWantMemory};
ghost use Rattle.jlr_state.specs.Collecting.{after_choice};
ghost use Rattle.jlr_state.specs.State.{Checks, Answered, Meets, answer_of};
ghost use Rattle.jlr_state.specs.Flows.{Conserves, GoesOut, LieAsBefore, Moves};
ghost use Rattle.jlr_state.specs.Waiting.{AllWait, WaitAsBefore, WaitsOn};
ghost use Rattle.jlr_state.specs.TakeUps.{clean_answer, handed_out, take_up_answered};
ghost use Rattle.jlr_state.specs.Marks.{MarksNew};
ghost use Rattle.jlr_state.specs.Machines.{machine_of};
ghost use Rattle.jlr_state.specs.Rest.{LeavesRestMaking, LeavesSizes};

use jlr_cells::Shape;
use jlr_cleaner::Job;
use jlr_machine::ask::{Answer, Ask, CLEANER, Outcome};
use jlr_machine::choice::Choice;
use jlr_machine::object::Cleanable;
use jlr_state::state::State;
use jlr_types::{ActionNo, Handle, Mutator, Refusal, Slot, Work};

pub(crate) fn make_cleaner<R>(
    state: &mut State<R>,
    by: Mutator,
    choice: &mut Choice,
) -> Result<Answer, Refusal>
    requires fit { IsWellFormed (machine_of state.old) }
    requires nothing { choice.old ≡ nothing_chosen choice.old.cells }
    requires room { length state.old.heap.graph.objects ≤ choice.old.cells }
    ensures meets { Meets (machine_of state.old) (Ask.MakeCleaner by) (answer_of result) choice.new.chosen
        (machine_of state.new) }
    ensures memory { answer_of result ≡ Answer.Refused Refusal.NoMemory → ⊥ }
    ensures rest { LeavesRestMaking state.old choice.old choice.new state.new }
    ensures marks { MarksNew (machine_of state.old) state.old.heap.marking choice.new.chosen (machine_of state.new)
        state.new.heap.marking }
{
    state.check_session(by)?;
    state.check_no_call(by)?;
    state.check_free_handle(by)?;
    let slot = state.allocate(&Shape::Cleaner, choice)?;
    Ok(state.give(by, slot))
}

/// There is a cleaner at a slot.
fn check_cleaner<R>(state: &State<R>, slot: Slot) -> Result<(), Refusal>
    requires { IsTrue (is_some (at state.now.heap.graph.objects slot)) }
    ensures { Checks result Refusal.WrongKind
        (some_and (λ o. not (is_cleaner o)) (at state.now.heap.graph.objects slot)) }
{
    if state.heap.is_cleaner(slot) {
        Ok(())
    } else {
        Err(Refusal::WrongKind)
    }
}

/// There is a cleanable at a slot.
fn check_cleanable<R>(state: &State<R>, slot: Slot) -> Result<(), Refusal>
    requires { IsTrue (is_some (at state.now.heap.graph.objects slot)) }
    ensures { Checks result Refusal.WrongKind
        (some_and (λ o. not (is_cleanable o)) (at state.now.heap.graph.objects slot)) }
{
    if state.heap.is_cleanable(slot) {
        Ok(())
    } else {
        Err(Refusal::WrongKind)
    }
}

/// The object that an action is to be registered for.
fn check_register<R>(
    state: &State<R>,
    by: Mutator,
    cleaner: Handle,
    object: Handle,
) -> Result<Slot, Refusal>
    requires { IsWellFormed (machine_of state.now) }
    ensures { MatchResult result
        (λ slot. ((note : ℕ) → refusal (machine_of state.now) (Ask.Register by cleaner object note) ≡ None)
        × (slot_named (machine_of state.now) by object ≡ Some slot)
        × (has_free_handle (machine_of state.now) by ≡ true)
        × (nat_le (2 ^ 64 - 1) state.now.cleaner.next_action ≡ false))
        (λ r. (note : ℕ) → refusal (machine_of state.now) (Ask.Register by cleaner object note) ≡ Some r) }
{
    state.check_session(by)?;
    let cleaner = state.check_handle(by, cleaner)?;
    let target = state.check_handle(by, object)?;
    let cleaner = cleaner.ok_or(Refusal::Null)?;
    let target = target.ok_or(Refusal::Null)?;
    check_cleaner(state, cleaner)?;
    state.check_no_call(by)?;
    state.check_free_handle(by)?;
    state.check_numbers()?;
    Ok(target)
}

/// A cleaning action of a note is registered for an object.
pub(crate) fn register<R>(
    state: &mut State<R>,
    by: Mutator,
    cleaner: Handle,
    object: Handle,
    note: u32,
    choice: &mut Choice,
) -> Result<Answer, Refusal>
    requires fit { IsWellFormed (machine_of state.old) }
    requires nothing { choice.old ≡ nothing_chosen choice.old.cells }
    requires room { length state.old.heap.graph.objects ≤ choice.old.cells }
    requires waits { AllWait (machine_of state.old) state.old.cleaner.waiting }
    ensures meets { Meets (machine_of state.old) (Ask.Register by cleaner object note) (answer_of result)
        choice.new.chosen (machine_of state.new) }
    ensures memory { answer_of result ≡ Answer.Refused Refusal.NoMemory → ⊥ }
    ensures room { choice.new.cells ≡ choice.old.cells }
    ensures cells { length state.new.heap.graph.objects ≡ length state.old.heap.graph.objects }
    ensures age { state.new.soft_age ≡ state.old.soft_age }
    ensures table { state.new.cleaner.table ≡ state.old.cleaner.table }
    ensures clock { state.new.heap.clock ≡ after_choice choice.new.chosen state.old.heap.clock }
    ensures waits { WaitsOn (machine_of state.new) state.old.cleaner state.new.cleaner }
    ensures marks { MarksNew (machine_of state.old) state.old.heap.marking choice.new.chosen (machine_of state.new)
        state.new.heap.marking }
{
    let target = match check_register(state, by, cleaner, object) {
        Ok(target) => target,
        Err(refusal) => return Err(refusal),
    };
    let shape = Shape::Cleanable {
        referent: Some(target),
        action: ActionNo::new(state.cleaner.next_action()),
        work: Work::Note(note),
    };
    match state.allocate(&shape, choice) {
        Ok(slot) => {
            let _action = state.cleaner.register(slot);
            Ok(state.give(by, slot))
        }
        Err(refusal) => Err(refusal),
    }
}

/// The cleanable that is to be cleaned.
fn check_clean<R>(state: &State<R>, by: Mutator, cleanable: Handle) -> Result<Slot, Refusal>
    requires { IsWellFormed (machine_of state.now) }
    ensures { MatchResult result
        (λ slot. (refusal (machine_of state.now) (Ask.Clean by cleanable) ≡ None)
        × (slot_named (machine_of state.now) by cleanable ≡ Some slot)
        × (is_joined (machine_of state.now) by ≡ true) × (has_call (machine_of state.now) by ≡ false)
        × IsTrue (some_and is_cleanable (at state.now.heap.graph.objects slot)))
        (λ r. refusal (machine_of state.now) (Ask.Clean by cleanable) ≡ Some r) }
{
    state.check_session(by)?;
    let slot = state.check_object(by, cleanable)?;
    check_cleanable(state, slot)?;
    state.check_no_call(by)?;
    Ok(slot)
}

/// A mutator takes up the action of a cleanable, unless it was taken up before.
pub(crate) fn clean<R>(
    state: &mut State<R>,
    by: Mutator,
    cleanable: Handle,
) -> Result<Option<Job<R>>, Refusal>
    requires fit { IsWellFormed (machine_of state.old) }
    requires waits { AllWait (machine_of state.old) state.old.cleaner.waiting }
    ensures meets { Meets (machine_of state.old) (Ask.Clean by cleanable) (clean_answer result) no_choice
        (machine_of state.new) }
    ensures memory { clean_answer result ≡ Answer.Refused Refusal.NoMemory → ⊥ }
    ensures flow { Conserves None state.old.cleaner.table (handed_out result) state.new.cleaner.table }
    ensures moves { Moves None state.old.cleaner.table (handed_out result) state.new.cleaner.table }
    ensures goes_out { GoesOut state.old.cleaner.table None (Some (clean_answer result)) (handed_out result) }
    ensures rest { LeavesSizes state.old state.new }
    ensures waits { WaitsOn (machine_of state.new) state.old.cleaner state.new.cleaner }
    ensures marking { state.new.heap.marking ≡ state.old.heap.marking }
{
    let slot = check_clean(state, by, cleanable)?;
    Ok(state.start_job(by, slot))
}

/// The cleaner takes up the action of the first Lined cleanable of its line, if there is one. What was Spent before it
/// leaves the line.
///
/// # Errors
/// `Busy` where the cleaner has a job that has not ended.
#[inline(always)]
pub(crate) fn take_up<R>(state: &mut State<R>) -> Result<Option<Job<R>>, Refusal>
    requires fit { IsWellFormed (machine_of state.old) }
    requires waits { AllWait (machine_of state.old) state.old.cleaner.waiting }
    ensures meets { Meets (machine_of state.old) Ask.TakeUp (take_up_answered result) no_choice (machine_of state.new) }
    ensures memory { take_up_answered result ≡ Answer.Refused Refusal.NoMemory → ⊥ }
    ensures flow { Conserves None state.old.cleaner.table (handed_out result) state.new.cleaner.table }
    ensures moves { Moves None state.old.cleaner.table (handed_out result) state.new.cleaner.table }
    ensures goes_out { GoesOut state.old.cleaner.table None (Some (take_up_answered result)) (handed_out result) }
    ensures rest { LeavesSizes state.old state.new }
    ensures waits { WaitsOn (machine_of state.new) state.old.cleaner state.new.cleaner }
    ensures marking { state.new.heap.marking ≡ state.old.heap.marking }
{
    if state.cleaner.runs_job(CLEANER) {
        return Err(Refusal::Busy);
    }
    let Some(taken) = jlr_refs::take_lined(&mut state.heap) else {
        return Ok(None);
    };
    let (slot, cleanable) = taken;
    let job = state
        .cleaner
        .take_up(CLEANER, slot, cleanable.action, cleanable.work);
    Ok(Some(job))
}

/// A job has ended: its taker, a mutator or 255 for the cleaner, tells how.
///
/// # Errors
/// `NoSession` where the taker is no joined mutator, `NotOut` where it runs no such job.
#[inline(always)]
pub(crate) fn finish<R>(
    state: &mut State<R>,
    by: u8,
    action: ActionNo,
    outcome: Outcome,
) -> Result<Answer, Refusal>
    requires { IsWellFormed (machine_of state.old) }
    ensures answered { Answered (machine_of state.old) (Ask.Finish by action outcome) result (machine_of state.new) }
    ensures memory { answer_of result ≡ Answer.Refused Refusal.NoMemory → ⊥ }
    ensures values { values state.new.cleaner.table ≡ values state.old.cleaner.table }
    ensures lies { LieAsBefore state.old.cleaner.table state.new.cleaner.table }
    ensures rest { LeavesSizes state.old state.new }
    ensures waits { WaitAsBefore state.old.cleaner state.new.cleaner }
    ensures marks { MarksNew (machine_of state.old) state.old.heap.marking no_choice (machine_of state.new)
        state.new.heap.marking }
{
    if by == CLEANER {
        return end_job(state, by, action, outcome);
    }
    let taker = Mutator::new(by);
    state.check_session(taker)?;
    let answer = end_job(state, by, action, outcome)?;
    state.heap.end_call(taker);
    Ok(answer)
}

/// A job of this taker is over.
fn end_job<R>(
    state: &mut State<R>,
    by: u8,
    action: ActionNo,
    outcome: Outcome,
) -> Result<Answer, Refusal>
    ensures ended { MatchResult result
        (λ answer. (is_job_of (machine_of state.old).jobs by action ≡ true)
        × (outcome_answer outcome (Some Answer.Done) ≡ Some answer)
        × (machine_of state.new ≡ on (job_of (machine_of state.old) action)
        (λ job. finished (machine_of state.old) job outcome) (machine_of state.old)))
        (λ r. (r ≡ Refusal.NotOut) × (is_job_of (machine_of state.old).jobs by action ≡ false)
        × (machine_of state.new ≡ machine_of state.old)) }
    ensures values { values state.new.cleaner.table ≡ values state.old.cleaner.table }
    ensures lies { LieAsBefore state.old.cleaner.table state.new.cleaner.table }
    ensures heap { state.new.heap ≡ state.old.heap }
    ensures age { state.new.soft_age ≡ state.old.soft_age }
    ensures table_room { state.new.cleaner.table.room ≡ state.old.cleaner.table.room }
    ensures waits { WaitAsBefore state.old.cleaner state.new.cleaner }
{
    if !state.cleaner.finish(by, action, outcome) {
        return Err(Refusal::NotOut);
    }
    Ok(ended(outcome))
}

/// The last notes, the oldest first.
pub(crate) fn notes<R>(state: &State<R>, by: Mutator) -> Result<Answer, Refusal>
    ensures meets { Meets (machine_of state.now) (Ask.Notes by) (answer_of result) no_choice (machine_of state.now) }
    ensures memory { answer_of result ≡ Answer.Refused Refusal.NoMemory
        → MayWantMemory (machine_of state.now) state.now.cleaner.table (Ask.Notes by) }
{
    state.check_session(by)?;
    state.check_no_call(by)?;
    match state.cleaner.notes(state.alloc) {
        Ok(notes) => Ok(Answer::Notes(notes)),
        Err(_) => Err(Refusal::NoMemory),
    }
}

/// The last actions that failed, and why, the oldest first.
pub(crate) fn faults<R>(state: &State<R>, by: Mutator) -> Result<Answer, Refusal>
    ensures meets { Meets (machine_of state.now) (Ask.Faults by) (answer_of result) no_choice (machine_of state.now) }
    ensures memory { answer_of result ≡ Answer.Refused Refusal.NoMemory
        → MayWantMemory (machine_of state.now) state.now.cleaner.table (Ask.Faults by) }
{
    state.check_session(by)?;
    state.check_no_call(by)?;
    match state.cleaner.faults(state.alloc) {
        Ok(faults) => Ok(Answer::Faults(faults)),
        Err(_) => Err(Refusal::NoMemory),
    }
}

/// What the end of a job is answered.
fn ended(outcome: Outcome) -> Answer
    ensures { outcome_answer outcome (Some Answer.Done) ≡ Some result }
{
    match outcome {
        Outcome::Ok => Answer::Done,
        Outcome::Failed(fault) => Answer::Faulted(fault),
    }
}
