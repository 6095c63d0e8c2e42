//! The asks on references and queues, and the handler's.
ghost use Rattle.std.specs.Prelude.{◌≡◌, ◌&&◌, ◌≤◌, IsTrue, MatchResult, None, Ok, Some, false, is_none};
ghost use Rattle.std.specs.Prelude.{ℕ, is_some, length, not, option_and_then, true};
ghost use Rattle.jlr_machine.specs.Objects.{at, some_and};
ghost use Rattle.jlr_cells.specs.Contents.{member_in};
ghost use Rattle.jlr_machine.specs.Lookups.{has_free_handle, slot_named};
ghost use Rattle.jlr_machine.specs.Refusals.{refusal, is_queue, is_reference};
ghost use Rattle.jlr_machine.specs.Run.{no_choice};
ghost use Rattle.jlr_machine.specs.Choices.{nothing_chosen};
ghost use Rattle.jlr_machine.specs.WellFormed.{IsWellFormed};
ghost use Rattle.jlr_state.specs.State.{Checks, Answered, Meets, answer_of, clock_after_deref};
ghost use Rattle.jlr_state.specs.Marks.{MarksNew};
ghost use Rattle.jlr_state.specs.Machines.{machine_of};
ghost use Rattle.jlr_state.specs.Rest.{LeavesRest, LeavesRestMaking};

use crate::handles;
use jlr_cells::Shape;
use jlr_machine::ask::{Answer, Ask, Handed};
use jlr_machine::choice::Choice;
use jlr_state::state::State;
use jlr_types::{Handle, Mutator, RefKind, Refusal, Slot};

/// There is a reference at a slot.
fn check_reference<R>(state: &State<R>, slot: Slot) -> Result<(), Refusal>
    requires { IsTrue (is_some (at state.now.heap.graph.objects slot)) }
    ensures { Checks result Refusal.WrongKind
        (some_and (λ o. not (is_reference o)) (at state.now.heap.graph.objects slot)) }
{
    if state.heap.is_reference(slot) {
        Ok(())
    } else {
        Err(Refusal::WrongKind)
    }
}

/// There is a queue at a slot.
fn check_queue<R>(state: &State<R>, slot: Slot) -> Result<(), Refusal>
    requires { IsTrue (is_some (at state.now.heap.graph.objects slot)) }
    ensures { Checks result Refusal.WrongKind
        (some_and (λ o. not (is_queue o)) (at state.now.heap.graph.objects slot)) }
{
    if state.heap.is_queue(slot) {
        Ok(())
    } else {
        Err(Refusal::WrongKind)
    }
}

/// There is a queue at a slot, if there is a slot.
fn check_queue_or_null<R>(state: &State<R>, slot: Option<Slot>) -> Result<Option<Slot>, Refusal>
    requires { (s : ℕ) → slot ≡ Some s → IsTrue (is_some (at state.now.heap.graph.objects s)) }
    ensures { MatchResult result
        (λ queue. (queue ≡ slot)
        × (some_and (λ o. not (is_queue o)) (option_and_then (at state.now.heap.graph.objects) slot) ≡ false))
        (λ r. (r ≡ Refusal.WrongKind)
        × (some_and (λ o. not (is_queue o)) (option_and_then (at state.now.heap.graph.objects) slot) ≡ true)) }
{
    match slot {
        None => Ok(None),
        Some(queue) if state.heap.is_queue(queue) => Ok(Some(queue)),
        Some(_) => Err(Refusal::WrongKind),
    }
}

pub(crate) fn deref<R>(
    state: &mut State<R>,
    by: Mutator,
    reference: Handle,
) -> Result<Answer, Refusal>
    requires { IsWellFormed (machine_of state.old) }
    ensures answered { Answered (machine_of state.old) (Ask.Deref by reference) result (machine_of state.new) }
    ensures clock { state.new.heap.clock ≡ clock_after_deref (machine_of state.old) by reference (answer_of result)
        state.old.heap.clock }
    ensures cells { length state.new.heap.graph.objects ≡ length state.old.heap.graph.objects }
    ensures age { state.new.soft_age ≡ state.old.soft_age }
    ensures cleaner { state.new.cleaner ≡ state.old.cleaner }
    ensures marks { MarksNew (machine_of state.old) state.old.heap.marking no_choice (machine_of state.new)
        state.new.heap.marking }
{
    state.check_session(by)?;
    let slot = state.check_object(by, reference)?;
    check_reference(state, slot)?;
    state.check_no_call(by)?;
    handles::check_room_for(state, by, state.heap.gotten(slot))?;
    let given = jlr_refs::get(&mut state.heap, slot);
    Ok(handles::give_known(state, by, given))
}

pub(crate) fn refers<R>(
    state: &State<R>,
    by: Mutator,
    reference: Handle,
    object: Handle,
) -> Result<Answer, Refusal>
    requires { IsWellFormed (machine_of state.now) }
    ensures answered { Answered (machine_of state.now) (Ask.Refers by reference object) result (machine_of state.now) }
    ensures memory { answer_of result ≡ Answer.Refused Refusal.NoMemory → ⊥ }
{
    state.check_session(by)?;
    let named = state.check_handle(by, reference)?;
    let target = state.check_handle(by, object)?;
    let slot = named.ok_or(Refusal::Null)?;
    check_reference(state, slot)?;
    state.check_no_call(by)?;
    Ok(Answer::Truth(jlr_refs::refers_to(&state.heap, slot, target)))
}

pub(crate) fn clear<R>(
    state: &mut State<R>,
    by: Mutator,
    reference: Handle,
) -> Result<Answer, Refusal>
    requires { IsWellFormed (machine_of state.old) }
    ensures answered { Answered (machine_of state.old) (Ask.Clear by reference) result (machine_of state.new) }
    ensures rest { LeavesRest state.old state.new }
    ensures marking { state.new.heap.marking ≡ state.old.heap.marking }
{
    state.check_session(by)?;
    let slot = state.check_object(by, reference)?;
    check_reference(state, slot)?;
    state.check_no_call(by)?;
    jlr_refs::clear(&mut state.heap, slot);
    Ok(Answer::Done)
}

/// The reference that is to be enqueued.
fn check_enqueue<R>(state: &State<R>, by: Mutator, reference: Handle) -> Result<Slot, Refusal>
    requires { IsWellFormed (machine_of state.now) }
    ensures { MatchResult result
        (λ slot. (refusal (machine_of state.now) (Ask.Enqueue by reference) ≡ None)
        × (slot_named (machine_of state.now) by reference ≡ Some slot)
        × IsTrue (some_and is_reference (at state.now.heap.graph.objects slot)))
        (λ r. refusal (machine_of state.now) (Ask.Enqueue by reference) ≡ Some r) }
{
    state.check_session(by)?;
    let slot = state.check_object(by, reference)?;
    check_reference(state, slot)?;
    state.check_no_call(by)?;
    Ok(slot)
}

pub(crate) fn enqueue<R>(
    state: &mut State<R>,
    by: Mutator,
    reference: Handle,
) -> Result<Answer, Refusal>
    requires { IsWellFormed (machine_of state.old) }
    ensures answered { Answered (machine_of state.old) (Ask.Enqueue by reference) result (machine_of state.new) }
    ensures rest { LeavesRest state.old state.new }
    ensures marks { MarksNew (machine_of state.old) state.old.heap.marking no_choice (machine_of state.new)
        state.new.heap.marking }
{
    let slot = check_enqueue(state, by, reference)?;
    Ok(Answer::Truth(jlr_refs::enqueue(&mut state.heap, slot)))
}

pub(crate) fn enqueued<R>(
    state: &State<R>,
    by: Mutator,
    reference: Handle,
) -> Result<Answer, Refusal>
    requires { IsWellFormed (machine_of state.now) }
    ensures { Answered (machine_of state.now) (Ask.Enqueued by reference) result (machine_of state.now) }
{
    state.check_session(by)?;
    let slot = state.check_object(by, reference)?;
    check_reference(state, slot)?;
    state.check_no_call(by)?;
    Ok(Answer::Truth(jlr_refs::is_enqueued(&state.heap, slot)))
}

/// The queue that is polled, with a free handle for its front, if it has one.
fn check_poll<R>(state: &State<R>, by: Mutator, queue: Handle) -> Result<Slot, Refusal>
    requires { IsWellFormed (machine_of state.now) }
    ensures { MatchResult result
        (λ slot. (refusal (machine_of state.now) (Ask.Poll by queue) ≡ None)
        × (slot_named (machine_of state.now) by queue ≡ Some slot)
        × IsTrue (some_and is_queue (at state.now.heap.graph.objects slot))
        × ((is_some (member_in (at state.now.heap.graph.objects slot) 0)
        && not (has_free_handle (machine_of state.now) by)) ≡ false))
        (λ r. refusal (machine_of state.now) (Ask.Poll by queue) ≡ Some r) }
{
    state.check_session(by)?;
    let slot = state.check_object(by, queue)?;
    check_queue(state, slot)?;
    state.check_no_call(by)?;
    handles::check_room_for(state, by, state.heap.front(slot))?;
    Ok(slot)
}

pub(crate) fn poll<R>(state: &mut State<R>, by: Mutator, queue: Handle) -> Result<Answer, Refusal>
    requires { IsWellFormed (machine_of state.old) }
    ensures answered { Answered (machine_of state.old) (Ask.Poll by queue) result (machine_of state.new) }
    ensures rest { LeavesRest state.old state.new }
    ensures marks { MarksNew (machine_of state.old) state.old.heap.marking no_choice (machine_of state.new)
        state.new.heap.marking }
{
    let slot = check_poll(state, by, queue)?;
    let front = jlr_refs::poll(&mut state.heap, slot);
    Ok(handles::give_known(state, by, front))
}

/// The queue whose front is removed, with a free handle for it.
pub(crate) fn check_remove<R>(state: &State<R>, by: Mutator, queue: Handle) -> Result<Slot, Refusal>
    requires { IsWellFormed (machine_of state.now) }
    ensures { MatchResult result
        (λ slot. (refusal (machine_of state.now) (Ask.Remove by queue) ≡ None)
        × (slot_named (machine_of state.now) by queue ≡ Some slot)
        × IsTrue (some_and is_queue (at state.now.heap.graph.objects slot))
        × ((is_some (member_in (at state.now.heap.graph.objects slot) 0)
        && not (has_free_handle (machine_of state.now) by)) ≡ false))
        (λ r. refusal (machine_of state.now) (Ask.Remove by queue) ≡ Some r) }
{
    state.check_session(by)?;
    let slot = state.check_object(by, queue)?;
    check_queue(state, slot)?;
    state.check_no_call(by)?;
    let front = state.heap.front(slot);
    if front.is_none() {
        return Err(Refusal::WouldWait);
    }
    handles::check_room_for(state, by, front)?;
    Ok(slot)
}

/// As `poll`, but it does not answer null: it is refused where the queue is empty.
pub(crate) fn remove<R>(state: &mut State<R>, by: Mutator, queue: Handle) -> Result<Answer, Refusal>
    requires { IsWellFormed (machine_of state.old) }
    ensures answered { Answered (machine_of state.old) (Ask.Remove by queue) result (machine_of state.new) }
    ensures rest { LeavesRest state.old state.new }
    ensures marks { MarksNew (machine_of state.old) state.old.heap.marking no_choice (machine_of state.new)
        state.new.heap.marking }
{
    let slot = check_remove(state, by, queue)?;
    let member = jlr_refs::poll(&mut state.heap, slot);
    Ok(handles::give_known(state, by, member))
}

/// The handler's step.
pub(crate) fn hand_over<R>(state: &mut State<R>) -> Handed
    requires { IsWellFormed (machine_of state.old) }
    ensures answered { Answered (machine_of state.old) Ask.HandOver (Ok (Answer.Handed result)) (machine_of state.new) }
    ensures rest { LeavesRest state.old state.new }
    ensures marks { MarksNew (machine_of state.old) state.old.heap.marking no_choice (machine_of state.new)
        state.new.heap.marking }
{
    jlr_refs::hand_over(&mut state.heap)
}

pub(crate) fn make_queue<R>(
    state: &mut State<R>,
    by: Mutator,
    choice: &mut Choice,
) -> Result<Answer, Refusal>
    requires fit { IsWellFormed (machine_of state.old) }
    requires nothing { choice.old ≡ nothing_chosen choice.old.cells }
    requires room { length state.old.heap.graph.objects ≤ choice.old.cells }
    ensures meets { Meets (machine_of state.old) (Ask.MakeQueue by) (answer_of result) choice.new.chosen
        (machine_of state.new) }
    ensures memory { answer_of result ≡ Answer.Refused Refusal.NoMemory → ⊥ }
    ensures rest { LeavesRestMaking state.old choice.old choice.new state.new }
    ensures marks { MarksNew (machine_of state.old) state.old.heap.marking choice.new.chosen (machine_of state.new)
        state.new.heap.marking }
{
    state.check_session(by)?;
    state.check_no_call(by)?;
    state.check_free_handle(by)?;
    let slot = state.allocate(&Shape::Queue, choice)?;
    Ok(state.give(by, slot))
}

pub(crate) fn make_reference<R>(
    state: &mut State<R>,
    by: Mutator,
    kind: RefKind,
    referent: Handle,
    queue: Handle,
    choice: &mut Choice,
) -> Result<Answer, Refusal>
    requires fit { IsWellFormed (machine_of state.old) }
    requires nothing { choice.old ≡ nothing_chosen choice.old.cells }
    requires room { length state.old.heap.graph.objects ≤ choice.old.cells }
    ensures meets { Meets (machine_of state.old) (Ask.MakeRef by kind referent queue) (answer_of result)
        choice.new.chosen (machine_of state.new) }
    ensures memory { answer_of result ≡ Answer.Refused Refusal.NoMemory → ⊥ }
    ensures rest { LeavesRestMaking state.old choice.old choice.new state.new }
    ensures marks { MarksNew (machine_of state.old) state.old.heap.marking choice.new.chosen (machine_of state.new)
        state.new.heap.marking }
{
    state.check_session(by)?;
    let named = state.check_handle(by, referent)?;
    let ahead = state.check_handle(by, queue)?;
    let target = named.ok_or(Refusal::Null)?;
    let queue = check_queue_or_null(state, ahead)?;
    state.check_no_call(by)?;
    state.check_free_handle(by)?;
    let shape = Shape::Reference {
        kind,
        referent: Some(target),
        queue,
    };
    match state.allocate(&shape, choice) {
        Ok(slot) => Ok(state.give(by, slot)),
        Err(refusal) => Err(refusal),
    }
}
