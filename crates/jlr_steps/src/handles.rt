//! The asks on sessions and handles.
ghost use Rattle.std.specs.Prelude.{◌≡◌, ℕ, ◌&&◌, not, true, false, Some, is_some, MatchResult};
ghost use Rattle.jlr_machine.specs.Lookups.{has_free_handle};
ghost use Rattle.jlr_machine.specs.Calls.{handle_given, with_given};
ghost use Rattle.jlr_machine.specs.WellFormed.{IsWellFormed};
ghost use Rattle.jlr_barrier.specs.Snapshots.{IsInHand};
ghost use Rattle.jlr_state.specs.State.{Checks, Answered};
ghost use Rattle.jlr_state.specs.Machines.{machine_of};
ghost use Rattle.jlr_state.specs.Rest.{LeavesRest};

use jlr_machine::ask::{Answer, Ask};
use jlr_state::state::State;
use jlr_types::{Handle, Mutator, Refusal, Slot};

pub(crate) fn join<R>(state: &mut State<R>, by: Mutator) -> Result<Answer, Refusal>
    ensures answered { Answered (machine_of state.old) (Ask.Join by) result (machine_of state.new) }
    ensures rest { LeavesRest state.old state.new }
    ensures marking { state.new.heap.marking ≡ state.old.heap.marking }
{
    let roots = state.heap.roots();
    if by.number() as usize >= roots.mutator_count() || roots.is_joined(by) {
        return Err(Refusal::NoSession);
    }
    state.heap.join(by);
    Ok(Answer::Done)
}

pub(crate) fn leave<R>(state: &mut State<R>, by: Mutator) -> Result<Answer, Refusal>
    ensures answered { Answered (machine_of state.old) (Ask.Leave by) result (machine_of state.new) }
    ensures rest { LeavesRest state.old state.new }
    ensures marking { state.new.heap.marking ≡ state.old.heap.marking }
{
    state.check_session(by)?;
    state.check_no_call(by)?;
    state.heap.leave(by);
    Ok(Answer::Done)
}

pub(crate) fn drop_handle<R>(
    state: &mut State<R>,
    by: Mutator,
    object: Handle,
) -> Result<Answer, Refusal>
    requires { IsWellFormed (machine_of state.old) }
    ensures answered { Answered (machine_of state.old) (Ask.Drop by object) result (machine_of state.new) }
    ensures rest { LeavesRest state.old state.new }
    ensures marking { state.new.heap.marking ≡ state.old.heap.marking }
{
    state.check_session(by)?;
    state.check_object(by, object)?;
    state.check_no_call(by)?;
    state.heap.drop_handle(by, object);
    Ok(Answer::Done)
}

pub(crate) fn same<R>(
    state: &State<R>,
    by: Mutator,
    left: Handle,
    right: Handle,
) -> Result<Answer, Refusal>
    requires { IsWellFormed (machine_of state.now) }
    ensures { Answered (machine_of state.now) (Ask.Same by left right) result (machine_of state.now) }
{
    state.check_session(by)?;
    let left = state.check_handle(by, left)?;
    let right = state.check_handle(by, right)?;
    state.check_no_call(by)?;
    Ok(Answer::Truth(left == right))
}

pub(crate) fn dup<R>(state: &mut State<R>, by: Mutator, object: Handle) -> Result<Answer, Refusal>
    requires { IsWellFormed (machine_of state.old) }
    ensures answered { Answered (machine_of state.old) (Ask.Dup by object) result (machine_of state.new) }
    ensures rest { LeavesRest state.old state.new }
    ensures marking { state.new.heap.marking ≡ state.old.heap.marking }
{
    state.check_session(by)?;
    let slot = state.check_object(by, object)?;
    state.check_no_call(by)?;
    state.check_free_handle(by)?;
    Ok(state.give(by, slot))
}

/// There is a free handle, if one is needed.
pub(crate) fn check_room_for<R>(
    state: &State<R>,
    by: Mutator,
    target: Option<Slot>,
) -> Result<(), Refusal>
    ensures { Checks result Refusal.HandlesFull (is_some target && not (has_free_handle (machine_of state.now) by)) }
{
    if target.is_some() {
        state.check_free_handle(by)?;
    }
    Ok(())
}

/// The handle for what may be null, where a handle is free if one is needed.
pub(crate) fn give_known<R>(state: &mut State<R>, by: Mutator, target: Option<Slot>) -> Answer
    requires room { (is_some target && not (has_free_handle (machine_of state.old) by)) ≡ false }
    requires held { (s : ℕ) → target ≡ Some s → IsInHand state.old.heap s }
    ensures answer { handle_given (machine_of state.old) by target ≡ Some result }
    ensures held { machine_of state.new ≡ with_given (machine_of state.old) by target }
    ensures objects { state.new.heap.graph.objects ≡ state.old.heap.graph.objects }
    ensures rest { LeavesRest state.old state.new }
    ensures marking { state.new.heap.marking ≡ state.old.heap.marking }
{
    match target {
        Some(slot) => state.give(by, slot),
        None => Answer::Handle(Handle::new(0)),
    }
}

/// The handle for what may be null.
pub(crate) fn give_or_null<R>(
    state: &mut State<R>,
    by: Mutator,
    target: Option<Slot>,
) -> Result<Answer, Refusal>
    requires { (s : ℕ) → target ≡ Some s → IsInHand state.old.heap s }
    ensures given { MatchResult result
        (λ a. (handle_given (machine_of state.old) by target ≡ Some a)
        × ((is_some target && not (has_free_handle (machine_of state.old) by)) ≡ false)
        × (machine_of state.new ≡ with_given (machine_of state.old) by target))
        (λ r. (r ≡ Refusal.HandlesFull) × ((is_some target && not (has_free_handle (machine_of state.old) by)) ≡ true)
        × (machine_of state.new ≡ machine_of state.old)) }
    ensures objects { state.new.heap.graph.objects ≡ state.old.heap.graph.objects }
    ensures rest { LeavesRest state.old state.new }
    ensures marking { state.new.heap.marking ≡ state.old.heap.marking }
{
    let Some(slot) = target else {
        return Ok(Answer::Handle(Handle::new(0)));
    };
    state.check_free_handle(by)?;
    Ok(state.give(by, slot))
}
