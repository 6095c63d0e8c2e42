//! The asks on names.
ghost use Rattle.std.specs.Prelude.{◌≡◌, ◌&&◌, MatchResult, None, Some, false, is_none, length, nat_le};
ghost use Rattle.jlr_machine.specs.Lookups.{slot_bound, slot_named};
ghost use Rattle.jlr_machine.specs.Refusals.{refusal};
ghost use Rattle.jlr_machine.specs.Run.{no_choice};
ghost use Rattle.jlr_machine.specs.WellFormed.{IsWellFormed};
ghost use Rattle.jlr_state.specs.Events.{MayWantMemory};
ghost use Rattle.jlr_state.specs.State.{Checks, Answered, Meets, answer_of};
ghost use Rattle.jlr_state.specs.Machines.{machine_of};
ghost use Rattle.jlr_state.specs.Rest.{LeavesRest};

use jlr_machine::ask::{Answer, Ask};
use jlr_machine::text::Name;
use jlr_roots::NAME_LIMIT;
use jlr_state::state::State;
use jlr_types::{Handle, Mutator, Refusal, Slot};

/// A name is bound: what it stands for.
fn check_name<R>(state: &State<R>, name: &Name) -> Result<Slot, Refusal>
    ensures { MatchResult result (λ slot. slot_bound (machine_of state.now).names name.now ≡ Some slot)
        (λ r. (r ≡ Refusal.NoName) × (slot_bound (machine_of state.now).names name.now ≡ None)) }
{
    match state.heap.find(name) {
        Some(slot) => Ok(slot),
        None => Err(Refusal::NoName),
    }
}

/// A name is bound, or one more may be.
fn check_room_for_name<R>(state: &State<R>, name: &Name) -> Result<(), Refusal>
    ensures { Checks result Refusal.NamesFull
        (is_none (slot_bound (machine_of state.now).names name.now)
        && nat_le 256 (length (machine_of state.now).names)) }
{
    if state.heap.find(name).is_none() && state.heap.name_count() >= NAME_LIMIT {
        Err(Refusal::NamesFull)
    } else {
        Ok(())
    }
}

/// The object that is to have a name.
fn check_bind<R>(
    state: &State<R>,
    by: Mutator,
    name: &Name,
    object: Handle,
) -> Result<Slot, Refusal>
    requires { IsWellFormed (machine_of state.now) }
    ensures { MatchResult result
        (λ slot. (refusal (machine_of state.now) (Ask.Bind by name.now object) ≡ None)
        × (slot_named (machine_of state.now) by object ≡ Some slot)
        × ((is_none (slot_bound (machine_of state.now).names name.now)
        && nat_le 256 (length (machine_of state.now).names)) ≡ false))
        (λ r. refusal (machine_of state.now) (Ask.Bind by name.now object) ≡ Some r) }
{
    state.check_session(by)?;
    let slot = state.check_object(by, object)?;
    state.check_no_call(by)?;
    check_room_for_name(state, name)?;
    Ok(slot)
}

/// An object is named. A name that is bound stands for it from now on; a new one may find no memory.
pub(crate) fn bind<R>(
    state: &mut State<R>,
    by: Mutator,
    name: &Name,
    object: Handle,
) -> Result<Answer, Refusal>
    requires { IsWellFormed (machine_of state.old) }
    ensures meets { Meets (machine_of state.old) (Ask.Bind by name.now object) (answer_of result) no_choice
        (machine_of state.new) }
    ensures memory { answer_of result ≡ Answer.Refused Refusal.NoMemory
        → MayWantMemory (machine_of state.old) state.old.cleaner.table (Ask.Bind by name.now object) }
    ensures rest { LeavesRest state.old state.new }
    ensures marking { state.new.heap.marking ≡ state.old.heap.marking }
{
    let slot = check_bind(state, by, name, object)?;
    match state.heap.bind(name, slot) {
        Ok(()) => Ok(Answer::Done),
        Err(_) => Err(Refusal::NoMemory),
    }
}

/// A handle for what a name stands for.
pub(crate) fn find<R>(state: &mut State<R>, by: Mutator, name: &Name) -> Result<Answer, Refusal>
    ensures answered { Answered (machine_of state.old) (Ask.Find by name.now) result (machine_of state.new) }
    ensures memory { answer_of result ≡ Answer.Refused Refusal.NoMemory → ⊥ }
    ensures rest { LeavesRest state.old state.new }
    ensures marking { state.new.heap.marking ≡ state.old.heap.marking }
{
    state.check_session(by)?;
    let slot = check_name(state, name)?;
    state.check_no_call(by)?;
    state.check_free_handle(by)?;
    Ok(state.give(by, slot))
}

pub(crate) fn unbind<R>(state: &mut State<R>, by: Mutator, name: &Name) -> Result<Answer, Refusal>
    ensures answered { Answered (machine_of state.old) (Ask.Unbind by name.now) result (machine_of state.new) }
    ensures memory { answer_of result ≡ Answer.Refused Refusal.NoMemory → ⊥ }
    ensures rest { LeavesRest state.old state.new }
    ensures marking { state.new.heap.marking ≡ state.old.heap.marking }
{
    state.check_session(by)?;
    check_name(state, name)?;
    state.check_no_call(by)?;
    state.heap.unbind(name);
    Ok(Answer::Done)
}

/// The names, in order of binding.
pub(crate) fn names<R>(state: &State<R>, by: Mutator) -> Result<Answer, Refusal>
    ensures meets { Meets (machine_of state.now) (Ask.Names by) (answer_of result) no_choice (machine_of state.now) }
    ensures memory { answer_of result ≡ Answer.Refused Refusal.NoMemory
        → MayWantMemory (machine_of state.now) state.now.cleaner.table (Ask.Names by) }
{
    state.check_session(by)?;
    state.check_no_call(by)?;
    match state.heap.names(state.alloc) {
        Ok(names) => Ok(Answer::Names(names)),
        Err(_) => Err(Refusal::NoMemory),
    }
}
