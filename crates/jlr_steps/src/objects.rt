//! The asks on plain objects.
ghost use Rattle.std.specs.Prelude.{◌≡◌, Some, MatchResult, IsTrue, is_some, not, ◌≤◌, length, option_and_then};
ghost use Rattle.jlr_machine.specs.Objects.{at, some_and, as_fields, value_at};
ghost use Rattle.jlr_machine.specs.Refusals.{is_plain, is_record};
ghost use Rattle.jlr_machine.specs.Choices.{nothing_chosen};
ghost use Rattle.jlr_machine.specs.Run.{no_choice};
ghost use Rattle.jlr_machine.specs.WellFormed.{IsWellFormed};
ghost use Rattle.jlr_state.specs.Events.{MayWantMemory};
ghost use Rattle.jlr_state.specs.State.{Checks, Answered, FieldRefused, IntRefused, Meets, answer_of};
ghost use Rattle.jlr_state.specs.Marks.{MarksNew};
ghost use Rattle.jlr_state.specs.Machines.{machine_of};
ghost use Rattle.jlr_state.specs.Rest.{LeavesRest, LeavesRestMaking};

use crate::handles;
use jlr_cells::{Elements, Shape};
use jlr_machine::ask::{Answer, Ask};
use jlr_machine::choice::Choice;
use jlr_state::state::State;
use jlr_types::{FieldNo, FieldValue, Handle, Layout, Length, Mutator, Refusal, Slot};

/// A plain object: one with fields, or an array.
fn check_plain<R>(state: &State<R>, slot: Slot) -> Result<(), Refusal>
    requires { IsTrue (is_some (at state.now.heap.graph.objects slot)) }
    ensures { Checks result Refusal.WrongKind
        (some_and (λ o. not (is_plain o)) (at state.now.heap.graph.objects slot)) }
{
    if state.heap.is_plain(slot) {
        Ok(())
    } else {
        Err(Refusal::WrongKind)
    }
}

/// A plain object with fields, which may hold integers.
fn check_record<R>(state: &State<R>, slot: Slot) -> Result<(), Refusal>
    requires { IsTrue (is_some (at state.now.heap.graph.objects slot)) }
    ensures { Checks result Refusal.WrongKind
        (some_and (λ o. not (is_record o)) (at state.now.heap.graph.objects slot)) }
{
    if state.heap.is_record(slot) {
        Ok(())
    } else {
        Err(Refusal::WrongKind)
    }
}

/// What a reference field or an element of the object at a slot refers to.
fn check_reference_field<R>(
    state: &State<R>,
    slot: Slot,
    field: FieldNo,
) -> Result<Option<Slot>, Refusal>
    ensures { MatchResult result
        (λ target. option_and_then (λ fields. value_at fields field)
        (option_and_then as_fields (at state.now.heap.graph.objects slot)) ≡ Some (FieldValue.Ref target))
        (λ r. FieldRefused (option_and_then (λ fields. value_at fields field)
        (option_and_then as_fields (at state.now.heap.graph.objects slot))) r) }
{
    if !state.heap.has_field(slot, field.number() as usize) {
        return Err(Refusal::NoField);
    }
    match state.heap.load(slot, field.number() as usize) {
        FieldValue::Ref(target) => Ok(target),
        FieldValue::Int(_) => Err(Refusal::WrongType),
    }
}

pub(crate) fn get<R>(
    state: &mut State<R>,
    by: Mutator,
    object: Handle,
    field: FieldNo,
) -> Result<Answer, Refusal>
    requires { IsWellFormed (machine_of state.old) }
    ensures answered { Answered (machine_of state.old) (Ask.Get by object field) result (machine_of state.new) }
    ensures rest { LeavesRest state.old state.new }
    ensures marking { state.new.heap.marking ≡ state.old.heap.marking }
{
    state.check_session(by)?;
    let slot = state.check_object(by, object)?;
    check_plain(state, slot)?;
    let target = check_reference_field(state, slot, field)?;
    state.check_no_call(by)?;
    handles::give_or_null(state, by, target)
}

pub(crate) fn put<R>(
    state: &mut State<R>,
    by: Mutator,
    object: Handle,
    field: FieldNo,
    value: Handle,
) -> Result<Answer, Refusal>
    requires { IsWellFormed (machine_of state.old) }
    ensures answered { Answered (machine_of state.old) (Ask.Put by object field value) result (machine_of state.new) }
    ensures memory { answer_of result ≡ Answer.Refused Refusal.NoMemory → ⊥ }
    ensures rest { LeavesRest state.old state.new }
    ensures marks { MarksNew (machine_of state.old) state.old.heap.marking no_choice (machine_of state.new)
        state.new.heap.marking }
{
    state.check_session(by)?;
    let named = state.check_handle(by, object)?;
    let target = state.check_handle(by, value)?;
    let slot = named.ok_or(Refusal::Null)?;
    check_plain(state, slot)?;
    check_reference_field(state, slot, field)?;
    state.check_no_call(by)?;
    state
        .heap
        .store(slot, field.number() as usize, FieldValue::Ref(target));
    Ok(Answer::Done)
}

/// The integer in an integer field of the object at a slot.
fn check_int_field<R>(state: &State<R>, slot: Slot, field: FieldNo) -> Result<i64, Refusal>
    ensures { MatchResult result
        (λ number. option_and_then (λ fields. value_at fields field)
        (option_and_then as_fields (at state.now.heap.graph.objects slot)) ≡ Some (FieldValue.Int number))
        (λ r. IntRefused (option_and_then (λ fields. value_at fields field)
        (option_and_then as_fields (at state.now.heap.graph.objects slot))) r) }
{
    if !state.heap.has_field(slot, field.number() as usize) {
        return Err(Refusal::NoField);
    }
    match state.heap.load(slot, field.number() as usize) {
        FieldValue::Int(number) => Ok(number),
        FieldValue::Ref(_) => Err(Refusal::WrongType),
    }
}

pub(crate) fn int<R>(
    state: &State<R>,
    by: Mutator,
    object: Handle,
    field: FieldNo,
) -> Result<Answer, Refusal>
    requires { IsWellFormed (machine_of state.now) }
    ensures answered { Answered (machine_of state.now) (Ask.Int by object field) result (machine_of state.now) }
    ensures memory { answer_of result ≡ Answer.Refused Refusal.NoMemory → ⊥ }
{
    state.check_session(by)?;
    let slot = state.check_object(by, object)?;
    check_record(state, slot)?;
    let number = check_int_field(state, slot, field)?;
    state.check_no_call(by)?;
    Ok(Answer::Int(number))
}

pub(crate) fn set_int<R>(
    state: &mut State<R>,
    by: Mutator,
    object: Handle,
    field: FieldNo,
    value: i64,
) -> Result<Answer, Refusal>
    requires { IsWellFormed (machine_of state.old) }
    ensures answered { Answered (machine_of state.old) (Ask.SetInt by object field value) result
        (machine_of state.new) }
    ensures memory { answer_of result ≡ Answer.Refused Refusal.NoMemory → ⊥ }
    ensures rest { LeavesRest state.old state.new }
    ensures marks { MarksNew (machine_of state.old) state.old.heap.marking no_choice (machine_of state.new)
        state.new.heap.marking }
{
    state.check_session(by)?;
    let slot = state.check_object(by, object)?;
    check_record(state, slot)?;
    check_int_field(state, slot, field)?;
    state.check_no_call(by)?;
    state
        .heap
        .store(slot, field.number() as usize, FieldValue::Int(value));
    Ok(Answer::Done)
}

pub(crate) fn new_object<R>(
    state: &mut State<R>,
    by: Mutator,
    layout: Layout,
    choice: &mut Choice,
) -> Result<Answer, Refusal>
    requires fit { IsWellFormed (machine_of state.old) }
    requires nothing { choice.old ≡ nothing_chosen choice.old.cells }
    requires room { length state.old.heap.graph.objects ≤ choice.old.cells }
    ensures meets { Meets (machine_of state.old) (Ask.New by layout) (answer_of result) choice.new.chosen
        (machine_of state.new) }
    ensures memory { answer_of result ≡ Answer.Refused Refusal.NoMemory → ⊥ }
    ensures rest { LeavesRestMaking state.old choice.old choice.new state.new }
    ensures marks { MarksNew (machine_of state.old) state.old.heap.marking choice.new.chosen (machine_of state.new)
        state.new.heap.marking }
{
    state.check_session(by)?;
    state.check_no_call(by)?;
    state.check_free_handle(by)?;
    let slot = state.allocate(&Shape::Plain(layout), choice)?;
    Ok(state.give(by, slot))
}

/// An array of references, each null. Its elements are asked for before anything changes, and go back where no cell is
/// free.
pub(crate) fn new_array<R>(
    state: &mut State<R>,
    by: Mutator,
    size: Length,
    choice: &mut Choice,
) -> Result<Answer, Refusal>
    requires fit { IsWellFormed (machine_of state.old) }
    requires nothing { choice.old ≡ nothing_chosen choice.old.cells }
    requires room { length state.old.heap.graph.objects ≤ choice.old.cells }
    ensures meets { Meets (machine_of state.old) (Ask.Array by size) (answer_of result) choice.new.chosen
        (machine_of state.new) }
    ensures memory { answer_of result ≡ Answer.Refused Refusal.NoMemory
        → MayWantMemory (machine_of state.old) state.old.cleaner.table (Ask.Array by size) }
    ensures rest { LeavesRestMaking state.old choice.old choice.new state.new }
    ensures marks { MarksNew (machine_of state.old) state.old.heap.marking choice.new.chosen (machine_of state.new)
        state.new.heap.marking }
{
    state.check_session(by)?;
    state.check_no_call(by)?;
    state.check_free_handle(by)?;
    let Ok(elements) = Elements::new(state.alloc, size) else {
        return Err(Refusal::NoMemory);
    };
    let slot = state.allocate_array(elements, choice)?;
    Ok(state.give(by, slot))
}
