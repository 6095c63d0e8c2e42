//! Whether an answer is the one that an ask which is not refused gets, and the answers that a history does not keep.
ghost use Rattle.std.specs.Prelude.{◌≡◌, IfOk, option_and_then, option_map, nat_eq, drop};
ghost use Rattle.std.specs.Option.{option_eq};
ghost use Rattle.jlr_machine.specs.Objects.{as_cleanable, first_free, some_and};
ghost use Rattle.jlr_machine.specs.Lookups.{bound_names, cleanable_at, cleanable_of_guard, free_handle, field_named};
ghost use Rattle.jlr_machine.specs.Lookups.{guard_named, object_named, slot_named};
ghost use Rattle.jlr_machine.specs.declared.ask.Ask.TheVariants.{Refers, Enqueue, Enqueued, Clean, Close, CheckOut};
ghost use Rattle.jlr_machine.specs.Calls.{call_answer, hand_over_answer, handle_given, line_answer, new_handle};
ghost use Rattle.jlr_machine.specs.Calls.{number_in, outcome_answer, reply, stat_of, take_up_answer};
ghost use Rattle.jlr_machine.specs.declared.ask.Answer.TheVariants.{Done, Out, Truth, Stat as StatAnswer};
ghost use Rattle.jlr_machine.specs.Objects.{is_queued};
ghost use Rattle.jlr_laws.specs.Same.{same_answer};
ghost use Rattle.jlr_plain_asks.specs.Replaying.{counts_with, long_reply, where_long};

use crate::answers::answers::{
    is_already_done, is_done, is_faulted, is_faults, is_given_out, is_handed, is_handle, is_int,
    is_job, is_names, is_notes, is_outcome, is_stat, is_truth,
};
use crate::answers::handing::{line_from, step_for};
use crate::given::given_by;
use crate::lookups::{
    cleanable_in, cleanable_of, guarded_cleanable, named_field, named_guard, named_object,
    named_reference, named_slot, object_at, occupied_cells, queue_of, session_of,
};
use crate::refusals::is_spent_state;
use jlr_machine::ask::{Answer, Ask, CallOutcome, Handed, Outcome, Stat};
use jlr_machine::copy::copy_items;
use jlr_machine::items::Items;
use jlr_machine::machine::{Binding, Machine, Session};
use jlr_machine::object::{Cleanable, Guard, RefState};
use jlr_machine::text::Name;
use jlr_types::{FieldNo, FieldValue, Handle, Mutator, Slot};
use std::alloc::{AllocError, Global};

/// The lowest free number from 1 on.
pub(crate) fn first_free_handle(handles: &[Option<Slot>]) -> usize
    ensures { result ≡ first_free 1 (drop 1 handles.now) }
{
    if handles.is_empty() {
        return 1;
    }
    for number in 1..handles.len() {
        if handles[number].is_none() {
            return number;
        }
    }
    handles.len()
}

/// The lowest free handle of a session.
pub(crate) fn free_handle_of(session: &Session) -> usize
    ensures { result ≡ free_handle session.now }
{
    first_free_handle(session.handles.as_slice())
}

fn gives_new_handle(machine: &Machine, mutator: Mutator, answer: &Answer) -> bool
    ensures { result ≡ some_and (same_answer answer.now) (new_handle machine.now mutator) }
{
    match session_of(machine, mutator) {
        Some(session) => is_handle(answer, free_handle_of(session)),
        None => false,
    }
}

fn gives_handle(machine: &Machine, mutator: Mutator, slot: Option<Slot>, answer: &Answer) -> bool
    ensures { result ≡ some_and (same_answer answer.now) (handle_given machine.now mutator slot) }
{
    match slot {
        Some(_) => gives_new_handle(machine, mutator, answer),
        None => is_handle(answer, 0),
    }
}

fn gives_number(value: FieldValue, answer: &Answer) -> bool
    ensures { result ≡ some_and (same_answer answer.now) (number_in value) }
{
    match value {
        FieldValue::Int(number) => is_int(answer, number),
        FieldValue::Ref(_) => false,
    }
}

fn gives_field(
    machine: &Machine,
    mutator: Mutator,
    object: Handle,
    field: FieldNo,
    answer: &Answer,
) -> bool
    ensures { result ≡ some_and (same_answer answer.now)
        (option_and_then number_in (field_named machine.now mutator object field)) }
{
    match named_field(machine, mutator, object, field) {
        Some(value) => gives_number(value, answer),
        None => false,
    }
}

fn slots_agree(left: Option<Slot>, right: Option<Slot>) -> bool
    ensures { result ≡ option_eq nat_eq left right }
{
    let Some(x) = left else {
        return right.is_none();
    };
    match right {
        Some(y) => x.number() == y.number(),
        None => false,
    }
}

fn says_same(
    machine: &Machine,
    mutator: Mutator,
    left: Handle,
    right: Handle,
    answer: &Answer,
) -> bool
    ensures { result ≡ same_answer answer.now
        (Truth (option_eq nat_eq (slot_named machine.now mutator left) (slot_named machine.now mutator right))) }
{
    let x = named_slot(machine, mutator, left);
    let y = named_slot(machine, mutator, right);
    is_truth(answer, slots_agree(x, y))
}

fn says_refers(
    machine: &Machine,
    mutator: Mutator,
    reference: Handle,
    object: Handle,
    answer: &Answer,
) -> bool
    ensures { result ≡ some_and (same_answer answer.now) (reply machine.now (Refers mutator reference object)) }
{
    let Some(reference) = named_reference(machine, mutator, reference) else {
        return false;
    };
    let slot = named_slot(machine, mutator, object);
    is_truth(answer, slots_agree(reference.referent, slot))
}

fn says_enqueue(machine: &Machine, mutator: Mutator, reference: Handle, answer: &Answer) -> bool
    ensures { result ≡ some_and (same_answer answer.now) (reply machine.now (Enqueue mutator reference)) }
{
    let Some(reference) = named_reference(machine, mutator, reference) else {
        return false;
    };
    is_truth(answer, queue_of(&reference).is_some())
}

fn is_queued_state(state: RefState) -> bool
    ensures { result ≡ is_queued state }
{
    match state {
        RefState::Queued => true,
        RefState::Fresh => false,
        RefState::Pending => false,
        RefState::Removed => false,
    }
}

fn says_enqueued(machine: &Machine, mutator: Mutator, reference: Handle, answer: &Answer) -> bool
    ensures { result ≡ some_and (same_answer answer.now) (reply machine.now (Enqueued mutator reference)) }
{
    let Some(reference) = named_reference(machine, mutator, reference) else {
        return false;
    };
    is_truth(answer, is_queued_state(reference.state))
}

/// Whether it is the answer to a take-up.
fn gives_job(cleanable: Cleanable, answer: &Answer) -> bool
    ensures { result ≡ same_answer answer.now (take_up_answer cleanable) }
{
    if is_spent_state(cleanable.state) {
        return is_already_done(answer);
    }
    is_job(answer, cleanable.action, cleanable.work)
}

fn gives_clean(machine: &Machine, mutator: Mutator, cleanable: Handle, answer: &Answer) -> bool
    ensures { result ≡ some_and (same_answer answer.now) (reply machine.now (Clean mutator cleanable)) }
{
    let Some(object) = named_object(machine, mutator, cleanable) else {
        return false;
    };
    match cleanable_of(object) {
        Some(cleanable) => gives_job(cleanable, answer),
        None => false,
    }
}

fn gives_close(machine: &Machine, mutator: Mutator, guard: Handle, answer: &Answer) -> bool
    ensures { result ≡ some_and (same_answer answer.now) (reply machine.now (Close mutator guard)) }
{
    let Some(slot) = guarded_cleanable(machine, mutator, guard) else {
        return false;
    };
    match cleanable_in(machine, slot) {
        Some(cleanable) => gives_job(cleanable, answer),
        None => false,
    }
}

fn gives_out(machine: &Machine, mutator: Mutator, guard: Handle, answer: &Answer) -> bool
    ensures { result ≡ some_and (same_answer answer.now) (reply machine.now (CheckOut mutator guard)) }
{
    match named_guard(machine, mutator, guard) {
        Some(guard) => is_given_out(answer, guard.rid),
        None => false,
    }
}

fn gives_opened(machine: &Machine, mutator: Mutator, outcome: Outcome, answer: &Answer) -> bool
    ensures { result ≡ some_and (same_answer answer.now) (outcome_answer outcome (new_handle machine.now mutator)) }
{
    match outcome {
        Outcome::Ok => gives_new_handle(machine, mutator, answer),
        Outcome::Failed(fault) => is_faulted(answer, fault),
    }
}

fn gives_finished(outcome: Outcome, answer: &Answer) -> bool
    ensures { result ≡ some_and (same_answer answer.now) (outcome_answer outcome (Some Done)) }
{
    match outcome {
        Outcome::Ok => is_done(answer),
        Outcome::Failed(fault) => is_faulted(answer, fault),
    }
}

fn gives_handed(machine: &Machine, pending: &[Slot], answer: &Answer) -> bool
    ensures { result ≡ some_and (same_answer answer.now) (hand_over_answer machine.now pending.now) }
{
    let Some(slot) = pending.first() else {
        return is_handed(answer, Handed::Nothing);
    };
    match object_at(machine, *slot) {
        Some(object) => is_handed(answer, step_for(object)),
        None => false,
    }
}

fn gives_taken(machine: &Machine, line: &[Slot], answer: &Answer) -> bool
    ensures { result ≡ some_and (same_answer answer.now) (line_answer machine.now line.now) }
{
    let Some(slot) = line.first() else {
        return is_handed(answer, Handed::Nothing);
    };
    match cleanable_in(machine, *slot) {
        Some(cleanable) => gives_job(cleanable, answer),
        None => false,
    }
}

pub(crate) fn counts_of(machine: &Machine) -> Stat
    ensures { StatAnswer result ≡ stat_of machine.now }
{
    counts_beside(machine, occupied_cells(machine.objects.as_slice()) as u64)
}

/// The counts of a machine, with this number of objects.
pub(crate) fn counts_beside(machine: &Machine, objects: u64) -> Stat
    ensures { StatAnswer result ≡ counts_with objects (stat_of machine.now) }
{
    Stat {
        objects,
        resources: machine.resources.len() as u64,
        taken: machine.taken,
        ok: machine.ok,
        failed: machine.failed,
    }
}

/// Whether it is the answer that the ask gets.
pub fn is_reply(machine: &Machine, ask: &Ask, answer: &Answer) -> bool
    ensures { result ≡ some_and (same_answer answer.now) (reply machine.now ask.now) }
{
    match ask {
        Ask::Join { .. }
        | Ask::Leave { .. }
        | Ask::Put { .. }
        | Ask::SetInt { .. }
        | Ask::Drop { .. }
        | Ask::Clear { .. }
        | Ask::Bind { .. }
        | Ask::Unbind { .. }
        | Ask::Full { .. } => is_done(answer),
        Ask::New { mutator, .. }
        | Ask::Array { mutator, .. }
        | Ask::MakeRef { mutator, .. }
        | Ask::MakeQueue { mutator }
        | Ask::MakeCleaner { mutator }
        | Ask::Register { mutator, .. }
        | Ask::Find { mutator, .. } => gives_new_handle(machine, *mutator, answer),
        Ask::Get { mutator, .. }
        | Ask::Dup { mutator, .. }
        | Ask::Deref { mutator, .. }
        | Ask::Poll { mutator, .. }
        | Ask::Remove { mutator, .. } => gives_handle(
            machine,
            *mutator,
            given_by(machine, ask),
            answer,
        ),
        Ask::Int {
            mutator,
            object,
            field,
        } => gives_field(machine, *mutator, *object, *field, answer),
        Ask::Same {
            mutator,
            left,
            right,
        } => says_same(machine, *mutator, *left, *right, answer),
        Ask::Refers {
            mutator,
            reference,
            object,
        } => says_refers(machine, *mutator, *reference, *object, answer),
        Ask::Enqueue { mutator, reference } => says_enqueue(machine, *mutator, *reference, answer),
        Ask::Enqueued { mutator, reference } => says_enqueued(
            machine, *mutator, *reference, answer,
        ),
        Ask::Clean { mutator, cleanable } => gives_clean(machine, *mutator, *cleanable, answer),
        Ask::Prepare { .. } => false,
        Ask::Opened { mutator, outcome } => gives_opened(machine, *mutator, *outcome, answer),
        Ask::CheckOut { mutator, guard } => gives_out(machine, *mutator, *guard, answer),
        Ask::CheckIn { outcome, .. } => is_outcome(answer, outcome),
        Ask::Close { mutator, guard } => gives_close(machine, *mutator, *guard, answer),
        Ask::Finish { outcome, .. } => gives_finished(*outcome, answer),
        Ask::Names { .. } => is_names(answer, machine.names.as_slice()),
        Ask::Stat { .. } => is_stat(answer, counts_of(machine)),
        Ask::Notes { .. } => is_notes(answer, machine.notes.as_slice()),
        Ask::Faults { .. } => is_faults(answer, machine.faults.as_slice()),
        Ask::HandOver => gives_handed(machine, machine.pending.as_slice(), answer),
        Ask::TakeUp => gives_taken(machine, line_from(machine, machine.line.as_slice()), answer),
        Ask::Begin => is_truth(answer, !machine.cycle_open),
        Ask::Collect => false,
        Ask::Abandon => is_truth(answer, machine.cycle_open),
    }
}

// ---- The answers that a history does not keep, given once more by the machine

fn number_told(value: Option<FieldValue>) -> Answer
    ensures { result ≡ where_long (option_and_then number_in value) }
{
    match value {
        Some(FieldValue::Int(number)) => Answer::Int(number),
        Some(FieldValue::Ref(_)) | None => Answer::Done,
    }
}

fn job_told(cleanable: Option<Cleanable>) -> Answer
    ensures { result ≡ where_long (option_map take_up_answer cleanable) }
{
    let Some(cleanable) = cleanable else {
        return Answer::Done;
    };
    if is_spent_state(cleanable.state) {
        return Answer::Done;
    }
    Answer::Job {
        action: cleanable.action,
        work: cleanable.work,
    }
}

fn resource_told(guard: Option<Guard>) -> Answer
    ensures { result ≡ where_long (option_map (λ g. Out g.rid) guard) }
{
    match guard {
        Some(guard) => Answer::Out(guard.rid),
        None => Answer::Done,
    }
}

/// The cleanable that a handle stands for.
fn named_cleanable(machine: &Machine, mutator: Mutator, handle: Handle) -> Option<Cleanable>
    ensures { result ≡ option_and_then as_cleanable (object_named machine.now mutator handle) }
{
    match named_object(machine, mutator, handle) {
        Some(object) => cleanable_of(object),
        None => None,
    }
}

/// The cleanable of the guard that a handle stands for.
fn cleanable_guarding(machine: &Machine, mutator: Mutator, handle: Handle) -> Option<Cleanable>
    ensures { result ≡ option_and_then (cleanable_at machine.now) (cleanable_of_guard machine.now mutator handle) }
{
    match guarded_cleanable(machine, mutator, handle) {
        Some(slot) => cleanable_in(machine, slot),
        None => None,
    }
}

fn taken_told(machine: &Machine, line: &[Slot]) -> Answer
    ensures { result ≡ where_long (line_answer machine.now line.now) }
{
    match line.first() {
        Some(slot) => job_told(cleanable_in(machine, *slot)),
        None => Answer::Done,
    }
}

fn outcome_told(alloc: Global, outcome: &CallOutcome) -> Result<Answer, AllocError>
    ensures { IfOk result (λ answer. answer ≡ where_long (Some (call_answer outcome.now))) }
{
    Ok(match outcome {
        CallOutcome::Data(bytes) => Answer::Data(bytes.copy(alloc)?),
        CallOutcome::Wrote(_) | CallOutcome::Failed(_) => Answer::Done,
    })
}

fn names_bound(alloc: Global, names: &[Binding]) -> Result<Vec<Name>, AllocError>
    ensures { IfOk result (λ v. v.items ≡ bound_names names.now) }
{
    let mut out = Vec::new(alloc);
    for binding in names {
        out.push(binding.name.copy())?;
    }
    Ok(out)
}

/// What an ask that is carried out is told where its answer takes much room: a number, a list, counts, a job, a
/// resource, or what was read. `Done` for any other ask.
///
/// # Errors
/// `AllocError` where there is no memory for the answer.
#[tactic(auto, using(crate::proofs::Short::new_is_short, crate::proofs::Short::given_is_short, crate::proofs::Short::truth_is_short, crate::proofs::Short::opened_is_short, crate::proofs::Short::finished_is_short, crate::proofs::Short::hand_over_is_short))]
pub fn replay_reply(alloc: Global, machine: &Machine, ask: &Ask) -> Result<Answer, AllocError>
    ensures { IfOk result (λ answer. answer ≡ long_reply machine.now ask.now) }
{
    Ok(match ask {
        Ask::Int {
            mutator,
            object,
            field,
        } => number_told(named_field(machine, *mutator, *object, *field)),
        Ask::Clean { mutator, cleanable } => job_told(named_cleanable(
            machine, *mutator, *cleanable,
        )),
        Ask::CheckOut { mutator, guard } => resource_told(named_guard(machine, *mutator, *guard)),
        Ask::CheckIn { outcome, .. } => outcome_told(alloc, outcome)?,
        Ask::Close { mutator, guard } => job_told(cleanable_guarding(machine, *mutator, *guard)),
        Ask::Names { .. } => Answer::Names(Items::from_vec(names_bound(
            alloc,
            machine.names.as_slice(),
        )?)),
        Ask::Stat { .. } => Answer::Stat(counts_of(machine)),
        Ask::Notes { .. } => Answer::Notes(copy_items(alloc, &machine.notes)?),
        Ask::Faults { .. } => Answer::Faults(copy_items(alloc, &machine.faults)?),
        Ask::TakeUp => taken_told(machine, line_from(machine, machine.line.as_slice())),
        _ => Answer::Done,
    })
}

/// The same for counts, where the number of objects is known: the cells are not counted.
///
/// # Errors
/// `AllocError` where there is no memory for the answer.
pub fn replay_counts(
    alloc: Global,
    machine: &Machine,
    ask: &Ask,
    objects: u64,
) -> Result<Answer, AllocError>
    ensures { IfOk result (λ answer. answer ≡ counts_with objects (long_reply machine.now ask.now)) }
{
    if let Ask::Stat { .. } = ask {
        return Ok(Answer::Stat(counts_beside(machine, objects)));
    }
    Ok(match replay_reply(alloc, machine, ask)? {
        Answer::Stat(counts) => Answer::Stat(Stat { objects, ..counts }),
        answer => answer,
    })
}
