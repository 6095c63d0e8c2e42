//! Which asks are refused, and with which number.
ghost use Rattle.std.specs.Prelude.{◌≡◌, ◌==◌, ◌&&◌, ◌||◌, not, ◌-◌, ◌^◌, is_none, option_and_then, find, length};
ghost use Rattle.std.specs.Prelude.{nat_lt, nat_le};
ghost use Rattle.std.specs.List.{list_any};
ghost use Rattle.jlr_types.specs.declared.Refusal.TheVariants.{NoHandle, HandlesFull, WrongKind, NoField, WrongType};
ghost use Rattle.jlr_types.specs.declared.Refusal.TheVariants.{NoName, NamesFull, Busy, NoSession};
ghost use Rattle.jlr_types.specs.declared.FieldKind.TheVariants.{Int};
ghost use Rattle.jlr_machine.specs.Objects.{at, some_and, is_spent};
ghost use Rattle.jlr_machine.specs.Lookups.{resource_at, job_of, cleanable_at, guard_named, field_named};
ghost use Rattle.jlr_machine.specs.Lookups.{has_free_handle};
ghost use Rattle.jlr_machine.specs.Refusals.{is_in_flight, is_opening, is_out_call, is_out_state, is_joined, has_call};
ghost use Rattle.jlr_machine.specs.Refusals.{names_no_object, is_wrongly_null, is_of_wrong_kind, is_closed};
ghost use Rattle.jlr_machine.specs.Refusals.{guard_is_closed, is_out, resource_is_out, no_such_call, holds, asker};
ghost use Rattle.jlr_machine.specs.Refusals.{operands, needs_handle, applies, refusal};
ghost use Rattle.jlr_plain_asks.specs.Fits.{test_of, operand_of, operands_in};

use crate::given::given_by;
use crate::lookups::{
    bound_slot, cleanable_in, guarded_cleanable, handle_is_free, named_field, named_guard,
    named_object, named_slot, resource_with, running_job, session_of,
};
use crate::operands::{FieldNamed, Fit, Named, Operands, field_of_ask, name_of, operands_of};
use jlr_machine::ask::{Ask, CLEANER};
use jlr_machine::machine::{Call, Job, Machine, ResourceState};
use jlr_machine::object::{CleanState, Contents, Object};
use jlr_types::{ActionNo, FieldKind, FieldValue, Handle, Mutator, Refusal, Slot};

/// The most names.
const NAMES: usize = 256;

fn fits(fit: Fit, object: &Object) -> bool
    ensures { result ≡ test_of fit object.now }
{
    match fit {
        Fit::Any => true,
        Fit::Plain => matches!(object, Object::Plain(_)),
        Fit::Record => matches!(object, Object::Plain(Contents::Typed(_))),
        Fit::Reference => matches!(object, Object::Reference(_)),
        Fit::Queue => matches!(object, Object::Queue(_)),
        Fit::Cleaner => matches!(object, Object::Cleaner),
        Fit::Cleanable => matches!(object, Object::Cleanable(_)),
        Fit::Guard => matches!(object, Object::Guard(_)),
    }
}

// ---- Sessions and calls

fn joined(machine: &Machine, mutator: Mutator) -> bool
    ensures { result ≡ is_joined machine.now mutator }
{
    session_of(machine, mutator).is_some()
}

fn in_flight(call: Call) -> bool
    ensures { result ≡ is_in_flight call }
{
    match call {
        Call::Free => false,
        Call::Opening(_) => true,
        Call::Out(_) => true,
        Call::Job(_) => true,
    }
}

fn calling(machine: &Machine, mutator: Mutator) -> bool
    ensures { result ≡ has_call machine.now mutator }
{
    match session_of(machine, mutator) {
        Some(session) => in_flight(session.call),
        None => false,
    }
}

fn cannot_join(machine: &Machine, mutator: Mutator) -> bool
    ensures { result ≡ (is_joined machine.now mutator || not (nat_lt mutator (length machine.now.mutators))) }
{
    joined(machine, mutator) || mutator.number() as usize >= machine.mutators.len()
}

fn not_joined(machine: &Machine, mutator: Option<Mutator>) -> bool
    ensures { result ≡ some_and (λ k. not (is_joined machine.now k)) mutator }
{
    match mutator {
        Some(mutator) => !joined(machine, mutator),
        None => false,
    }
}

fn lacks_session(machine: &Machine, ask: &Ask) -> bool
    ensures { result ≡ applies machine.now ask.now NoSession }
{
    match ask {
        Ask::Join { mutator } => cannot_join(machine, *mutator),
        _ => not_joined(machine, ask.asker()),
    }
}

// ---- Handles

fn missing(machine: &Machine, mutator: Mutator, named: Named) -> bool
    ensures { result ≡ names_no_object machine.now mutator (operand_of named) }
{
    named.handle.number() != 0 && named_slot(machine, mutator, named.handle).is_none()
}

fn any_missing(machine: &Machine, mutator: Mutator, operands: Operands) -> bool
    ensures { result ≡ list_any (names_no_object machine.now mutator) (operands_in operands) }
{
    match operands {
        Operands::Nothing => false,
        Operands::One(x) => missing(machine, mutator, x),
        Operands::Two(x, y) => missing(machine, mutator, x) || missing(machine, mutator, y),
    }
}

fn lacks_object(machine: &Machine, ask: &Ask) -> bool
    ensures { result ≡ applies machine.now ask.now NoHandle }
{
    match ask.asker() {
        Some(mutator) => any_missing(machine, mutator, operands_of(ask)),
        None => false,
    }
}

fn wrongly_null(named: Named) -> bool
    ensures { result ≡ is_wrongly_null (operand_of named) }
{
    named.handle.number() == 0 && !named.may_be_null
}

fn any_null(operands: Operands) -> bool
    ensures { result ≡ list_any is_wrongly_null (operands_in operands) }
{
    match operands {
        Operands::Nothing => false,
        Operands::One(x) => wrongly_null(x),
        Operands::Two(x, y) => wrongly_null(x) || wrongly_null(y),
    }
}

fn is_null(ask: &Ask) -> bool
    ensures { result ≡ list_any is_wrongly_null (operands ask.now) }
{
    any_null(operands_of(ask))
}

fn wrong(machine: &Machine, mutator: Mutator, named: Named) -> bool
    ensures { result ≡ is_of_wrong_kind machine.now mutator (operand_of named) }
{
    match named_object(machine, mutator, named.handle) {
        Some(object) => !fits(named.fit, object),
        None => false,
    }
}

fn any_wrong(machine: &Machine, mutator: Mutator, operands: Operands) -> bool
    ensures { result ≡ list_any (is_of_wrong_kind machine.now mutator) (operands_in operands) }
{
    match operands {
        Operands::Nothing => false,
        Operands::One(x) => wrong(machine, mutator, x),
        Operands::Two(x, y) => wrong(machine, mutator, x) || wrong(machine, mutator, y),
    }
}

fn is_wrong_kind(machine: &Machine, ask: &Ask) -> bool
    ensures { result ≡ applies machine.now ask.now WrongKind }
{
    match ask.asker() {
        Some(mutator) => any_wrong(machine, mutator, operands_of(ask)),
        None => false,
    }
}

// ---- Fields

fn field_missing(machine: &Machine, mutator: Mutator, named: Option<FieldNamed>) -> bool
    ensures { result ≡ some_and (λ x. is_none (field_named machine.now mutator x.object x.field)) named }
{
    match named {
        Some(x) => named_field(machine, mutator, x.object, x.field).is_none(),
        None => false,
    }
}

fn lacks_field(machine: &Machine, ask: &Ask) -> bool
    ensures { result ≡ applies machine.now ask.now NoField }
{
    match ask.asker() {
        Some(mutator) => field_missing(machine, mutator, field_of_ask(ask)),
        None => false,
    }
}

fn int_held(value: FieldValue) -> bool
    ensures { result ≡ holds Int value }
{
    match value {
        FieldValue::Int(_) => true,
        FieldValue::Ref(_) => false,
    }
}

fn held_as(kind: FieldKind, value: FieldValue) -> bool
    ensures { result ≡ holds kind value }
{
    match kind {
        FieldKind::Int => int_held(value),
        FieldKind::Ref => !int_held(value),
    }
}

fn wrong_at(machine: &Machine, mutator: Mutator, x: FieldNamed) -> bool
    ensures { result ≡ some_and (λ v. not (holds x.kind v)) (field_named machine.now mutator x.object x.field) }
{
    match named_field(machine, mutator, x.object, x.field) {
        Some(value) => !held_as(x.kind, value),
        None => false,
    }
}

fn field_wrong(machine: &Machine, mutator: Mutator, named: Option<FieldNamed>) -> bool
    ensures { result ≡ some_and (λ x. some_and (λ v. not (holds x.kind v))
        (field_named machine.now mutator x.object x.field)) named }
{
    match named {
        Some(x) => wrong_at(machine, mutator, x),
        None => false,
    }
}

fn is_wrong_type(machine: &Machine, ask: &Ask) -> bool
    ensures { result ≡ applies machine.now ask.now WrongType }
{
    match ask.asker() {
        Some(mutator) => field_wrong(machine, mutator, field_of_ask(ask)),
        None => false,
    }
}

// ---- Names

fn lacks_name(machine: &Machine, ask: &Ask) -> bool
    ensures { result ≡ applies machine.now ask.now NoName }
{
    match name_of(ask) {
        Some(name) => bound_slot(machine.names.as_slice(), name.as_slice()).is_none(),
        None => false,
    }
}

fn names_are_full(machine: &Machine, ask: &Ask) -> bool
    ensures { result ≡ applies machine.now ask.now NamesFull }
{
    lacks_name(machine, ask) && machine.names.len() >= NAMES
}

// ---- Resources

pub(crate) fn is_spent_state(state: CleanState) -> bool
    ensures { result ≡ is_spent state }
{
    match state {
        CleanState::Spent => true,
        CleanState::Armed => false,
        CleanState::Pending => false,
        CleanState::Lined => false,
    }
}

fn spent_at(machine: &Machine, slot: Slot) -> bool
    ensures { result ≡ some_and (λ c. is_spent c.state) (cleanable_at machine.now slot) }
{
    match cleanable_in(machine, slot) {
        Some(cleanable) => is_spent_state(cleanable.state),
        None => false,
    }
}

fn closed(machine: &Machine, mutator: Mutator, guard: Handle) -> bool
    ensures { result ≡ is_closed machine.now mutator guard }
{
    match guarded_cleanable(machine, mutator, guard) {
        Some(slot) => spent_at(machine, slot),
        None => false,
    }
}

fn guard_closed(machine: &Machine, ask: &Ask) -> bool
    ensures { result ≡ guard_is_closed machine.now ask.now }
{
    match ask {
        Ask::CheckOut { mutator, guard } => closed(machine, *mutator, *guard),
        _ => false,
    }
}

fn is_out_now(state: ResourceState) -> bool
    ensures { result ≡ is_out_state state }
{
    match state {
        ResourceState::Out => true,
        ResourceState::Opening => false,
        ResourceState::Idle => false,
        ResourceState::Closing => false,
    }
}

fn guarded_out(machine: &Machine, mutator: Mutator, guard: Handle) -> bool
    ensures { result ≡ some_and (λ r. is_out_state r.state)
        (option_and_then (λ g. resource_at machine.now g.rid) (guard_named machine.now mutator guard)) }
{
    let Some(guard) = named_guard(machine, mutator, guard) else {
        return false;
    };
    match resource_with(machine, guard.rid) {
        Some(resource) => is_out_now(resource.state),
        None => false,
    }
}

fn out(machine: &Machine, mutator: Mutator, guard: Handle) -> bool
    ensures { result ≡ is_out machine.now mutator guard }
{
    !closed(machine, mutator, guard) && guarded_out(machine, mutator, guard)
}

fn resource_out(machine: &Machine, ask: &Ask) -> bool
    ensures { result ≡ resource_is_out machine.now ask.now }
{
    match ask {
        Ask::CheckOut { mutator, guard } => out(machine, *mutator, *guard),
        Ask::Close { mutator, guard } => out(machine, *mutator, *guard),
        _ => false,
    }
}

// ---- Busy

fn cleaner_runs(jobs: &[Job]) -> bool
    ensures { result ≡ list_any (λ job. job.by == 255) jobs.now }
{
    jobs.iter().any(|job| job.by == CLEANER)
}

fn asker_calls(machine: &Machine, ask: &Ask) -> bool
    ensures { result ≡ some_and (has_call machine.now) (asker ask.now) }
{
    match ask.asker() {
        Some(mutator) => calling(machine, mutator),
        None => false,
    }
}

fn is_busy(machine: &Machine, ask: &Ask) -> bool
    ensures { result ≡ applies machine.now ask.now Busy }
{
    match ask {
        Ask::TakeUp => cleaner_runs(machine.jobs.as_slice()),
        _ => resource_out(machine, ask) || asker_calls(machine, ask),
    }
}

// ---- Ends of calls

fn opening(call: Call) -> bool
    ensures { result ≡ is_opening call }
{
    match call {
        Call::Opening(_) => true,
        _ => false,
    }
}

fn out_call(call: Call) -> bool
    ensures { result ≡ is_out_call call }
{
    match call {
        Call::Out(_) => true,
        _ => false,
    }
}

fn has_opening(machine: &Machine, mutator: Mutator) -> bool
    ensures { result ≡ some_and (λ s. is_opening s.call) (at machine.now.mutators mutator) }
{
    match session_of(machine, mutator) {
        Some(session) => opening(session.call),
        None => false,
    }
}

fn has_out_call(machine: &Machine, mutator: Mutator) -> bool
    ensures { result ≡ some_and (λ s. is_out_call s.call) (at machine.now.mutators mutator) }
{
    match session_of(machine, mutator) {
        Some(session) => out_call(session.call),
        None => false,
    }
}

fn runs_job(machine: &Machine, by: u8, action: ActionNo) -> bool
    ensures { result ≡ some_and (λ job. job.by == by) (job_of machine.now action) }
{
    match running_job(machine, action) {
        Some(job) => job.by == by,
        None => false,
    }
}

fn lacks_call(machine: &Machine, ask: &Ask) -> bool
    ensures { result ≡ no_such_call machine.now ask.now }
{
    match ask {
        Ask::Opened { mutator, .. } => !has_opening(machine, *mutator),
        Ask::CheckIn { mutator, .. } => !has_out_call(machine, *mutator),
        Ask::Finish { by, action, .. } => !runs_job(machine, *by, *action),
        _ => false,
    }
}

// ---- Room

fn wants_handle(machine: &Machine, ask: &Ask) -> bool
    ensures { result ≡ needs_handle machine.now ask.now }
{
    ask.cells() > 0 || given_by(machine, ask).is_some()
}

fn no_handle_free(machine: &Machine, ask: &Ask) -> bool
    ensures { result ≡ some_and (λ k. not (has_free_handle machine.now k)) (asker ask.now) }
{
    match ask.asker() {
        Some(mutator) => !handle_is_free(machine, mutator),
        None => false,
    }
}

fn handles_are_full(machine: &Machine, ask: &Ask) -> bool
    ensures { result ≡ applies machine.now ask.now HandlesFull }
{
    wants_handle(machine, ask) && no_handle_free(machine, ask)
}

fn resources_are_full(machine: &Machine) -> bool
    ensures { result ≡ nat_le machine.now.resource_limit (length machine.now.resources) }
{
    machine.resources.len() >= machine.resource_limit as usize
}

fn is_exhausted(machine: &Machine) -> bool
    ensures { result ≡ nat_le (2 ^ 64 - 1) machine.now.next_action }
{
    machine.next_action == u64::MAX
}

// ---- All together

/// Whether the condition of a refusal holds.
fn condition_holds(machine: &Machine, ask: &Ask, by: Refusal) -> bool
    ensures { result ≡ applies machine.now ask.now by }
{
    match by {
        Refusal::NoSession => lacks_session(machine, ask),
        Refusal::NoHandle => lacks_object(machine, ask),
        Refusal::Null => is_null(ask),
        Refusal::WrongKind => is_wrong_kind(machine, ask),
        Refusal::NoField => lacks_field(machine, ask),
        Refusal::WrongType => is_wrong_type(machine, ask),
        Refusal::NoName => lacks_name(machine, ask),
        Refusal::Closed => guard_closed(machine, ask),
        Refusal::Busy => is_busy(machine, ask),
        Refusal::NotOut => lacks_call(machine, ask),
        Refusal::WouldWait => given_by(machine, ask).is_none(),
        Refusal::HandlesFull => handles_are_full(machine, ask),
        Refusal::NamesFull => names_are_full(machine, ask),
        Refusal::ResourcesFull => resources_are_full(machine),
        Refusal::Exhausted => is_exhausted(machine),
        Refusal::HeapFull => false,
        Refusal::NoMemory => false,
        Refusal::Malformed => false,
        Refusal::TooLong => false,
    }
}

/// The first of these whose condition holds.
fn first_holding(machine: &Machine, ask: &Ask, refusals: &[Refusal]) -> Option<Refusal>
    ensures { result ≡ find (applies machine.now ask.now) refusals.now }
{
    for by in refusals {
        if condition_holds(machine, ask, *by) {
            return Some(*by);
        }
    }
    None
}

/// The refusal that an ask meets, if any.
pub fn refusal_plain(machine: &Machine, ask: &Ask) -> Option<Refusal>
    ensures { result ≡ refusal machine.now ask.now }
{
    first_holding(machine, ask, ask.kind().refusals())
}
