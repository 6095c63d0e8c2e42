//! An ask in a trace file: how it is written, and read.
ghost use Rattle.std.specs.Prelude.{◌≡◌, ◌++◌, [], ◌∷◌, OnOk};
ghost use Rattle.std.specs.Int.{w32, w64};
ghost use Rattle.jlr_machine.specs.declared.ask.Ask.TheVariants.{Join, Leave, New, Put, Get, SetInt, Int, Dup, Drop};
ghost use Rattle.jlr_machine.specs.declared.ask.Ask.TheVariants.{Same, MakeRef, Deref, Refers, Clear, Enqueue};
ghost use Rattle.jlr_machine.specs.declared.ask.Ask.TheVariants.{Enqueued, MakeQueue, Poll, Remove, MakeCleaner};
ghost use Rattle.jlr_machine.specs.declared.ask.Ask.TheVariants.{Register, Clean, Prepare, Opened, CheckOut, CheckIn};
ghost use Rattle.jlr_machine.specs.declared.ask.Ask.TheVariants.{Close, Finish, Bind, Find, Unbind, Names, Full};
ghost use Rattle.jlr_machine.specs.declared.ask.Ask.TheVariants.{Stat, Notes, Faults};
ghost use Rattle.jlr_machine.specs.Names.{is_name_byte};
ghost use Rattle.jlr_trace_fields.specs.Reading.{Reads, one_field, two_fields, three_fields, four_fields, byte_at};
ghost use Rattle.jlr_trace_fields.specs.Reading.{number_at, signed_at, picked_at, text_at};
ghost use Rattle.jlr_trace_fields.specs.Tables.{ref_kinds};
ghost use Rattle.jlr_trace_fields.specs.Spelling.{spelled_8, spelled_64, spelled_signed};
ghost use Rattle.jlr_trace_entries.specs.Asks.{outcomes_by_number, modes, layout_read, call_outcome_read, field_read};
ghost use Rattle.jlr_trace_entries.specs.Asks.{array_read, ask_read, outcome_number, spelled_field, FieldFits};
ghost use Rattle.jlr_trace_entries.specs.Asks.{spelled_ask, AskFits};

use crate::asks::field::{field_at, length_at, put_field, put_length};
use crate::asks::layout::{layout_at, put_layout};
use crate::asks::outcome::{
    call_outcome_at, mode_at, outcome_at, put_call_outcome, put_mode, put_outcome,
};
use jlr_machine::ask::{Ask, AskKind, Outcome, ask_kinds};
use jlr_trace_fields::cursor::{
    take_action, take_handle, take_i64, take_mutator, take_name, take_picked, take_u8, take_u32,
};
use jlr_trace_fields::fault::{Fault, ReadError};
use jlr_trace_fields::number::{put_i64, put_u8, put_u32, put_u64};
use jlr_trace_fields::parts::tables::{put_ref_kind, take_ref_kind};
use jlr_trace_fields::text::put_text;
use jlr_trace_fields::version::Version;
use jlr_types::{ActionNo, FieldNo, Handle, Mutator};
use std::alloc::{AllocError, Global};

// ---- Writing

/// The number of an ask, and its mutator.
fn put_alone(out: &mut Vec<u8>, tag: u8, mutator: Mutator) -> Result<(), AllocError>
    ensures { OnOk result (out.new.items ≡ out.old.items ++ tag ∷ mutator ∷ []) }
{
    out.extend_from_slice(&[tag, mutator.number()])?;
    Ok(())
}

/// The number of an ask, its mutator, and a handle.
fn put_one(out: &mut Vec<u8>, tag: u8, mutator: Mutator, handle: Handle) -> Result<(), AllocError>
    ensures { OnOk result (out.new.items ≡ out.old.items ++ tag ∷ mutator ∷ handle ∷ []) }
{
    out.extend_from_slice(&[tag, mutator.number(), handle.number()])?;
    Ok(())
}

/// The number of an ask, its mutator, a handle, and another's number.
fn put_two(
    out: &mut Vec<u8>,
    tag: u8,
    mutator: Mutator,
    handle: Handle,
    second: u8,
) -> Result<(), AllocError>
    ensures { OnOk result (out.new.items ≡ out.old.items ++ tag ∷ mutator ∷ handle ∷ second ∷ []) }
{
    out.extend_from_slice(&[tag, mutator.number(), handle.number(), second])?;
    Ok(())
}

/// The number of an ask, its mutator, a handle, and the number of a field.
fn put_field_of(
    out: &mut Vec<u8>,
    version: Version,
    tag: u8,
    mutator: Mutator,
    object: Handle,
    field: FieldNo,
) -> Result<(), AllocError>
    requires { FieldFits version field }
    ensures { OnOk result (out.new.items ≡ out.old.items ++ tag ∷ mutator ∷ object ∷ spelled_field version field) }
{
    put_one(out, tag, mutator, object)?;
    put_field(out, version, field)
}

fn put_set_int(
    out: &mut Vec<u8>,
    version: Version,
    mutator: Mutator,
    object: Handle,
    field: FieldNo,
    value: i64,
) -> Result<(), AllocError>
    requires { FieldFits version field }
    ensures { OnOk result (out.new.items ≡ out.old.items
        ++ (5 ∷ mutator ∷ object ∷ spelled_field version field ++ spelled_signed value)) }
{
    put_field_of(out, version, 5, mutator, object, field)?;
    put_i64(out, value)
}

fn put_finish(
    out: &mut Vec<u8>,
    by: u8,
    action: ActionNo,
    outcome: Outcome,
) -> Result<(), AllocError>
    ensures { OnOk result (out.new.items ≡ out.old.items ++ 27 ∷ by ∷ spelled_64 action
        ++ spelled_8 (outcome_number outcome)) }
{
    put_u8(out, 27)?;
    put_u8(out, by)?;
    put_u64(out, action.number())?;
    put_outcome(out, outcome)
}

/// Writes an ask.
pub(crate) fn put_ask(out: &mut Vec<u8>, version: Version, ask: &Ask) -> Result<(), AllocError>
    requires { AskFits version ask.now }
    ensures { OnOk result (out.new.items ≡ out.old.items ++ spelled_ask version ask.now) }
{
    match ask {
        Ask::Join { mutator } => put_alone(out, 0, *mutator),
        Ask::Leave { mutator } => put_alone(out, 1, *mutator),
        Ask::New { mutator, layout } => {
            put_alone(out, 2, *mutator)?;
            put_layout(out, layout)
        }
        Ask::Put {
            mutator,
            object,
            field,
            value,
        } => {
            put_field_of(out, version, 3, *mutator, *object, *field)?;
            put_u8(out, value.number())
        }
        Ask::Get {
            mutator,
            object,
            field,
        } => put_field_of(out, version, 4, *mutator, *object, *field),
        Ask::SetInt {
            mutator,
            object,
            field,
            value,
        } => put_set_int(out, version, *mutator, *object, *field, *value),
        Ask::Int {
            mutator,
            object,
            field,
        } => put_field_of(out, version, 6, *mutator, *object, *field),
        Ask::Dup { mutator, object } => put_one(out, 7, *mutator, *object),
        Ask::Drop { mutator, object } => put_one(out, 8, *mutator, *object),
        Ask::Same {
            mutator,
            left,
            right,
        } => put_two(out, 9, *mutator, *left, right.number()),
        Ask::MakeRef {
            mutator,
            kind,
            referent,
            queue,
        } => {
            put_alone(out, 10, *mutator)?;
            put_ref_kind(out, *kind)?;
            put_u8(out, referent.number())?;
            put_u8(out, queue.number())
        }
        Ask::Deref { mutator, reference } => put_one(out, 11, *mutator, *reference),
        Ask::Refers {
            mutator,
            reference,
            object,
        } => put_two(out, 12, *mutator, *reference, object.number()),
        Ask::Clear { mutator, reference } => put_one(out, 13, *mutator, *reference),
        Ask::Enqueue { mutator, reference } => put_one(out, 14, *mutator, *reference),
        Ask::Enqueued { mutator, reference } => put_one(out, 15, *mutator, *reference),
        Ask::MakeQueue { mutator } => put_alone(out, 16, *mutator),
        Ask::Poll { mutator, queue } => put_one(out, 17, *mutator, *queue),
        Ask::Remove { mutator, queue } => put_one(out, 18, *mutator, *queue),
        Ask::MakeCleaner { mutator } => put_alone(out, 19, *mutator),
        Ask::Register {
            mutator,
            cleaner,
            object,
            note,
        } => {
            put_two(out, 20, *mutator, *cleaner, object.number())?;
            put_u32(out, *note)
        }
        Ask::Clean { mutator, cleanable } => put_one(out, 21, *mutator, *cleanable),
        Ask::Prepare { mutator } => put_alone(out, 22, *mutator),
        Ask::Opened { mutator, outcome } => {
            put_alone(out, 23, *mutator)?;
            put_outcome(out, *outcome)
        }
        Ask::CheckOut { mutator, guard } => put_one(out, 24, *mutator, *guard),
        Ask::CheckIn { mutator, outcome } => {
            put_alone(out, 25, *mutator)?;
            put_call_outcome(out, outcome)
        }
        Ask::Close { mutator, guard } => put_one(out, 26, *mutator, *guard),
        Ask::Finish {
            by,
            action,
            outcome,
        } => put_finish(out, *by, *action, *outcome),
        Ask::Bind {
            mutator,
            name,
            object,
        } => {
            put_alone(out, 28, *mutator)?;
            put_text(out, name.as_slice())?;
            put_u8(out, object.number())
        }
        Ask::Find { mutator, name } => {
            put_alone(out, 29, *mutator)?;
            put_text(out, name.as_slice())
        }
        Ask::Unbind { mutator, name } => {
            put_alone(out, 30, *mutator)?;
            put_text(out, name.as_slice())
        }
        Ask::Names { mutator } => put_alone(out, 31, *mutator),
        Ask::Full { mutator, mode } => {
            put_alone(out, 32, *mutator)?;
            put_mode(out, *mode)
        }
        Ask::Stat { mutator } => put_alone(out, 33, *mutator),
        Ask::Notes { mutator } => put_alone(out, 34, *mutator),
        Ask::Faults { mutator } => put_alone(out, 35, *mutator),
        Ask::HandOver => put_u8(out, 36),
        Ask::TakeUp => put_u8(out, 37),
        Ask::Begin => put_u8(out, 38),
        Ask::Collect => put_u8(out, 39),
        Ask::Abandon => put_u8(out, 40),
        Ask::Array { mutator, length } => {
            put_alone(out, 41, *mutator)?;
            put_length(out, *length)
        }
    }
}

// ---- Reading

fn join_at(bytes: &mut &[u8]) -> Result<Ask, ReadError>
    ensures { Reads (λ x. x) result bytes.new.now (one_field byte_at Join bytes.old.now) }
{
    let mutator = take_mutator(bytes)?;
    Ok(Ask::Join { mutator })
}

fn leave_at(bytes: &mut &[u8]) -> Result<Ask, ReadError>
    ensures { Reads (λ x. x) result bytes.new.now (one_field byte_at Leave bytes.old.now) }
{
    let mutator = take_mutator(bytes)?;
    Ok(Ask::Leave { mutator })
}

fn new_at(bytes: &mut &[u8]) -> Result<Ask, ReadError>
    ensures { Reads (λ x. x) result bytes.new.now (two_fields byte_at layout_read New bytes.old.now) }
{
    let mutator = take_mutator(bytes)?;
    let layout = layout_at(bytes)?;
    Ok(Ask::New { mutator, layout })
}

fn put_at(version: Version, bytes: &mut &[u8]) -> Result<Ask, ReadError>
    ensures { Reads (λ x. x) result bytes.new.now
        (four_fields byte_at byte_at (field_read version) byte_at Put bytes.old.now) }
{
    let mutator = take_mutator(bytes)?;
    let object = take_handle(bytes)?;
    let field = field_at(version, bytes)?;
    let value = take_handle(bytes)?;
    Ok(Ask::Put {
        mutator,
        object,
        field,
        value,
    })
}

fn get_at(version: Version, bytes: &mut &[u8]) -> Result<Ask, ReadError>
    ensures { Reads (λ x. x) result bytes.new.now
        (three_fields byte_at byte_at (field_read version) Get bytes.old.now) }
{
    let mutator = take_mutator(bytes)?;
    let object = take_handle(bytes)?;
    let field = field_at(version, bytes)?;
    Ok(Ask::Get {
        mutator,
        object,
        field,
    })
}

fn set_int_at(version: Version, bytes: &mut &[u8]) -> Result<Ask, ReadError>
    ensures { Reads (λ x. x) result bytes.new.now
        (four_fields byte_at byte_at (field_read version) signed_at SetInt bytes.old.now) }
{
    let mutator = take_mutator(bytes)?;
    let object = take_handle(bytes)?;
    let field = field_at(version, bytes)?;
    let value = take_i64(bytes)?;
    Ok(Ask::SetInt {
        mutator,
        object,
        field,
        value,
    })
}

fn int_at(version: Version, bytes: &mut &[u8]) -> Result<Ask, ReadError>
    ensures { Reads (λ x. x) result bytes.new.now
        (three_fields byte_at byte_at (field_read version) Int bytes.old.now) }
{
    let mutator = take_mutator(bytes)?;
    let object = take_handle(bytes)?;
    let field = field_at(version, bytes)?;
    Ok(Ask::Int {
        mutator,
        object,
        field,
    })
}

fn dup_at(bytes: &mut &[u8]) -> Result<Ask, ReadError>
    ensures { Reads (λ x. x) result bytes.new.now (two_fields byte_at byte_at Dup bytes.old.now) }
{
    let mutator = take_mutator(bytes)?;
    let object = take_handle(bytes)?;
    Ok(Ask::Dup { mutator, object })
}

fn drop_at(bytes: &mut &[u8]) -> Result<Ask, ReadError>
    ensures { Reads (λ x. x) result bytes.new.now (two_fields byte_at byte_at Drop bytes.old.now) }
{
    let mutator = take_mutator(bytes)?;
    let object = take_handle(bytes)?;
    Ok(Ask::Drop { mutator, object })
}

fn same_at(bytes: &mut &[u8]) -> Result<Ask, ReadError>
    ensures { Reads (λ x. x) result bytes.new.now (three_fields byte_at byte_at byte_at Same bytes.old.now) }
{
    let mutator = take_mutator(bytes)?;
    let left = take_handle(bytes)?;
    let right = take_handle(bytes)?;
    Ok(Ask::Same {
        mutator,
        left,
        right,
    })
}

fn make_ref_at(bytes: &mut &[u8]) -> Result<Ask, ReadError>
    ensures { Reads (λ x. x) result bytes.new.now
        (four_fields byte_at (picked_at 0 ref_kinds) byte_at byte_at MakeRef bytes.old.now) }
{
    let mutator = take_mutator(bytes)?;
    let kind = take_ref_kind(bytes)?;
    let referent = take_handle(bytes)?;
    let queue = take_handle(bytes)?;
    Ok(Ask::MakeRef {
        mutator,
        kind,
        referent,
        queue,
    })
}

fn deref_at(bytes: &mut &[u8]) -> Result<Ask, ReadError>
    ensures { Reads (λ x. x) result bytes.new.now (two_fields byte_at byte_at Deref bytes.old.now) }
{
    let mutator = take_mutator(bytes)?;
    let reference = take_handle(bytes)?;
    Ok(Ask::Deref { mutator, reference })
}

fn refers_at(bytes: &mut &[u8]) -> Result<Ask, ReadError>
    ensures { Reads (λ x. x) result bytes.new.now (three_fields byte_at byte_at byte_at Refers bytes.old.now) }
{
    let mutator = take_mutator(bytes)?;
    let reference = take_handle(bytes)?;
    let object = take_handle(bytes)?;
    Ok(Ask::Refers {
        mutator,
        reference,
        object,
    })
}

fn clear_at(bytes: &mut &[u8]) -> Result<Ask, ReadError>
    ensures { Reads (λ x. x) result bytes.new.now (two_fields byte_at byte_at Clear bytes.old.now) }
{
    let mutator = take_mutator(bytes)?;
    let reference = take_handle(bytes)?;
    Ok(Ask::Clear { mutator, reference })
}

fn enqueue_at(bytes: &mut &[u8]) -> Result<Ask, ReadError>
    ensures { Reads (λ x. x) result bytes.new.now (two_fields byte_at byte_at Enqueue bytes.old.now) }
{
    let mutator = take_mutator(bytes)?;
    let reference = take_handle(bytes)?;
    Ok(Ask::Enqueue { mutator, reference })
}

fn enqueued_at(bytes: &mut &[u8]) -> Result<Ask, ReadError>
    ensures { Reads (λ x. x) result bytes.new.now (two_fields byte_at byte_at Enqueued bytes.old.now) }
{
    let mutator = take_mutator(bytes)?;
    let reference = take_handle(bytes)?;
    Ok(Ask::Enqueued { mutator, reference })
}

fn make_queue_at(bytes: &mut &[u8]) -> Result<Ask, ReadError>
    ensures { Reads (λ x. x) result bytes.new.now (one_field byte_at MakeQueue bytes.old.now) }
{
    let mutator = take_mutator(bytes)?;
    Ok(Ask::MakeQueue { mutator })
}

fn poll_at(bytes: &mut &[u8]) -> Result<Ask, ReadError>
    ensures { Reads (λ x. x) result bytes.new.now (two_fields byte_at byte_at Poll bytes.old.now) }
{
    let mutator = take_mutator(bytes)?;
    let queue = take_handle(bytes)?;
    Ok(Ask::Poll { mutator, queue })
}

fn remove_at(bytes: &mut &[u8]) -> Result<Ask, ReadError>
    ensures { Reads (λ x. x) result bytes.new.now (two_fields byte_at byte_at Remove bytes.old.now) }
{
    let mutator = take_mutator(bytes)?;
    let queue = take_handle(bytes)?;
    Ok(Ask::Remove { mutator, queue })
}

fn make_cleaner_at(bytes: &mut &[u8]) -> Result<Ask, ReadError>
    ensures { Reads (λ x. x) result bytes.new.now (one_field byte_at MakeCleaner bytes.old.now) }
{
    let mutator = take_mutator(bytes)?;
    Ok(Ask::MakeCleaner { mutator })
}

fn register_at(bytes: &mut &[u8]) -> Result<Ask, ReadError>
    ensures { Reads (λ x. x) result bytes.new.now
        (four_fields byte_at byte_at byte_at (number_at w32) Register bytes.old.now) }
{
    let mutator = take_mutator(bytes)?;
    let cleaner = take_handle(bytes)?;
    let object = take_handle(bytes)?;
    let note = take_u32(bytes)?;
    Ok(Ask::Register {
        mutator,
        cleaner,
        object,
        note,
    })
}

fn clean_at(bytes: &mut &[u8]) -> Result<Ask, ReadError>
    ensures { Reads (λ x. x) result bytes.new.now (two_fields byte_at byte_at Clean bytes.old.now) }
{
    let mutator = take_mutator(bytes)?;
    let cleanable = take_handle(bytes)?;
    Ok(Ask::Clean { mutator, cleanable })
}

fn prepare_at(bytes: &mut &[u8]) -> Result<Ask, ReadError>
    ensures { Reads (λ x. x) result bytes.new.now (one_field byte_at Prepare bytes.old.now) }
{
    let mutator = take_mutator(bytes)?;
    Ok(Ask::Prepare { mutator })
}

fn opened_at(bytes: &mut &[u8]) -> Result<Ask, ReadError>
    ensures { Reads (λ x. x) result bytes.new.now (two_fields byte_at (picked_at 0 outcomes_by_number) Opened
        bytes.old.now) }
{
    let mutator = take_mutator(bytes)?;
    let outcome = outcome_at(bytes)?;
    Ok(Ask::Opened { mutator, outcome })
}

fn check_out_at(bytes: &mut &[u8]) -> Result<Ask, ReadError>
    ensures { Reads (λ x. x) result bytes.new.now (two_fields byte_at byte_at CheckOut bytes.old.now) }
{
    let mutator = take_mutator(bytes)?;
    let guard = take_handle(bytes)?;
    Ok(Ask::CheckOut { mutator, guard })
}

fn check_in_at(alloc: Global, bytes: &mut &[u8]) -> Result<Ask, ReadError>
    ensures { Reads (λ x. x) result bytes.new.now (two_fields byte_at call_outcome_read CheckIn bytes.old.now) }
{
    let mutator = take_mutator(bytes)?;
    let outcome = call_outcome_at(alloc, bytes)?;
    Ok(Ask::CheckIn { mutator, outcome })
}

fn close_at(bytes: &mut &[u8]) -> Result<Ask, ReadError>
    ensures { Reads (λ x. x) result bytes.new.now (two_fields byte_at byte_at Close bytes.old.now) }
{
    let mutator = take_mutator(bytes)?;
    let guard = take_handle(bytes)?;
    Ok(Ask::Close { mutator, guard })
}

fn finish_at(bytes: &mut &[u8]) -> Result<Ask, ReadError>
    ensures { Reads (λ x. x) result bytes.new.now
        (three_fields byte_at (number_at w64) (picked_at 0 outcomes_by_number) Finish bytes.old.now) }
{
    let by = take_u8(bytes)?;
    let action = take_action(bytes)?;
    let outcome = outcome_at(bytes)?;
    Ok(Ask::Finish {
        by,
        action,
        outcome,
    })
}

fn bind_at(bytes: &mut &[u8]) -> Result<Ask, ReadError>
    ensures { Reads (λ x. x) result bytes.new.now
        (three_fields byte_at (text_at 1 32 is_name_byte) byte_at Bind bytes.old.now) }
{
    let mutator = take_mutator(bytes)?;
    let name = take_name(bytes)?;
    let object = take_handle(bytes)?;
    Ok(Ask::Bind {
        mutator,
        name,
        object,
    })
}

fn find_at(bytes: &mut &[u8]) -> Result<Ask, ReadError>
    ensures { Reads (λ x. x) result bytes.new.now
        (two_fields byte_at (text_at 1 32 is_name_byte) Find bytes.old.now) }
{
    let mutator = take_mutator(bytes)?;
    let name = take_name(bytes)?;
    Ok(Ask::Find { mutator, name })
}

fn unbind_at(bytes: &mut &[u8]) -> Result<Ask, ReadError>
    ensures { Reads (λ x. x) result bytes.new.now
        (two_fields byte_at (text_at 1 32 is_name_byte) Unbind bytes.old.now) }
{
    let mutator = take_mutator(bytes)?;
    let name = take_name(bytes)?;
    Ok(Ask::Unbind { mutator, name })
}

fn names_at(bytes: &mut &[u8]) -> Result<Ask, ReadError>
    ensures { Reads (λ x. x) result bytes.new.now (one_field byte_at Names bytes.old.now) }
{
    let mutator = take_mutator(bytes)?;
    Ok(Ask::Names { mutator })
}

fn full_at(bytes: &mut &[u8]) -> Result<Ask, ReadError>
    ensures { Reads (λ x. x) result bytes.new.now (two_fields byte_at (picked_at 0 modes) Full bytes.old.now) }
{
    let mutator = take_mutator(bytes)?;
    let mode = mode_at(bytes)?;
    Ok(Ask::Full { mutator, mode })
}

fn stat_at(bytes: &mut &[u8]) -> Result<Ask, ReadError>
    ensures { Reads (λ x. x) result bytes.new.now (one_field byte_at Stat bytes.old.now) }
{
    let mutator = take_mutator(bytes)?;
    Ok(Ask::Stat { mutator })
}

fn notes_at(bytes: &mut &[u8]) -> Result<Ask, ReadError>
    ensures { Reads (λ x. x) result bytes.new.now (one_field byte_at Notes bytes.old.now) }
{
    let mutator = take_mutator(bytes)?;
    Ok(Ask::Notes { mutator })
}

fn faults_at(bytes: &mut &[u8]) -> Result<Ask, ReadError>
    ensures { Reads (λ x. x) result bytes.new.now (one_field byte_at Faults bytes.old.now) }
{
    let mutator = take_mutator(bytes)?;
    Ok(Ask::Faults { mutator })
}

/// An array, which version 1 does not have.
fn array_at(version: Version, bytes: &mut &[u8]) -> Result<Ask, ReadError>
    ensures { Reads (λ x. x) result bytes.new.now (array_read version bytes.old.now) }
{
    match version {
        Version::One => Err(ReadError::Fault(Fault::Range)),
        Version::Two => {
            let mutator = take_mutator(bytes)?;
            let length = length_at(bytes)?;
            Ok(Ask::Array { mutator, length })
        }
    }
}

/// An ask from the front: its number, and its fields.
#[tactic(auto, unfolding(crate::specs::Asks::ask_read))]
pub(crate) fn take_ask(alloc: Global, version: Version, bytes: &mut &[u8]) -> Result<Ask, ReadError>
    ensures { Reads (λ x. x) result bytes.new.now (ask_read version bytes.old.now) }
{
    let kind = take_picked(0, &ask_kinds(), bytes)?;
    match kind {
        AskKind::Join => join_at(bytes),
        AskKind::Leave => leave_at(bytes),
        AskKind::New => new_at(bytes),
        AskKind::Put => put_at(version, bytes),
        AskKind::Get => get_at(version, bytes),
        AskKind::SetInt => set_int_at(version, bytes),
        AskKind::Int => int_at(version, bytes),
        AskKind::Dup => dup_at(bytes),
        AskKind::Drop => drop_at(bytes),
        AskKind::Same => same_at(bytes),
        AskKind::MakeRef => make_ref_at(bytes),
        AskKind::Deref => deref_at(bytes),
        AskKind::Refers => refers_at(bytes),
        AskKind::Clear => clear_at(bytes),
        AskKind::Enqueue => enqueue_at(bytes),
        AskKind::Enqueued => enqueued_at(bytes),
        AskKind::MakeQueue => make_queue_at(bytes),
        AskKind::Poll => poll_at(bytes),
        AskKind::Remove => remove_at(bytes),
        AskKind::MakeCleaner => make_cleaner_at(bytes),
        AskKind::Register => register_at(bytes),
        AskKind::Clean => clean_at(bytes),
        AskKind::Prepare => prepare_at(bytes),
        AskKind::Opened => opened_at(bytes),
        AskKind::CheckOut => check_out_at(bytes),
        AskKind::CheckIn => check_in_at(alloc, bytes),
        AskKind::Close => close_at(bytes),
        AskKind::Finish => finish_at(bytes),
        AskKind::Bind => bind_at(bytes),
        AskKind::Find => find_at(bytes),
        AskKind::Unbind => unbind_at(bytes),
        AskKind::Names => names_at(bytes),
        AskKind::Full => full_at(bytes),
        AskKind::Stat => stat_at(bytes),
        AskKind::Notes => notes_at(bytes),
        AskKind::Faults => faults_at(bytes),
        AskKind::HandOver => Ok(Ask::HandOver),
        AskKind::TakeUp => Ok(Ask::TakeUp),
        AskKind::Begin => Ok(Ask::Begin),
        AskKind::Collect => Ok(Ask::Collect),
        AskKind::Abandon => Ok(Ask::Abandon),
        AskKind::Array => array_at(version, bytes),
    }
}
