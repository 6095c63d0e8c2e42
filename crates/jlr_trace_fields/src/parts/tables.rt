//! Values that are named by their places in a table.
ghost use Rattle.std.specs.Prelude.{◌≡◌, ◌++◌, OnOk};
ghost use Rattle.jlr_trace_fields.specs.Spelling.{spelled_8};
ghost use Rattle.jlr_trace_fields.specs.Reading.{Reads, picked_at};
ghost use Rattle.jlr_trace_fields.specs.Tables.{ref_kinds, ref_kind_number as number_of_kind, ref_states};
ghost use Rattle.jlr_trace_fields.specs.Tables.{ref_state_number as number_of_ref_state, clean_states};
ghost use Rattle.jlr_trace_fields.specs.Tables.{clean_state_number as number_of_clean_state, resource_states};
ghost use Rattle.jlr_trace_fields.specs.Tables.{resource_state_number as number_of_resource_state, faults};
ghost use Rattle.jlr_trace_fields.specs.Tables.{fault_number as number_of_fault};

use crate::cursor::take_picked;
use crate::fault::ReadError;
use crate::number::put_u8;
use jlr_machine::machine::ResourceState;
use jlr_machine::object::{CleanState, RefState};
use jlr_types::{Fault, RefKind};
use std::alloc::AllocError;

/// How strongly a reference holds.
pub fn take_ref_kind(bytes: &mut &[u8]) -> Result<RefKind, ReadError>
    ensures { Reads (λ x. x) result bytes.new.now (picked_at 0 ref_kinds bytes.old.now) }
{
    let table = [RefKind::Soft, RefKind::Weak, RefKind::Phantom];
    take_picked(0, &table, bytes)
}

fn ref_kind_number(ref_kind: RefKind) -> u8
    ensures { result ≡ number_of_kind ref_kind }
{
    match ref_kind {
        RefKind::Soft => 0,
        RefKind::Weak => 1,
        RefKind::Phantom => 2,
    }
}

/// Writes how strongly a reference holds.
pub fn put_ref_kind(out: &mut Vec<u8>, ref_kind: RefKind) -> Result<(), AllocError>
    ensures { OnOk result (out.new.items ≡ out.old.items ++ spelled_8 (number_of_kind ref_kind)) }
{
    put_u8(out, ref_kind_number(ref_kind))
}

/// How far a reference came.
pub(crate) fn take_ref_state(bytes: &mut &[u8]) -> Result<RefState, ReadError>
    ensures { Reads (λ x. x) result bytes.new.now (picked_at 0 ref_states bytes.old.now) }
{
    let table = [
        RefState::Fresh,
        RefState::Pending,
        RefState::Queued,
        RefState::Removed,
    ];
    take_picked(0, &table, bytes)
}

fn ref_state_number(ref_state: RefState) -> u8
    ensures { result ≡ number_of_ref_state ref_state }
{
    match ref_state {
        RefState::Fresh => 0,
        RefState::Pending => 1,
        RefState::Queued => 2,
        RefState::Removed => 3,
    }
}

/// Writes how far a reference came.
pub(crate) fn put_ref_state(out: &mut Vec<u8>, ref_state: RefState) -> Result<(), AllocError>
    ensures { OnOk result (out.new.items ≡ out.old.items ++ spelled_8 (number_of_ref_state ref_state)) }
{
    put_u8(out, ref_state_number(ref_state))
}

/// How far a cleanable came.
pub(crate) fn take_clean_state(bytes: &mut &[u8]) -> Result<CleanState, ReadError>
    ensures { Reads (λ x. x) result bytes.new.now (picked_at 0 clean_states bytes.old.now) }
{
    let table = [
        CleanState::Armed,
        CleanState::Pending,
        CleanState::Lined,
        CleanState::Spent,
    ];
    take_picked(0, &table, bytes)
}

fn clean_state_number(clean_state: CleanState) -> u8
    ensures { result ≡ number_of_clean_state clean_state }
{
    match clean_state {
        CleanState::Armed => 0,
        CleanState::Pending => 1,
        CleanState::Lined => 2,
        CleanState::Spent => 3,
    }
}

/// Writes how far a cleanable came.
pub(crate) fn put_clean_state(out: &mut Vec<u8>, clean_state: CleanState) -> Result<(), AllocError>
    ensures { OnOk result (out.new.items ≡ out.old.items ++ spelled_8 (number_of_clean_state clean_state)) }
{
    put_u8(out, clean_state_number(clean_state))
}

/// Where a resource is.
pub(crate) fn take_resource_state(bytes: &mut &[u8]) -> Result<ResourceState, ReadError>
    ensures { Reads (λ x. x) result bytes.new.now (picked_at 0 resource_states bytes.old.now) }
{
    let table = [
        ResourceState::Opening,
        ResourceState::Idle,
        ResourceState::Out,
        ResourceState::Closing,
    ];
    take_picked(0, &table, bytes)
}

fn resource_state_number(resource_state: ResourceState) -> u8
    ensures { result ≡ number_of_resource_state resource_state }
{
    match resource_state {
        ResourceState::Opening => 0,
        ResourceState::Idle => 1,
        ResourceState::Out => 2,
        ResourceState::Closing => 3,
    }
}

/// Writes where a resource is.
pub(crate) fn put_resource_state(
    out: &mut Vec<u8>,
    resource_state: ResourceState,
) -> Result<(), AllocError>
    ensures { OnOk result (out.new.items ≡ out.old.items ++ spelled_8 (number_of_resource_state resource_state)) }
{
    put_u8(out, resource_state_number(resource_state))
}

/// Why a file or socket call failed.
pub fn take_fault(bytes: &mut &[u8]) -> Result<Fault, ReadError>
    ensures { Reads (λ x. x) result bytes.new.now (picked_at 1 faults bytes.old.now) }
{
    let table = [Fault::NotFound, Fault::Denied, Fault::Other];
    take_picked(1, &table, bytes)
}

fn fault_number(fault: Fault) -> u8
    ensures { result ≡ number_of_fault fault }
{
    match fault {
        Fault::NotFound => 1,
        Fault::Denied => 2,
        Fault::Other => 3,
    }
}

/// Writes why a file or socket call failed.
pub fn put_fault(out: &mut Vec<u8>, fault: Fault) -> Result<(), AllocError>
    ensures { OnOk result (out.new.items ≡ out.old.items ++ spelled_8 (number_of_fault fault)) }
{
    put_u8(out, fault_number(fault))
}
