//! The records of an image: bindings, failures, calls, and those with rising keys.
ghost use Rattle.std.specs.Prelude.{◌≡◌, ◌++◌, OnOk};
ghost use Rattle.jlr_trace_fields.specs.Reading.{Reads};
ghost use Rattle.jlr_trace_fields.specs.Spelling.{spelled_32};
ghost use Rattle.jlr_trace_fields.specs.Objects.{ObjectCounts, spelled_object};
ghost use Rattle.jlr_trace_fields.specs.Records.{call_read, spelled_call, placed_after};

use crate::cursor::{take_action, take_handle, take_name, take_rid, take_slot, take_u8, take_u32};
use crate::fault::{Fault, ReadError};
use crate::number::{put_slot, put_u8, put_u32, put_u64};
use crate::parts::items::{Item, Written};
use crate::parts::object::{object_at, put_object, put_work, take_work};
use crate::parts::rising::{Keyed, follows};
use crate::parts::tables::{put_fault, put_resource_state, take_fault, take_resource_state};
use crate::text::put_text;
use crate::version::Version;
use jlr_machine::machine::{Binding, Call, Failure, Job, Resource};
use jlr_machine::object::Object;
use jlr_types::{Handle, Slot};
use std::alloc::{AllocError, Global};

/// An object and its slot.
#[derive(Drop)]
pub struct Placed {
    /// Any slot, also one that is no cell.
    pub slot: Slot,
    /// What is there.
    pub object: Object,
}

/// A handle and the slot that it names.
#[derive(Clone, Copy, PartialEq, Eq, Debug)]
pub struct Held {
    /// Any handle, also 0 and those above 250.
    pub handle: Handle,
    /// What it names.
    pub slot: Slot,
}

/// What a mutator is in the middle of.
#[tactic(auto, unfolding(crate::specs::Records::call_read))]
pub fn take_call(bytes: &mut &[u8]) -> Result<Call, ReadError>
    ensures { Reads (λ x. x) result bytes.new.now (call_read bytes.old.now) }
{
    let kind = take_u8(bytes)?;
    match kind {
        0 => Ok(Call::Free),
        1 => {
            let rid = take_rid(bytes)?;
            Ok(Call::Opening(rid))
        }
        2 => {
            let rid = take_rid(bytes)?;
            Ok(Call::Out(rid))
        }
        3 => {
            let action = take_action(bytes)?;
            Ok(Call::Job(action))
        }
        _ => Err(ReadError::Fault(Fault::Range)),
    }
}

/// Writes what a mutator is in the middle of.
pub fn put_call(out: &mut Vec<u8>, call: Call) -> Result<(), AllocError>
    ensures { OnOk result (out.new.items ≡ out.old.items ++ spelled_call call) }
{
    match call {
        Call::Free => put_u8(out, 0),
        Call::Opening(rid) => {
            put_u8(out, 1)?;
            put_u32(out, rid.number())
        }
        Call::Out(rid) => {
            put_u8(out, 2)?;
            put_u32(out, rid.number())
        }
        Call::Job(action) => {
            put_u8(out, 3)?;
            put_u64(out, action.number())
        }
    }
}

impl Item for Binding {
    ghost use Rattle.jlr_trace_fields.specs.Records.{binding_read};

    ghost read_at = { binding_read };

    ghost LEAST = { 6 };

    const LEAST: usize = 6;

    #[tactic(auto, unfolding(crate::specs::Records::binding_read))]
    fn read(_alloc: Global, bytes: &mut &[u8]) -> Result<Self, ReadError> {
        let name = take_name(bytes)?;
        let slot = take_slot(bytes)?;
        Ok(Binding { name, slot })
    }
}

impl Written for Binding {
    ghost use Rattle.jlr_trace_fields.specs.Records.{spelled_binding};

    ghost spelled = { spelled_binding };

    ghost Counts = { λ _. Unit {0} };

    fn write(&self, out: &mut Vec<u8>) -> Result<(), AllocError> {
        put_text(out, self.name.as_slice())?;
        put_slot(out, self.slot)
    }
}

impl Item for Failure {
    ghost use Rattle.jlr_trace_fields.specs.Records.{failure_read};

    ghost read_at = { failure_read };

    ghost LEAST = { 9 };

    const LEAST: usize = 9;

    #[tactic(auto, unfolding(crate::specs::Records::failure_read))]
    fn read(_alloc: Global, bytes: &mut &[u8]) -> Result<Self, ReadError> {
        let action = take_action(bytes)?;
        let fault = take_fault(bytes)?;
        Ok(Failure { action, fault })
    }
}

impl Written for Failure {
    ghost use Rattle.jlr_trace_fields.specs.Records.{spelled_failure};

    ghost spelled = { spelled_failure };

    ghost Counts = { λ _. Unit {0} };

    fn write(&self, out: &mut Vec<u8>) -> Result<(), AllocError> {
        put_u64(out, self.action.number())?;
        put_fault(out, self.fault)
    }
}

impl Keyed for Job {
    ghost use Rattle.jlr_trace_fields.specs.Records.{job_after};

    ghost read_after = { job_after };

    ghost key_of = { λ x. x.action };

    ghost LEAST = { 14 };

    const LEAST: usize = 14;

    fn key(&self) -> u64 {
        self.action.number()
    }

    #[tactic(auto, unfolding(crate::specs::Records::job_after))]
    fn read(_alloc: Global, before: Option<u64>, bytes: &mut &[u8]) -> Result<Self, ReadError> {
        let action = take_action(bytes)?;
        if !follows(before, action.number()) {
            return Err(ReadError::Fault(Fault::Range));
        }
        let work = take_work(bytes)?;
        let by = take_u8(bytes)?;
        Ok(Job { action, work, by })
    }
}

impl Written for Job {
    ghost use Rattle.jlr_trace_fields.specs.Records.{spelled_job};

    ghost spelled = { spelled_job };

    ghost Counts = { λ _. Unit {0} };

    fn write(&self, out: &mut Vec<u8>) -> Result<(), AllocError> {
        put_u64(out, self.action.number())?;
        put_work(out, self.work)?;
        put_u8(out, self.by)
    }
}

impl Keyed for Resource {
    ghost use Rattle.jlr_trace_fields.specs.Records.{resource_after};

    ghost read_after = { resource_after };

    ghost key_of = { λ x. x.rid };

    ghost LEAST = { 13 };

    const LEAST: usize = 13;

    fn key(&self) -> u64 {
        self.rid.number() as u64
    }

    #[tactic(auto, unfolding(crate::specs::Records::resource_after))]
    fn read(_alloc: Global, before: Option<u64>, bytes: &mut &[u8]) -> Result<Self, ReadError> {
        let rid = take_rid(bytes)?;
        if !follows(before, rid.number() as u64) {
            return Err(ReadError::Fault(Fault::Range));
        }
        let action = take_action(bytes)?;
        let state = take_resource_state(bytes)?;
        Ok(Resource { rid, action, state })
    }
}

impl Written for Resource {
    ghost use Rattle.jlr_trace_fields.specs.Records.{spelled_resource};

    ghost spelled = { spelled_resource };

    ghost Counts = { λ _. Unit {0} };

    fn write(&self, out: &mut Vec<u8>) -> Result<(), AllocError> {
        put_u32(out, self.rid.number())?;
        put_u64(out, self.action.number())?;
        put_resource_state(out, self.state)
    }
}

/// An object and its slot, which is above the one before it.
#[tactic(auto, unfolding(crate::specs::Records::placed_after))]
pub fn take_placed(
    alloc: Global,
    version: Version,
    before: Option<u64>,
    bytes: &mut &[u8],
) -> Result<Placed, ReadError>
    ensures { Reads (λ x. x) result bytes.new.now (placed_after version before bytes.old.now) }
{
    let slot = take_slot(bytes)?;
    if !follows(before, slot.number() as u64) {
        return Err(ReadError::Fault(Fault::Range));
    }
    let object = object_at(alloc, version, bytes)?;
    Ok(Placed { slot, object })
}

/// Writes an object behind its slot.
pub fn put_placed(out: &mut Vec<u8>, slot: Slot, object: &Object) -> Result<(), AllocError>
    requires { ObjectCounts object.now }
    ensures { OnOk result (out.new.items ≡ out.old.items ++ spelled_32 slot ++ spelled_object object.now) }
{
    put_slot(out, slot)?;
    put_object(out, object)
}

impl Written for Placed {
    ghost use Rattle.jlr_trace_fields.specs.Records.{spelled_placed, PlacedCounts};

    ghost spelled = { spelled_placed };

    ghost Counts = { PlacedCounts };

    fn write(&self, out: &mut Vec<u8>) -> Result<(), AllocError> {
        put_placed(out, self.slot, &self.object)
    }
}

impl Keyed for Held {
    ghost use Rattle.jlr_trace_fields.specs.Records.{held_after};

    ghost read_after = { held_after };

    ghost key_of = { λ x. x.handle };

    ghost LEAST = { 5 };

    const LEAST: usize = 5;

    fn key(&self) -> u64 {
        self.handle.number() as u64
    }

    #[tactic(auto, unfolding(crate::specs::Records::held_after))]
    fn read(_alloc: Global, before: Option<u64>, bytes: &mut &[u8]) -> Result<Self, ReadError> {
        let handle = take_handle(bytes)?;
        if !follows(before, handle.number() as u64) {
            return Err(ReadError::Fault(Fault::Range));
        }
        let slot = take_slot(bytes)?;
        Ok(Held { handle, slot })
    }
}

impl Written for Held {
    ghost use Rattle.jlr_trace_fields.specs.Records.{spelled_held};

    ghost spelled = { spelled_held };

    ghost Counts = { λ _. Unit {0} };

    fn write(&self, out: &mut Vec<u8>) -> Result<(), AllocError> {
        put_u8(out, self.handle.number())?;
        put_slot(out, self.slot)
    }
}
