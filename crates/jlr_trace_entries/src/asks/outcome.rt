//! How opens, jobs and calls ended, and what a full collection does.
ghost use Rattle.std.specs.Prelude.{◌≡◌, ◌++◌, OnOk};
ghost use Rattle.jlr_trace_fields.specs.Spelling.{spelled_8};
ghost use Rattle.jlr_trace_fields.specs.Reading.{Reads, picked_at};
ghost use Rattle.jlr_trace_entries.specs.Asks.{outcomes_by_number, outcome_number, modes, mode_number};
ghost use Rattle.jlr_trace_entries.specs.Asks.{call_outcome_read};
ghost use Rattle.jlr_trace_entries.specs.Asks.{spelled_call_outcome};

use jlr_machine::ask::{CallOutcome, FullMode, Outcome};
use jlr_machine::text::WriteCount;
use jlr_trace_fields::cursor::{take_data, take_picked, take_u8, take_within};
use jlr_trace_fields::fault::{Fault as ByteFault, ReadError};
use jlr_trace_fields::number::put_u8;
use jlr_trace_fields::parts::tables::{put_fault, take_fault};
use jlr_trace_fields::text::put_text;
use jlr_types::Fault;
use std::alloc::{AllocError, Global};

/// How an open or a job ended.
pub(crate) fn outcome_at(bytes: &mut &[u8]) -> Result<Outcome, ReadError>
    ensures { Reads (λ x. x) result bytes.new.now (picked_at 0 outcomes_by_number bytes.old.now) }
{
    let table = [
        Outcome::Ok,
        Outcome::Failed(Fault::NotFound),
        Outcome::Failed(Fault::Denied),
        Outcome::Failed(Fault::Other),
    ];
    take_picked(0, &table, bytes)
}

/// Writes how an open or a job ended.
pub(crate) fn put_outcome(out: &mut Vec<u8>, outcome: Outcome) -> Result<(), AllocError>
    ensures { OnOk result (out.new.items ≡ out.old.items ++ spelled_8 (outcome_number outcome)) }
{
    match outcome {
        Outcome::Ok => put_u8(out, 0),
        Outcome::Failed(fault) => put_fault(out, fault),
    }
}

/// How a call on a resource ended.
#[tactic(auto, unfolding(crate::specs::Asks::call_outcome_read))]
pub(crate) fn call_outcome_at(alloc: Global, bytes: &mut &[u8]) -> Result<CallOutcome, ReadError>
    ensures { Reads (λ x. x) result bytes.new.now (call_outcome_read bytes.old.now) }
{
    let kind = take_u8(bytes)?;
    match kind {
        0 => {
            let text = take_data(alloc, bytes)?;
            Ok(CallOutcome::Data(text))
        }
        1 => {
            let count = take_within(0, 200, bytes)?;
            Ok(CallOutcome::Wrote(WriteCount::new(count).unwrap()))
        }
        2 => {
            let fault = take_fault(bytes)?;
            Ok(CallOutcome::Failed(fault))
        }
        _ => Err(ReadError::Fault(ByteFault::Range)),
    }
}

/// Writes how a call on a resource ended.
pub(crate) fn put_call_outcome(out: &mut Vec<u8>, outcome: &CallOutcome) -> Result<(), AllocError>
    ensures { OnOk result (out.new.items ≡ out.old.items ++ spelled_call_outcome outcome.now) }
{
    match outcome {
        CallOutcome::Data(text) => {
            put_u8(out, 0)?;
            put_text(out, text.as_slice())
        }
        CallOutcome::Wrote(count) => {
            put_u8(out, 1)?;
            put_u8(out, count.number())
        }
        CallOutcome::Failed(fault) => {
            put_u8(out, 2)?;
            put_fault(out, *fault)
        }
    }
}

/// What a full collection does with soft references.
pub(crate) fn mode_at(bytes: &mut &[u8]) -> Result<FullMode, ReadError>
    ensures { Reads (λ x. x) result bytes.new.now (picked_at 0 modes bytes.old.now) }
{
    let table = [FullMode::Policy, FullMode::ClearAll];
    take_picked(0, &table, bytes)
}

/// Writes what a full collection does with soft references.
pub(crate) fn put_mode(out: &mut Vec<u8>, mode: FullMode) -> Result<(), AllocError>
    ensures { OnOk result (out.new.items ≡ out.old.items ++ spelled_8 (mode_number mode)) }
{
    match mode {
        FullMode::Policy => put_u8(out, 0),
        FullMode::ClearAll => put_u8(out, 1),
    }
}
