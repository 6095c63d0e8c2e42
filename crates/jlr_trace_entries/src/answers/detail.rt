//! What answers hold: counts, what a handler's step did, and why an ask was refused.
ghost use Rattle.std.specs.Prelude.{◌≡◌, ◌++◌, OnOk};
ghost use Rattle.jlr_trace_fields.specs.Spelling.{spelled_8};
ghost use Rattle.jlr_trace_fields.specs.Reading.{Reads, picked_at};
ghost use Rattle.jlr_trace_entries.specs.Answers.{refusals, handings, handing_number, stat_read, spelled_stat};

use jlr_machine::ask::{Handed, Stat};
use jlr_trace_fields::cursor::{take_picked, take_u64};
use jlr_trace_fields::fault::ReadError;
use jlr_trace_fields::number::{put_u8, put_u64};
use jlr_types::Refusal;
use std::alloc::AllocError;

/// Why an ask was refused.
pub(crate) fn refusal_at(bytes: &mut &[u8]) -> Result<Refusal, ReadError>
    ensures { Reads (λ x. x) result bytes.new.now (picked_at 1 refusals bytes.old.now) }
{
    let table = [
        Refusal::NoMemory,
        Refusal::HeapFull,
        Refusal::NoHandle,
        Refusal::HandlesFull,
        Refusal::WrongKind,
        Refusal::NoField,
        Refusal::WrongType,
        Refusal::Null,
        Refusal::NoName,
        Refusal::NamesFull,
        Refusal::Busy,
        Refusal::Closed,
        Refusal::NoSession,
        Refusal::Exhausted,
        Refusal::Malformed,
        Refusal::TooLong,
        Refusal::NotOut,
        Refusal::WouldWait,
        Refusal::ResourcesFull,
    ];
    take_picked(1, &table, bytes)
}

/// What a handler's step did.
pub(crate) fn handed_at(bytes: &mut &[u8]) -> Result<Handed, ReadError>
    ensures { Reads (λ x. x) result bytes.new.now (picked_at 0 handings bytes.old.now) }
{
    let table = [
        Handed::Queued,
        Handed::Lined,
        Handed::Skipped,
        Handed::Nothing,
    ];
    take_picked(0, &table, bytes)
}

/// Writes what a handler's step did.
pub(crate) fn put_handed(out: &mut Vec<u8>, handed: Handed) -> Result<(), AllocError>
    ensures { OnOk result (out.new.items ≡ out.old.items ++ spelled_8 (handing_number handed)) }
{
    match handed {
        Handed::Queued => put_u8(out, 0),
        Handed::Lined => put_u8(out, 1),
        Handed::Skipped => put_u8(out, 2),
        Handed::Nothing => put_u8(out, 3),
    }
}

/// The machine's counts.
#[tactic(auto, unfolding(crate::specs::Answers::stat_read))]
pub(crate) fn stat_at(bytes: &mut &[u8]) -> Result<Stat, ReadError>
    ensures { Reads (λ x. x) result bytes.new.now (stat_read bytes.old.now) }
{
    let objects = take_u64(bytes)?;
    let resources = take_u64(bytes)?;
    let taken = take_u64(bytes)?;
    let ok = take_u64(bytes)?;
    let failed = take_u64(bytes)?;
    Ok(Stat {
        objects,
        resources,
        taken,
        ok,
        failed,
    })
}

/// Writes the machine's counts.
pub(crate) fn put_stat(out: &mut Vec<u8>, stat: &Stat) -> Result<(), AllocError>
    ensures { OnOk result (out.new.items ≡ out.old.items ++ spelled_stat stat.now) }
{
    put_u64(out, stat.objects)?;
    put_u64(out, stat.resources)?;
    put_u64(out, stat.taken)?;
    put_u64(out, stat.ok)?;
    put_u64(out, stat.failed)
}
