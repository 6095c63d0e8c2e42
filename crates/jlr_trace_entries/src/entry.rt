//! An entry: who asked, the ask, its answer, and what was chosen.
ghost use Rattle.std.specs.Prelude.{◌≡◌, ◌++◌, OnOk};
ghost use Rattle.jlr_trace_fields.specs.Reading.{Reads};
ghost use Rattle.jlr_trace_entries.specs.Entries.{entry_read, made_entry, spelled_entry, EntryCounts};

use crate::answers::reading::take_answer;
use crate::answers::writing::put_answer;
use crate::asks::ask::{put_ask, take_ask};
use crate::choice::{choice_at, put_choice};
use jlr_machine::ask::{Answer, Ask};
use jlr_machine::entry::{Chosen, Entry};
use jlr_trace_fields::cursor::take_u8;
use jlr_trace_fields::fault::ReadError;
use jlr_trace_fields::number::put_u8;
use jlr_trace_fields::version::Version;
use std::alloc::{AllocError, Global};

/// An entry from the front of the bytes, which are then those behind it.
///
/// # Errors
/// The first fault of its fields from the front, or `Memory`.
#[tactic(auto, unfolding(crate::specs::Entries::entry_read))]
pub fn take_entry(alloc: Global, version: Version, bytes: &mut &[u8]) -> Result<Entry, ReadError>
    ensures { Reads (λ x. x) result bytes.new.now (entry_read version bytes.old.now) }
{
    let seat = take_u8(bytes)?;
    let ask = take_ask(alloc, version, bytes)?;
    let answer = match take_answer(alloc, bytes) {
        Ok(answer) => answer,
        Err(error) => {
            drop(ask);
            return Err(error);
        }
    };
    match choice_at(alloc, bytes) {
        Ok(choice) => Ok(Entry {
            seat,
            ask,
            answer,
            choice,
        }),
        Err(error) => {
            drop(ask);
            drop(answer);
            Err(error)
        }
    }
}

/// Writes an entry whose ask this version can tell, and whose lists are short enough for their counts.
///
/// # Errors
/// `AllocError` where there is no memory.
pub fn put_entry(out: &mut Vec<u8>, version: Version, entry: &Entry) -> Result<(), AllocError>
    requires { EntryCounts version entry.now }
    ensures { OnOk result (out.new.items ≡ out.old.items ++ spelled_entry version entry.now) }
{
    put_parts(
        out,
        version,
        entry.seat,
        &entry.ask,
        &entry.answer,
        &entry.choice,
    )
}

/// The same of an entry whose parts are lent: its seat, its ask, its answer, and what was chosen.
///
/// # Errors
/// `AllocError` where there is no memory.
pub fn put_parts(
    out: &mut Vec<u8>,
    version: Version,
    seat: u8,
    ask: &Ask,
    answer: &Answer,
    choice: &Chosen,
) -> Result<(), AllocError>
    requires { EntryCounts version (made_entry seat ask.now answer.now choice.now) }
    ensures { OnOk result (out.new.items ≡ out.old.items
        ++ spelled_entry version (made_entry seat ask.now answer.now choice.now)) }
{
    put_u8(out, seat)?;
    put_ask(out, version, ask)?;
    put_answer(out, answer)?;
    put_choice(out, choice)
}
