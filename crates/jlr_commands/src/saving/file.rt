//! The bytes of a book's history, as a trace file.
ghost use Rattle.std.specs.Prelude.{◌≡◌, ◌<◌, ◌^◌, ◌++◌, IfOk, OnOk, length};
ghost use Rattle.std.specs.List.{flat_map, AllByRecursion};
ghost use Rattle.jlr_machine.specs.Run.{apply};
ghost use Rattle.jlr_plain.specs.Records.{entry_in, replayed};
ghost use Rattle.jlr_plain.specs.Unseen.{unseen, IsLegalBefore};
ghost use Rattle.jlr_trace_fields.specs.declared.version.Version.TheVariants.{Two};
ghost use Rattle.jlr_trace_entries.specs.Entries.{spelled_entry};
ghost use Rattle.jlr_trace.specs.Ranges.{EntryRange};
ghost use Rattle.jlr_book.specs.Led.{LeadsOn};
ghost use Rattle.jlr_commands.specs.Saving.{IsSaved};

use jlr_book::book::Book;
use jlr_machine::machine::Machine;
use jlr_plain::follow::follow_plain;
use jlr_plain::record::Record;
use jlr_plain::replay::replay_answer;
use jlr_trace::ranges::entry::parts_in_range;
use jlr_trace::writing::begin_history;
use jlr_trace_entries::entry::put_parts;
use jlr_trace_fields::version::Version;
use std::alloc::{AllocError, Global};

/// The bytes of a book's history: its image, how many entries there were before it, and its entries, as a trace file
/// spells them. The history has a spelling, and its verdict is legal. Each entry is told once more by a machine that
/// follows them from the image, and none is kept.
///
/// # Errors
/// `AllocError` where there is no memory for the bytes, for a copy of the image, or for what it follows.
pub fn trace_bytes_of<R: Drop>(alloc: Global, book: &Book<R>) -> Result<Vec<u8>, AllocError>
    ensures { IfOk result (λ v. IsSaved book.now v.items) }
{
    let mut machine = book.image()?;
    let base = book.base();
    let records = book.records();
    book.is_history();
    number_in_range(base);
    let Ok(mut out) = begin_history(alloc, base, &machine, count_of(records)) else {
        drop(machine);
        return Err(AllocError);
    };
    let done = put_replayed(alloc, &mut out, &mut machine, records);
    drop(machine);
    done?;
    Ok(out)
}

fn number_in_range(number: u64)
    ensures { number < 2 ^ 64 }
{}

/// How many records there are.
fn count_of(records: &[Record]) -> u64
    ensures count { result ≡ length records.now }
    ensures fits { result < 2 ^ 64 }
{
    records.len() as u64
}

/// Writes the entries of records that lead on from a machine, which follows them.
fn put_replayed(
    alloc: Global,
    out: &mut Vec<u8>,
    machine: &mut Machine,
    records: &[Record],
) -> Result<(), AllocError>
    requires { LeadsOn machine.old records.now }
    ensures bytes { OnOk result (out.new.items ≡ out.old.items
        ++ flat_map (spelled_entry Two) (replayed machine.old records.now)) }
    ensures range { OnOk result (AllByRecursion EntryRange (replayed machine.old records.now)) }
{
    for place in 0..records.len() {
        put_next(alloc, out, machine, &records[place])?;
    }
    Ok(())
}

/// Writes the entry of a record, which the machine then follows.
fn put_next(
    alloc: Global,
    out: &mut Vec<u8>,
    machine: &mut Machine,
    kept: &Record,
) -> Result<(), AllocError>
    requires { IsLegalBefore machine.old (entry_in machine.old kept.now) }
    ensures bytes { OnOk result (out.new.items ≡ out.old.items ++ spelled_entry Two (entry_in machine.old kept.now)) }
    ensures range { OnOk result (EntryRange (entry_in machine.old kept.now)) }
    ensures next { OnOk result (machine.new ≡ unseen (apply machine.old (entry_in machine.old kept.now))) }
{
    let answer = replay_answer(alloc, machine, kept)?;
    parts_in_range(kept.seat, &kept.ask, &answer, &kept.choice);
    let done = put_parts(
        out,
        Version::Two,
        kept.seat,
        &kept.ask,
        &answer,
        &kept.choice,
    );
    drop(answer);
    done?;
    follow_plain(alloc, machine, kept)
}
