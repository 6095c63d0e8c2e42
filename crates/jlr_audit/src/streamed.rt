//! The audit of a trace file as it is read: each entry is judged and let go before the next. After the first one that
//! is not legal the others are read for their faults alone.
ghost use Rattle.std.specs.Prelude.{◌≡◌, ◌+◌, List, [], IfOk, IfErr, OnOk, MatchOption};
ghost use Rattle.jlr_audit.specs.declared.verdict.Verdict.TheVariants.{Illegal};
ghost use Rattle.jlr_audit.specs.Streams.{AreComing, IsStreamVerdict, IsOnlyVerdict};
ghost use Rattle.jlr_machine.specs.declared.entry.Entry.{Entry as EntryOf};
ghost use Rattle.jlr_machine.specs.Run.{IsLegal};
ghost use Rattle.jlr_machine.specs.WellFormed.{IsImage};
ghost use Rattle.jlr_plain.specs.Following.{IsWellFollowed, IsNext};
ghost use Rattle.jlr_trace.specs.Streams.{FailsOn, AllAreBytes};

use crate::verdict::Verdict;
use crate::watch::Watch;
use jlr_machine::entry::Entry;
use jlr_machine::machine::Machine;
use jlr_plain::advance::advance_plain;
use jlr_plain_images::image::image_plain;
use jlr_trace::file::TraceFault;
use jlr_trace::streamed::{StreamedEntries, StreamedTrace};
use jlr_trace::window::StreamFault;
use jlr_trace_fields::parts::record::Placed;
use std::alloc::{AllocError, Global};
use std::io::Read;

/// The machine after an entry, if the entry is legal in it; none if it is not. Both are given up for it.
fn advanced(alloc: Global, machine: Machine, entry: Entry) -> Result<Option<Machine>, AllocError>
    requires { IsWellFollowed machine }
    ensures { IfOk result (λ o. MatchOption o (¬ (IsLegal machine entry)) (λ n. IsNext machine entry n)) }
{
    advance_plain(alloc, machine, &entry)
}

/// Reads all entries to the end, and lets them go.
fn read_on<R: Read>(entries: &mut StreamedEntries<R>) -> Result<(), StreamFault>
    ensures all { OnOk result ((es : List EntryOf) × AreComing es entries.old.entries) }
    ensures bytes { OnOk result (AllAreBytes entries.old.rest) }
    ensures fault { IfErr result (λ f. FailsOn f entries.old.entries) }
{
    for _ in 0..entries.left() {
        match entries.next() {
            Ok(entry) => drop(entry),
            Err(fault) => return Err(fault),
        }
    }
    entries.end()
}

/// The verdict that this entry is the first that is not legal, or that the image is none, after the others were read.
fn refused<R: Read>(number: u64, entries: &mut StreamedEntries<R>) -> Result<Verdict, StreamFault>
    ensures verdict { IfOk result (λ v. (v ≡ Illegal number)
        × ((es : List EntryOf) × AreComing es entries.old.entries)) }
    ensures bytes { OnOk result (AllAreBytes entries.old.rest) }
    ensures fault { IfErr result (λ f. FailsOn f entries.old.entries) }
{
    match read_on(entries) {
        Ok(()) => Ok(Verdict::Illegal(number)),
        Err(fault) => Err(fault),
    }
}

/// The verdict on the entries that go on from an image.
fn judged<R: Read, W: Watch>(
    alloc: Global,
    image: Machine,
    entries: &mut StreamedEntries<R>,
    watch: &mut W,
) -> Result<Verdict, StreamFault>
    requires { IsImage image }
    ensures verdict { IfOk result (λ v. IsStreamVerdict [] image entries.old.entries v) }
    ensures bytes { OnOk result (AllAreBytes entries.old.rest) }
    ensures fault { IfErr result (λ f. FailsOn f entries.old.entries) }
{
    let mut machine = image;
    let count = entries.left();
    watch.counts(count);
    for number in 0..count {
        watch.told(number as usize);
        // For the prover: dropped by a call, so that no return path proves the drop of each of its parts.
        let entry = match entries.next() {
            Ok(entry) => entry,
            Err(fault) => {
                drop(machine);
                return Err(fault);
            }
        };
        watch.sees(&machine, &entry);
        let Ok(next) = advanced(alloc, machine, entry) else {
            return Err(StreamFault::Damaged(TraceFault::NoMemory));
        };
        match next {
            Some(next) => machine = next,
            None => return refused(number + 1, entries),
        }
    }
    if let Err(fault) = entries.end() {
        drop(machine);
        return Err(fault);
    }
    watch.leaves(&machine);
    drop(machine);
    Ok(Verdict::Legal)
}

/// The verdict on an image, with objects in slots that are no cells, and on the entries that go on from it.
fn verdict_on<R: Read, W: Watch>(
    alloc: Global,
    strays: &[Placed],
    image: Machine,
    entries: &mut StreamedEntries<R>,
    watch: &mut W,
) -> Result<Verdict, StreamFault>
    ensures verdict { IfOk result (λ v. IsStreamVerdict strays.now image entries.old.entries v) }
    ensures bytes { OnOk result (AllAreBytes entries.old.rest) }
    ensures fault { IfErr result (λ f. FailsOn f entries.old.entries) }
{
    watch.sees_image(&image, strays);
    if !strays.is_empty() {
        drop(image);
        return refused(0, entries);
    }
    let formed = image_plain(&image);
    if !formed {
        drop(image);
        return refused(0, entries);
    }
    judged(alloc, image, entries, watch)
}

/// Whether the entries of a trace file are a run from its image, as `audit` tells it. It is read to its end, with one
/// entry in memory at a time; a fault of its bytes is told whatever stands before it.
///
/// # Errors
/// `Unread` where a read fails, and `Damaged` with the first fault of the bytes, or where there is no memory.
pub fn audit_streamed<R: Read + Drop, W: Watch>(
    alloc: Global,
    trace: StreamedTrace<R>,
    watch: &mut W,
) -> Result<Verdict, StreamFault>
    ensures verdict { IfOk result (λ v. IsStreamVerdict trace.strays trace.image trace.entries.entries v) }
    // And no other verdict holds.
    ensures only { IfOk result (λ v. IsOnlyVerdict trace.strays trace.image trace.entries.entries v) }
    // All that was read is bytes.
    ensures bytes { OnOk result (AllAreBytes trace.entries.rest) }
    ensures fault { IfErr result (λ f. FailsOn f trace.entries.entries) }
{
    let StreamedTrace {
        version: _,
        base: _,
        image,
        strays,
        count: _,
        entries,
    } = trace;
    let mut entries = entries;
    let verdict = verdict_on(alloc, strays.as_slice(), image, &mut entries, watch);
    drop(strays);
    drop(entries);
    verdict
}
