//! Writing the image of a trace file.
ghost use Rattle.std.specs.Prelude.{◌≡◌, ◌+◌, ◌<◌, ◌≤◌, ◌^◌, ◌∷◌, ◌++◌, OnOk, length};
ghost use Rattle.std.specs.List.{flat_map, AllByRecursion};
ghost use Rattle.jlr_machine.specs.Objects.{at, occupied};
ghost use Rattle.jlr_trace_fields.specs.Spelling.{spelled_option};
ghost use Rattle.jlr_trace_fields.specs.Records.{spelled_held, spelled_placed, PlacedCounts, spelled_call};
ghost use Rattle.jlr_trace_entries.specs.Images.{listed_from, placed, handle_held, spelled_head, head_of};
ghost use Rattle.jlr_trace_entries.specs.Images.{spelled_waiting};
ghost use Rattle.jlr_trace_entries.specs.Images.{waiting_of, spelled_records, records_of, spelled_counts, counts_of};
ghost use Rattle.jlr_trace_entries.specs.Images.{image_text, spelled_image, whole_image};
ghost use Rattle.jlr_trace_entries.specs.Writing.{spelled_place, PlaceCounts, SessionCounts, spelled_handles};
ghost use Rattle.jlr_trace_entries.specs.Writing.{spelled_objects, spelled_session_of, MachineCounts, ImageCounts};

use jlr_machine::machine::{Machine, Session};
use jlr_machine::object::Object;
use jlr_machine::table::Table;
use jlr_trace_fields::number::{put_option, put_slot, put_u8, put_u16, put_u32, put_u64};
use jlr_trace_fields::parts::items::{put_each, put_list};
use jlr_trace_fields::parts::record::{Placed, put_call, put_placed};
use jlr_types::Slot;
use std::alloc::AllocError;

/// How many places have something.
fn count_some<T>(table: &Table<T>) -> usize
    ensures { result ≡ occupied table.now }
{
    table
        .as_slice()
        .iter()
        .filter(|place| place.is_some())
        .count()
}

fn put_held_at(out: &mut Vec<u8>, handles: &Table<Slot>, number: usize) -> Result<(), AllocError>
    requires { number < 256 }
    ensures { OnOk result (out.new.items ≡ out.old.items
        ++ spelled_place handle_held spelled_held number (at handles.now number)) }
{
    match handles.get(number) {
        Some(slot) => {
            put_u8(out, number as u8)?;
            put_slot(out, *slot)
        }
        None => Ok(()),
    }
}

fn put_held(out: &mut Vec<u8>, handles: &Table<Slot>) -> Result<(), AllocError>
    requires { length handles.now ≤ 256 }
    ensures { OnOk result (out.new.items ≡ out.old.items ++ flat_map spelled_held
        (listed_from handle_held 0 handles.now)) }
{
    for number in 0..handles.len() {
        put_held_at(out, handles, number)?;
    }
    Ok(())
}

/// How many handles are in use.
fn held_count(handles: &Table<Slot>) -> u32
    requires { length handles.now ≤ 256 }
    ensures { result ≡ length (listed_from handle_held 0 handles.now) }
{
    count_some(handles) as u32
}

fn put_handles(out: &mut Vec<u8>, handles: &Table<Slot>) -> Result<(), AllocError>
    requires { length handles.now ≤ 256 }
    ensures { OnOk result (out.new.items ≡ out.old.items ++ spelled_handles handles.now) }
{
    put_u32(out, held_count(handles))?;
    put_held(out, handles)
}

fn put_joined(out: &mut Vec<u8>, session: &Session) -> Result<(), AllocError>
    requires { length session.now.handles ≤ 256 }
    ensures { OnOk result (out.new.items ≡ out.old.items ++ 1 ∷ spelled_handles session.now.handles
        ++ spelled_option session.now.fence ++ spelled_call session.now.call) }
{
    put_u8(out, 1)?;
    put_handles(out, &session.handles)?;
    put_option(out, session.fence)?;
    put_call(out, session.call)
}

fn put_session_at(
    out: &mut Vec<u8>,
    sessions: &Table<Session>,
    number: usize,
) -> Result<(), AllocError>
    requires { SessionCounts (at sessions.now number) }
    ensures { OnOk result (out.new.items ≡ out.old.items ++ spelled_session_of (at sessions.now number)) }
{
    match sessions.get(number) {
        Some(session) => put_joined(out, session),
        None => put_u8(out, 0),
    }
}

fn put_sessions(out: &mut Vec<u8>, sessions: &Table<Session>) -> Result<(), AllocError>
    requires { AllByRecursion SessionCounts sessions.now }
    ensures { OnOk result (out.new.items ≡ out.old.items ++ flat_map spelled_session_of sessions.now) }
{
    for number in 0..sessions.len() {
        put_session_at(out, sessions, number)?;
    }
    Ok(())
}

fn put_placed_at(out: &mut Vec<u8>, table: &Table<Object>, number: usize) -> Result<(), AllocError>
    requires few { number < 65536 }
    requires counts { PlaceCounts (at table.now number) }
    ensures { OnOk result (out.new.items ≡ out.old.items
        ++ spelled_place placed spelled_placed number (at table.now number)) }
{
    match table.get(number) {
        Some(object) => put_placed(out, Slot::new(number as u32), object),
        None => Ok(()),
    }
}

fn put_table(out: &mut Vec<u8>, table: &Table<Object>) -> Result<(), AllocError>
    requires few { length table.now ≤ 65536 }
    requires counts { AllByRecursion PlaceCounts table.now }
    ensures { OnOk result (out.new.items ≡ out.old.items ++ flat_map spelled_placed (listed_from placed 0 table.now)) }
{
    for number in 0..table.len() {
        put_placed_at(out, table, number)?;
    }
    Ok(())
}

/// How many objects there are, with those in slots that are no cells.
fn placed_count(table: &Table<Object>, strays: &[Placed]) -> u32
    requires few { length table.now ≤ 65536 }
    requires all { occupied table.now + length strays.now < 2 ^ 32 }
    ensures { result ≡ length (listed_from placed 0 table.now ++ strays.now) }
{
    (count_some(table) + strays.len()) as u32
}

fn put_objects(
    out: &mut Vec<u8>,
    table: &Table<Object>,
    strays: &[Placed],
) -> Result<(), AllocError>
    requires few { length table.now ≤ 65536 }
    requires all { occupied table.now + length strays.now < 2 ^ 32 }
    requires counts { AllByRecursion PlaceCounts table.now }
    requires strays { AllByRecursion PlacedCounts strays.now }
    ensures { OnOk result (out.new.items ≡ out.old.items ++ spelled_objects table.now strays.now) }
{
    put_u32(out, placed_count(table, strays))?;
    put_table(out, table)?;
    put_each(out, strays)
}

fn put_head(out: &mut Vec<u8>, machine: &Machine, base: u64) -> Result<(), AllocError>
    requires { MachineCounts machine.now }
    ensures { OnOk result (out.new.items ≡ out.old.items ++ spelled_head (head_of machine.now base)) }
{
    put_u32(out, machine.objects.len() as u32)?;
    put_u8(out, machine.mutators.len() as u8)?;
    put_u16(out, machine.resource_limit as u16)?;
    put_u64(out, base)
}

fn put_waiting(out: &mut Vec<u8>, machine: &Machine) -> Result<(), AllocError>
    requires { MachineCounts machine.now }
    ensures { OnOk result (out.new.items ≡ out.old.items ++ spelled_waiting (waiting_of machine.now)) }
{
    put_list(out, machine.names.as_slice())?;
    put_list(out, machine.pending.as_slice())?;
    put_list(out, machine.line.as_slice())
}

fn put_records(out: &mut Vec<u8>, machine: &Machine) -> Result<(), AllocError>
    requires { MachineCounts machine.now }
    ensures { OnOk result (out.new.items ≡ out.old.items ++ spelled_records (records_of machine.now)) }
{
    put_list(out, machine.jobs.as_slice())?;
    put_list(out, machine.resources.as_slice())?;
    put_list(out, machine.faults.as_slice())?;
    put_list(out, machine.notes.as_slice())
}

fn put_counts(out: &mut Vec<u8>, machine: &Machine) -> Result<(), AllocError>
    ensures { OnOk result (out.new.items ≡ out.old.items ++ spelled_counts (counts_of machine.now)) }
{
    put_u64(out, machine.next_action)?;
    put_u64(out, machine.taken)?;
    put_u64(out, machine.ok)?;
    put_u64(out, machine.failed)
}

/// Writes an image whose lists are short enough for their counts: a machine, how many entries there were before, and
/// the objects in slots that are no cells of it. The places of handles that have nothing are not written, nor what was
/// seen in a cycle.
///
/// # Errors
/// `AllocError` where there is no memory.
pub fn put_image(
    out: &mut Vec<u8>,
    base: u64,
    machine: &Machine,
    strays: &[Placed],
) -> Result<(), AllocError>
    requires { ImageCounts machine.now strays.now }
    ensures { let image = whole_image base machine.now strays.now in
        OnOk result (out.new.items ≡ out.old.items ++ spelled_image (image_text image)) }
{
    put_head(out, machine, base)?;
    put_objects(out, &machine.objects, strays)?;
    put_sessions(out, &machine.mutators)?;
    put_waiting(out, machine)?;
    put_records(out, machine)?;
    put_counts(out, machine)
}
