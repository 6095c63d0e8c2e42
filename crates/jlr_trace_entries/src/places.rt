//! Tables that are made of lists: each thing at the place that its number names.
ghost use Rattle.std.specs.Prelude.{◌≡◌, ◌+◌, ◌-◌, ◌<◌, ◌≤◌, [], ◌∷◌, ◌++◌, None, IfOk, OnOk, length, replicate};
ghost use Rattle.jlr_trace_fields.specs.Reading.{Reads};
ghost use Rattle.jlr_trace_fields.specs.Items.{Rises, rising_items_at, rising_at};
ghost use Rattle.jlr_trace_fields.specs.Records.{placed_after};
ghost use Rattle.std.specs.List.{AllByRecursion};
ghost use Rattle.jlr_trace_entries.specs.Images.{listed_from, placed, handle_held, places_of};

use jlr_machine::items::Items;
use jlr_machine::object::Object;
use jlr_machine::table::Table;
use jlr_trace_fields::cursor::take_u32;
use jlr_trace_fields::fault::{Fault, ReadError};
use jlr_trace_fields::parts::record::{Held, Placed, take_placed};
use jlr_trace_fields::version::Version;
use jlr_types::Slot;
use std::alloc::{AllocError, Global};

/// The places of a session's handles: 0, null, to 250.
const HANDLES: usize = 251;

/// The places where a handle is above 250.
const ALL_HANDLES: usize = 256;

/// The fewest bytes that an object and its slot take.
const LEAST_PLACED: usize = 5;

/// The objects of an image: those in its cells, and those in slots that are no cells.
#[derive(Drop)]
pub(crate) struct Objects {
    pub(crate) table: Table<Object>,
    pub(crate) strays: Items<Placed>,
}

/// Adds places with nothing until there are so many.
fn pad<T: Drop>(places: &mut Vec<Option<T>>, upto: usize) -> Result<(), AllocError>
    ensures { OnOk result (places.new.items ≡ places.old.items ++ replicate (upto - length places.old.items) None) }
{
    for _ in places.len()..upto {
        places.push(None)?;
    }
    Ok(())
}

/// The places of the handles: 251, and 256 where a handle is above 250.
pub(crate) fn held_places(alloc: Global, items: &[Held]) -> Result<Vec<Option<Slot>>, AllocError>
    requires { Rises (λ h. h.handle) None items.now }
    ensures listed { IfOk result (λ v. listed_from handle_held 0 v.items ≡ items.now) }
    ensures sized { IfOk result (λ v. length v.items ≡ places_of items.now) }
{
    let mut places: Vec<Option<Slot>> = Vec::new(alloc);
    for item in items {
        pad(&mut places, item.handle.number() as usize)?;
        places.push(Some(item.slot))?;
    }
    let all = if places.len() <= HANDLES {
        HANDLES
    } else {
        ALL_HANDLES
    };
    pad(&mut places, all)?;
    Ok(places)
}

/// Puts an object at its cell, or among the strays where its slot is no cell.
fn put_in(
    places: &mut Vec<Option<Object>>,
    strays: &mut Vec<Placed>,
    cells: usize,
    item: Placed,
) -> Result<(), AllocError>
    requires above { length places.old.items ≤ item.slot }
    requires after { 0 < length strays.old.items → cells ≤ item.slot }
    requires few { length places.old.items ≤ cells }
    requires strays { AllByRecursion (λ p. cells ≤ p.slot) strays.old.items }
    ensures listed { OnOk result (listed_from placed 0 places.new.items
        ++ strays.new.items ≡ (listed_from placed 0 places.old.items ++ strays.old.items) ++ item ∷ []) }
    ensures below { OnOk result (length places.new.items ≤ item.slot + 1) }
    ensures few { OnOk result (length places.new.items ≤ cells) }
    ensures apart { OnOk result (0 < length strays.new.items → cells ≤ item.slot) }
    ensures strays { OnOk result (AllByRecursion (λ p. cells ≤ p.slot) strays.new.items) }
{
    let Placed { slot, object } = item;
    let number = slot.number() as usize;
    if cells <= number {
        strays.push(Placed { slot, object })?;
        return Ok(());
    }
    pad(places, number)?;
    places.push(Some(object))?;
    Ok(())
}

/// So many objects, each in its place.
fn placed_at(
    alloc: Global,
    version: Version,
    cells: usize,
    count: u32,
    bytes: &mut &[u8],
) -> Result<Objects, ReadError>
    ensures reads { Reads (λ x. listed_from placed 0 x.table ++ x.strays) result bytes.new.now
        (rising_items_at (placed_after version) (λ p. p.slot) count None bytes.old.now) }
    ensures sized { IfOk result (λ x. length x.table ≡ cells) }
    ensures apart { IfOk result (λ x. AllByRecursion (λ p. length x.table ≤ p.slot) x.strays) }
{
    let mut places: Vec<Option<Object>> = Vec::new(alloc);
    let mut strays: Vec<Placed> = Vec::new(alloc);
    let mut before: Option<u64> = None;
    for _ in 0..count {
        let item = take_placed(alloc, version, before, bytes)?;
        before = Some(item.slot.number() as u64);
        put_in(&mut places, &mut strays, cells, item)?;
    }
    pad(&mut places, cells)?;
    Ok(Objects {
        table: Table::from_vec(places),
        strays: Items::from_vec(strays),
    })
}

/// The objects of an image with so many cells. A list that cannot fit in the bytes that are left is short, and takes no
/// memory.
#[tactic(auto, unfolding(jlr_trace_fields::specs::Items::rising_at))]
pub(crate) fn objects_at(
    alloc: Global,
    version: Version,
    cells: u32,
    bytes: &mut &[u8],
) -> Result<Objects, ReadError>
    ensures reads { Reads (λ x. listed_from placed 0 x.table ++ x.strays) result bytes.new.now
        (rising_at 5 (placed_after version) (λ p. p.slot) bytes.old.now) }
    ensures sized { IfOk result (λ x. length x.table ≡ cells) }
    ensures apart { IfOk result (λ x. AllByRecursion (λ p. length x.table ≤ p.slot) x.strays) }
{
    let count = take_u32(bytes)?;
    if bytes.len() < count as usize * LEAST_PLACED {
        return Err(ReadError::Fault(Fault::Short));
    }
    placed_at(alloc, version, cells as usize, count, bytes)
}
