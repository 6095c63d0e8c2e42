//! Plain objects, arrays and their fields, and handles.
ghost use Rattle.std.specs.Prelude.{◌≡◌, ◌≤◌, ◌<◌, ◌⊎◌};
ghost use Rattle.jlr_embed.specs.Ways.{EndsOnly, GivesHandle, GivesInteger, GivesTruth, IsOutOfRange};
ghost use Rattle.refheap_c.specs.Layouts.{layout_of};

use crate::layout::layout;
use jlr_embed::handle::status::RANGE;
use jlr_embed::handle::{Heap, calls};
use jlr_event::event::Event;
use jlr_machine::ask::Ask;
use jlr_types::{FieldNo, Handle, Length, Mutator};
use std::alloc::Global;

/// A plain object with so many fields, at most eight. Of a field i the bit i of `references` says whether it is a
/// reference field, null at first, or an integer field, 0 at first. It returns 33 where there are more than eight.
#[unsafe(no_mangle)]
pub extern "C" fn refheap_new(
    alloc: Global,
    heap: &mut Heap,
    by: u8,
    fields: u8,
    references: u8,
    out: &mut u8,
) -> u32
    ensures { ((8 < fields) × IsOutOfRange heap.old.value result heap.new.value × (out.new ≡ out.old))
        ⊎ GivesHandle heap.old.value (Event.Ask (Ask.New by (layout_of fields references))) result out.old out.new
        heap.new.value }
{
    if fields > 8 {
        return RANGE;
    }
    let ask = Ask::New {
        mutator: Mutator::new(by),
        layout: layout(fields, references),
    };
    calls::makes(alloc, heap, ask, out)
}

/// An array of references, each element null: 1 to 4,096 elements, and else it returns 33. Its elements take memory.
#[unsafe(no_mangle)]
pub extern "C" fn refheap_array(
    alloc: Global,
    heap: &mut Heap,
    by: u8,
    length: u16,
    out: &mut u8,
) -> u32
    ensures { (((length < 1) ⊎ (4096 < length)) × IsOutOfRange heap.old.value result heap.new.value
        × (out.new ≡ out.old))
        ⊎ GivesHandle heap.old.value (Event.Ask (Ask.Array by length)) result out.old out.new heap.new.value }
{
    let Some(length) = Length::new(length) else {
        return RANGE;
    };
    let ask = Ask::Array {
        mutator: Mutator::new(by),
        length,
    };
    calls::makes(alloc, heap, ask, out)
}

/// A second handle for an object.
#[unsafe(no_mangle)]
pub extern "C" fn refheap_dup(
    alloc: Global,
    heap: &mut Heap,
    by: u8,
    object: u8,
    out: &mut u8,
) -> u32
    ensures { GivesHandle heap.old.value (Event.Ask (Ask.Dup by object)) result out.old out.new heap.new.value }
{
    let ask = Ask::Dup {
        mutator: Mutator::new(by),
        object: Handle::new(object),
    };
    calls::gives(alloc, heap, ask, out)
}

/// A handle is dropped.
#[unsafe(no_mangle)]
pub extern "C" fn refheap_drop(alloc: Global, heap: &mut Heap, by: u8, object: u8) -> u32
    ensures { EndsOnly heap.old.value (Event.Ask (Ask.Drop by object)) result heap.new.value }
{
    let ask = Ask::Drop {
        mutator: Mutator::new(by),
        object: Handle::new(object),
    };
    calls::does(alloc, heap, ask)
}

/// Whether two handles name one object, or are both null.
#[unsafe(no_mangle)]
pub extern "C" fn refheap_same(
    alloc: Global,
    heap: &mut Heap,
    by: u8,
    left: u8,
    right: u8,
    out: &mut bool,
) -> u32
    ensures { GivesTruth heap.old.value (Event.Ask (Ask.Same by left right)) result out.old out.new heap.new.value }
{
    let ask = Ask::Same {
        mutator: Mutator::new(by),
        left: Handle::new(left),
        right: Handle::new(right),
    };
    calls::tells(alloc, heap, ask, out)
}

/// A reference field, or an element of an array, is written. The value may be null, 0.
#[unsafe(no_mangle)]
pub extern "C" fn refheap_put(
    alloc: Global,
    heap: &mut Heap,
    by: u8,
    object: u8,
    field: u16,
    value: u8,
) -> u32
    ensures { ((4096 ≤ field) × IsOutOfRange heap.old.value result heap.new.value)
        ⊎ EndsOnly heap.old.value (Event.Ask (Ask.Put by object field value)) result heap.new.value }
{
    let Some(field) = FieldNo::new(field) else {
        return RANGE;
    };
    let ask = Ask::Put {
        mutator: Mutator::new(by),
        object: Handle::new(object),
        field,
        value: Handle::new(value),
    };
    calls::does(alloc, heap, ask)
}

/// A reference field, or an element of an array, is read: a handle for what it refers to, or 0 for null.
#[unsafe(no_mangle)]
pub extern "C" fn refheap_get(
    alloc: Global,
    heap: &mut Heap,
    by: u8,
    object: u8,
    field: u16,
    out: &mut u8,
) -> u32
    ensures { ((4096 ≤ field) × IsOutOfRange heap.old.value result heap.new.value × (out.new ≡ out.old))
        ⊎ GivesHandle heap.old.value (Event.Ask (Ask.Get by object field)) result out.old out.new heap.new.value }
{
    let Some(field) = FieldNo::new(field) else {
        return RANGE;
    };
    let ask = Ask::Get {
        mutator: Mutator::new(by),
        object: Handle::new(object),
        field,
    };
    calls::gives(alloc, heap, ask, out)
}

/// An integer field is written.
#[unsafe(no_mangle)]
pub extern "C" fn refheap_set_int(
    alloc: Global,
    heap: &mut Heap,
    by: u8,
    object: u8,
    field: u16,
    value: i64,
) -> u32
    ensures { ((4096 ≤ field) × IsOutOfRange heap.old.value result heap.new.value)
        ⊎ EndsOnly heap.old.value (Event.Ask (Ask.SetInt by object field value)) result heap.new.value }
{
    let Some(field) = FieldNo::new(field) else {
        return RANGE;
    };
    let ask = Ask::SetInt {
        mutator: Mutator::new(by),
        object: Handle::new(object),
        field,
        value,
    };
    calls::does(alloc, heap, ask)
}

/// An integer field is read.
#[unsafe(no_mangle)]
pub extern "C" fn refheap_int(
    alloc: Global,
    heap: &mut Heap,
    by: u8,
    object: u8,
    field: u16,
    out: &mut i64,
) -> u32
    ensures { ((4096 ≤ field) × IsOutOfRange heap.old.value result heap.new.value × (out.new ≡ out.old))
        ⊎ GivesInteger heap.old.value (Event.Ask (Ask.Int by object field)) result out.old out.new heap.new.value }
{
    let Some(field) = FieldNo::new(field) else {
        return RANGE;
    };
    let ask = Ask::Int {
        mutator: Mutator::new(by),
        object: Handle::new(object),
        field,
    };
    calls::reads(alloc, heap, ask, out)
}
