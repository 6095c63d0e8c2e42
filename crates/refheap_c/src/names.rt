//! Names.
ghost use Rattle.std.specs.Prelude.{◌≡◌, ◌⊎◌, false, true};
ghost use Rattle.jlr_machine.specs.Names.{is_name};
ghost use Rattle.jlr_embed.specs.Ways.{EndsOnly, GivesHandle, GivesName, IsOutOfRange};

use jlr_embed::handle::status::RANGE;
use jlr_embed::handle::{Heap, calls};
use jlr_event::event::Event;
use jlr_machine::ask::Ask;
use jlr_machine::text::Name;
use jlr_types::{Handle, Mutator};
use std::alloc::Global;

/// A name, 1 to 32 small letters, digits and underscores, is bound to an object, which it keeps alive; one that is
/// bound already keeps its place. It returns 33 where the bytes are no name.
#[unsafe(no_mangle)]
pub extern "C" fn refheap_bind(
    alloc: Global,
    heap: &mut Heap,
    by: u8,
    name: &[u8],
    object: u8,
) -> u32
    ensures { ((is_name name.now ≡ false) × IsOutOfRange heap.old.value result heap.new.value)
        ⊎ ((is_name name.now ≡ true) × EndsOnly heap.old.value (Event.Ask (Ask.Bind by name.now object)) result
        heap.new.value) }
{
    let Some(name) = Name::from_slice(name) else {
        return RANGE;
    };
    let ask = Ask::Bind {
        mutator: Mutator::new(by),
        name,
        object: Handle::new(object),
    };
    calls::does(alloc, heap, ask)
}

/// A handle for the object that is bound to a name. It returns 33 where the bytes are no name.
#[unsafe(no_mangle)]
pub extern "C" fn refheap_find(
    alloc: Global,
    heap: &mut Heap,
    by: u8,
    name: &[u8],
    out: &mut u8,
) -> u32
    ensures { ((is_name name.now ≡ false) × IsOutOfRange heap.old.value result heap.new.value × (out.new ≡ out.old))
        ⊎ ((is_name name.now ≡ true) × GivesHandle heap.old.value (Event.Ask (Ask.Find by name.now)) result out.old
        out.new heap.new.value) }
{
    let Some(name) = Name::from_slice(name) else {
        return RANGE;
    };
    let ask = Ask::Find {
        mutator: Mutator::new(by),
        name,
    };
    calls::gives(alloc, heap, ask, out)
}

/// A name is given up. It returns 33 where the bytes are no name.
#[unsafe(no_mangle)]
pub extern "C" fn refheap_unbind(alloc: Global, heap: &mut Heap, by: u8, name: &[u8]) -> u32
    ensures { ((is_name name.now ≡ false) × IsOutOfRange heap.old.value result heap.new.value)
        ⊎ ((is_name name.now ≡ true) × EndsOnly heap.old.value (Event.Ask (Ask.Unbind by name.now)) result
        heap.new.value) }
{
    let Some(name) = Name::from_slice(name) else {
        return RANGE;
    };
    let ask = Ask::Unbind {
        mutator: Mutator::new(by),
        name,
    };
    calls::does(alloc, heap, ask)
}

/// The name of this index, in order of binding, with zeros behind it, or 34 where there are fewer. It takes memory for
/// the list.
#[unsafe(no_mangle)]
pub extern "C" fn refheap_name(
    alloc: Global,
    heap: &mut Heap,
    by: u8,
    index: usize,
    out: &mut [u8; 33],
) -> u32
    ensures { GivesName index heap.old.value (Event.Ask (Ask.Names by)) result out.old out.new heap.new.value }
{
    let ask = Ask::Names {
        mutator: Mutator::new(by),
    };
    calls::names(alloc, heap, ask, index, out)
}
