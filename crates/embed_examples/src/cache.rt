//! A cache of numbers by key. Its entries are softly reachable: the collector gives up those that nobody asked for of
//! late, and all where the heap is full.
ghost use Rattle.jlr_heap.specs.Entries.{IsEntry, handle, unrecorded};
ghost use Rattle.jlr_machine.specs.declared.ask.Ask.TheVariants.{Array, MakeRef};
ghost use Rattle.std.specs.Prelude.{IfOk, Ok};
ghost use Rattle.jlr_types.specs.declared.RefKind.TheVariants.{Soft};

use jlr_heap::TokenHeap;
use jlr_heap::handles::Reference;
use jlr_types::{FieldKind, FieldNo, Handle, Layout, Length, Refusal};

/// How many places the index has.
const PLACES: u16 = 64;

/// An entry holds its key in its first field and its value in the second.
fn entry_layout() -> Layout {
    let mut layout = Layout::new();
    layout.push(FieldKind::Int);
    layout.push(FieldKind::Int);
    layout
}

fn field(number: u16) -> Result<FieldNo, Refusal> {
    FieldNo::new(number).ok_or(Refusal::NoField)
}

/// A soft reference to an entry, on no queue.
fn softly(heap: &mut TokenHeap, entry: Handle) -> Result<Reference, Refusal>
    ensures { IsEntry unrecorded heap.old (MakeRef 0 Soft entry 0) (handle result) heap.new }
{
    heap.soft(entry, None)
}

/// A cache in a heap: an array of soft references, each at the place of its entry's key.
#[derive(Clone, Copy)]
pub struct Cache {
    index: Handle,
}

impl Cache {
    /// An empty cache.
    pub fn new(heap: &mut TokenHeap) -> Result<Self, Refusal>
        ensures { IfOk result (λ cache. IsEntry unrecorded heap.old (Array 0 64) (handle (Ok cache.index)) heap.new) }
    {
        let places = Length::new(PLACES).ok_or(Refusal::NoField)?;
        let index = heap.array(places)?;
        Ok(Cache { index })
    }

    /// Where the entry of a key lies.
    fn place(key: u32) -> Result<FieldNo, Refusal> {
        field((key % u32::from(PLACES)) as u16)
    }

    /// The value is in the cache, in place of what lay there.
    pub fn put(&self, heap: &mut TokenHeap, key: u32, value: i64) -> Result<(), Refusal> {
        let entry = heap.object(entry_layout())?;
        let kept = self.keep(heap, entry, key, value);
        heap.drop(entry)?;
        kept
    }

    fn keep(
        &self,
        heap: &mut TokenHeap,
        entry: Handle,
        key: u32,
        value: i64,
    ) -> Result<(), Refusal> {
        heap.set_int(entry, field(0)?, i64::from(key))?;
        heap.set_int(entry, field(1)?, value)?;
        let reference = softly(heap, entry)?.handle();
        let kept = heap.put(self.index, Cache::place(key)?, reference);
        heap.drop(reference)?;
        kept
    }

    /// The value of a key; none where it was never put, or was given up.
    pub fn get(&self, heap: &mut TokenHeap, key: u32) -> Result<Option<i64>, Refusal> {
        let Some(reference) = heap.get(self.index, Cache::place(key)?)? else {
            return Ok(None);
        };
        let found = heap.deref(Reference::of(reference));
        heap.drop(reference)?;
        let Some(entry) = found? else {
            return Ok(None);
        };
        let value = read(heap, entry, key);
        heap.drop(entry)?;
        value
    }
}

/// The value of an entry, if it is this key's.
fn read(heap: &mut TokenHeap, entry: Handle, key: u32) -> Result<Option<i64>, Refusal> {
    if heap.int(entry, field(0)?)? != i64::from(key) {
        return Ok(None);
    }
    Ok(Some(heap.int(entry, field(1)?)?))
}
