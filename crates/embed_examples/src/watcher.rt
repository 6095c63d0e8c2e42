//! A watcher: it keeps no object, and tells which of those that it was shown have died.
ghost use Rattle.jlr_heap.specs.Entries.{IsEntry, handle, unrecorded};
ghost use Rattle.jlr_machine.specs.declared.ask.Ask.TheVariants.{MakeQueue, MakeRef};
ghost use Rattle.jlr_types.specs.declared.RefKind.TheVariants.{Weak};
ghost use Rattle.std.specs.Prelude.{◌<◌, IfOk, IfSome, Ok, vec_len};

use jlr_heap::TokenHeap;
use jlr_heap::handles::{Queue, Reference};
use jlr_types::{Handle, Refusal};
use std::alloc::Global;

/// A watched object, by the number under which it was shown.
#[derive(Clone, Copy)]
struct Watched {
    reference: Reference,
    number: u32,
}

/// A watcher of objects, whose weak references come to a queue.
#[derive(Drop)]
pub struct Watcher {
    queue: Queue,
    watched: Vec<Watched>,
}

/// A weak reference to an object, that comes to a queue once the object has died.
fn weak_on(heap: &mut TokenHeap, queue: Queue, object: Handle) -> Result<Reference, Refusal>
    ensures { IsEntry unrecorded heap.old (MakeRef 0 Weak object queue) (handle result) heap.new }
{
    heap.weak(object, Some(queue))
}

impl Watcher {
    /// A watcher of nothing.
    pub fn new(alloc: Global, heap: &mut TokenHeap) -> Result<Self, Refusal>
        ensures { IfOk result
            (λ watcher. IsEntry unrecorded heap.old (MakeQueue 0) (handle (Ok watcher.queue)) heap.new) }
    {
        let queue = heap.queue()?;
        Ok(Watcher {
            queue,
            watched: Vec::new(alloc),
        })
    }

    /// An object is watched from now on, under this number.
    pub fn watch(
        &mut self,
        heap: &mut TokenHeap,
        object: Handle,
        number: u32,
    ) -> Result<(), Refusal> {
        let reference = weak_on(heap, self.queue, object)?;
        if self.list(Watched { reference, number }) {
            return Ok(());
        }
        heap.drop(reference.handle())?;
        Err(Refusal::NoMemory)
    }

    /// Whether there was memory to list it.
    fn list(&mut self, watched: Watched) -> bool {
        self.watched.push(watched).is_ok()
    }

    /// The number of an object that has died and was not told before, if there is one.
    pub fn next_death(&mut self, heap: &mut TokenHeap) -> Result<Option<u32>, Refusal> {
        let Some(polled) = heap.poll(self.queue)? else {
            return Ok(None);
        };
        let died = self.number_of(heap, polled);
        heap.drop(polled)?;
        died
    }

    /// The number under which a reference watches. It is let go.
    fn number_of(&mut self, heap: &mut TokenHeap, polled: Handle) -> Result<Option<u32>, Refusal> {
        let Some(place) = self.place_of(heap, polled)? else {
            return Ok(None);
        };
        let Watched { reference, number } = self.watched.swap_remove(place);
        heap.drop(reference.handle())?;
        Ok(Some(number))
    }

    /// Where a reference stands in the list.
    fn place_of(&self, heap: &mut TokenHeap, polled: Handle) -> Result<Option<usize>, Refusal>
        ensures { IfOk result (λ found. IfSome found (λ place. place < vec_len self.now.watched)) }
    {
        for place in 0..self.watched.len() {
            let reference = self.watched[place].reference;
            if heap.same(reference.handle(), polled)? {
                return Ok(Some(place));
            }
        }
        Ok(None)
    }
}
