//! The asks of a program: a method for each.
ghost use Rattle.std.specs.Prelude.{◌≡◌, IfOk, Some};
ghost use Rattle.jlr_heap.specs.Entries.{IsDone, IsEntry, counts, told_faults, handle, handle_or_null};
ghost use Rattle.jlr_heap.specs.Entries.{integer, names, notes, or_null, truth};

use crate::handles::{Cleanable, Cleaner, Queue, Reference};
use crate::heap::{Heap, me};
use crate::keeper::Keeper;
use jlr_machine::ask::{Ask, FullMode, Stat};
use jlr_machine::items::Items;
use jlr_machine::machine::Failure;
use jlr_machine::text::Name;
use jlr_types::{FieldNo, Handle, Layout, Length, RefKind, Refusal};

/// The handle of a thing, or null.
fn null_or(queue: Option<Queue>) -> Handle
    ensures { result ≡ or_null queue }
{
    match queue {
        Some(queue) => queue.handle(),
        None => Handle::new(0),
    }
}

impl<K: Keeper> Heap<K> {
    /// A plain object of a layout: its reference fields null, its integer fields 0.
    pub fn object(&mut self, layout: Layout) -> Result<Handle, Refusal>
        ensures { IsEntry K.asking self.old (Ask.New 0 layout) (handle result) self.new }
    {
        self.gives(Ask::New {
            mutator: me(),
            layout,
        })
    }

    /// An array of references, each element null. It takes memory.
    pub fn array(&mut self, length: Length) -> Result<Handle, Refusal>
        ensures { IsEntry K.asking self.old (Ask.Array 0 length) (handle result) self.new }
    {
        self.gives(Ask::Array {
            mutator: me(),
            length,
        })
    }

    /// A second handle for an object.
    pub fn dup(&mut self, object: Handle) -> Result<Handle, Refusal>
        ensures { IsEntry K.asking self.old (Ask.Dup 0 object) (handle result) self.new }
    {
        self.gives(Ask::Dup {
            mutator: me(),
            object,
        })
    }

    /// A handle is dropped.
    pub fn drop(&mut self, object: Handle) -> Result<(), Refusal>
        ensures { IsDone K.asking self.old (Ask.Drop 0 object) result self.new }
    {
        self.does(Ask::Drop {
            mutator: me(),
            object,
        })
    }

    /// Whether two handles name one object.
    pub fn same(&mut self, left: Handle, right: Handle) -> Result<bool, Refusal>
        ensures { IsEntry K.asking self.old (Ask.Same 0 left right) (truth result) self.new }
    {
        self.tells(Ask::Same {
            mutator: me(),
            left,
            right,
        })
    }

    /// A reference field or an element is written. Null is handle 0.
    pub fn put(&mut self, object: Handle, field: FieldNo, value: Handle) -> Result<(), Refusal>
        ensures { IsDone K.asking self.old (Ask.Put 0 object field value) result self.new }
    {
        self.does(Ask::Put {
            mutator: me(),
            object,
            field,
            value,
        })
    }

    /// A reference field or an element is read.
    pub fn get(&mut self, object: Handle, field: FieldNo) -> Result<Option<Handle>, Refusal>
        ensures entry { IsEntry K.asking self.old (Ask.Get 0 object field) (handle_or_null result) self.new }
        ensures null { IfOk result (λ given. given ≡ Some 0 → ⊥) }
    {
        self.gives_or_null(Ask::Get {
            mutator: me(),
            object,
            field,
        })
    }

    /// An integer field is written.
    pub fn set_int(&mut self, object: Handle, field: FieldNo, value: i64) -> Result<(), Refusal>
        ensures { IsDone K.asking self.old (Ask.SetInt 0 object field value) result self.new }
    {
        self.does(Ask::SetInt {
            mutator: me(),
            object,
            field,
            value,
        })
    }

    /// An integer field is read.
    pub fn int(&mut self, object: Handle, field: FieldNo) -> Result<i64, Refusal>
        ensures { IsEntry K.asking self.old (Ask.Int 0 object field) (integer result) self.new }
    {
        self.reads(Ask::Int {
            mutator: me(),
            object,
            field,
        })
    }

    /// A soft reference to an object, on a queue or none.
    pub fn soft(&mut self, referent: Handle, queue: Option<Queue>) -> Result<Reference, Refusal>
        ensures { IsEntry K.asking self.old (Ask.MakeRef 0 RefKind.Soft referent (or_null queue)) (handle result)
            self.new }
    {
        match self.gives(Ask::MakeRef {
            mutator: me(),
            kind: RefKind::Soft,
            referent,
            queue: null_or(queue),
        }) {
            Ok(handle) => Ok(Reference::of(handle)),
            Err(by) => Err(by),
        }
    }

    /// A weak reference to an object, on a queue or none.
    pub fn weak(&mut self, referent: Handle, queue: Option<Queue>) -> Result<Reference, Refusal>
        ensures { IsEntry K.asking self.old (Ask.MakeRef 0 RefKind.Weak referent (or_null queue)) (handle result)
            self.new }
    {
        match self.gives(Ask::MakeRef {
            mutator: me(),
            kind: RefKind::Weak,
            referent,
            queue: null_or(queue),
        }) {
            Ok(handle) => Ok(Reference::of(handle)),
            Err(by) => Err(by),
        }
    }

    /// A phantom reference to an object, on a queue or none.
    pub fn phantom(&mut self, referent: Handle, queue: Option<Queue>) -> Result<Reference, Refusal>
        ensures { IsEntry K.asking self.old (Ask.MakeRef 0 RefKind.Phantom referent (or_null queue)) (handle result)
            self.new }
    {
        match self.gives(Ask::MakeRef {
            mutator: me(),
            kind: RefKind::Phantom,
            referent,
            queue: null_or(queue),
        }) {
            Ok(handle) => Ok(Reference::of(handle)),
            Err(by) => Err(by),
        }
    }

    /// What a reference refers to; none where it is cleared, and of a phantom one always.
    pub fn deref(&mut self, reference: Reference) -> Result<Option<Handle>, Refusal>
        ensures entry { IsEntry K.asking self.old (Ask.Deref 0 reference) (handle_or_null result) self.new }
        ensures null { IfOk result (λ given. given ≡ Some 0 → ⊥) }
    {
        self.gives_or_null(Ask::Deref {
            mutator: me(),
            reference: reference.handle(),
        })
    }

    /// Whether a reference refers to this object, or, for handle 0, to none.
    pub fn refers(&mut self, reference: Reference, object: Handle) -> Result<bool, Refusal>
        ensures { IsEntry K.asking self.old (Ask.Refers 0 reference object) (truth result) self.new }
    {
        self.tells(Ask::Refers {
            mutator: me(),
            reference: reference.handle(),
            object,
        })
    }

    /// A reference is cleared, and comes to no queue.
    pub fn clear(&mut self, reference: Reference) -> Result<(), Refusal>
        ensures { IsDone K.asking self.old (Ask.Clear 0 reference) result self.new }
    {
        self.does(Ask::Clear {
            mutator: me(),
            reference: reference.handle(),
        })
    }

    /// A reference is cleared and put on its queue: whether it had one that it was never on.
    pub fn enqueue(&mut self, reference: Reference) -> Result<bool, Refusal>
        ensures { IsEntry K.asking self.old (Ask.Enqueue 0 reference) (truth result) self.new }
    {
        self.tells(Ask::Enqueue {
            mutator: me(),
            reference: reference.handle(),
        })
    }

    /// Whether a reference is on its queue.
    pub fn enqueued(&mut self, reference: Reference) -> Result<bool, Refusal>
        ensures { IsEntry K.asking self.old (Ask.Enqueued 0 reference) (truth result) self.new }
    {
        self.tells(Ask::Enqueued {
            mutator: me(),
            reference: reference.handle(),
        })
    }

    /// A queue.
    pub fn queue(&mut self) -> Result<Queue, Refusal>
        ensures { IsEntry K.asking self.old (Ask.MakeQueue 0) (handle result) self.new }
    {
        match self.gives(Ask::MakeQueue { mutator: me() }) {
            Ok(handle) => Ok(Queue::of(handle)),
            Err(by) => Err(by),
        }
    }

    /// The oldest member is taken off a queue, if there is one.
    pub fn poll(&mut self, queue: Queue) -> Result<Option<Handle>, Refusal>
        ensures entry { IsEntry K.asking self.old (Ask.Poll 0 queue) (handle_or_null result) self.new }
        ensures null { IfOk result (λ given. given ≡ Some 0 → ⊥) }
    {
        self.gives_or_null(Ask::Poll {
            mutator: me(),
            queue: queue.handle(),
        })
    }

    /// The oldest member is taken off a queue. On an empty queue it is refused `WouldWait`.
    pub fn remove(&mut self, queue: Queue) -> Result<Handle, Refusal>
        ensures { IsEntry K.asking self.old (Ask.Remove 0 queue) (handle result) self.new }
    {
        self.gives(Ask::Remove {
            mutator: me(),
            queue: queue.handle(),
        })
    }

    /// A cleaner.
    pub fn cleaner(&mut self) -> Result<Cleaner, Refusal>
        ensures { IsEntry K.asking self.old (Ask.MakeCleaner 0) (handle result) self.new }
    {
        match self.gives(Ask::MakeCleaner { mutator: me() }) {
            Ok(handle) => Ok(Cleaner::of(handle)),
            Err(by) => Err(by),
        }
    }

    /// An action that is known by a note is registered on an object.
    pub fn register(
        &mut self,
        cleaner: Cleaner,
        object: Handle,
        note: u32,
    ) -> Result<Cleanable, Refusal>
        ensures { IsEntry K.asking self.old (Ask.Register 0 cleaner object note) (handle result) self.new }
    {
        match self.gives(Ask::Register {
            mutator: me(),
            cleaner: cleaner.handle(),
            object,
            note,
        }) {
            Ok(handle) => Ok(Cleanable::of(handle)),
            Err(by) => Err(by),
        }
    }

    /// A full collection, which keeps soft references by their age.
    pub fn gc(&mut self) -> Result<(), Refusal>
        ensures { IsDone K.asking self.old (Ask.Full 0 FullMode.Policy) result self.new }
    {
        self.does(Ask::Full {
            mutator: me(),
            mode: FullMode::Policy,
        })
    }

    /// A full collection that clears all soft references that it may.
    pub fn gc_soft(&mut self) -> Result<(), Refusal>
        ensures { IsDone K.asking self.old (Ask.Full 0 FullMode.ClearAll) result self.new }
    {
        self.does(Ask::Full {
            mutator: me(),
            mode: FullMode::ClearAll,
        })
    }

    /// A name is bound to an object.
    pub fn bind(&mut self, name: Name, object: Handle) -> Result<(), Refusal>
        ensures { IsDone K.asking self.old (Ask.Bind 0 name object) result self.new }
    {
        self.does(Ask::Bind {
            mutator: me(),
            name,
            object,
        })
    }

    /// A handle for what a name stands for.
    pub fn find(&mut self, name: Name) -> Result<Handle, Refusal>
        ensures { IsEntry K.asking self.old (Ask.Find 0 name) (handle result) self.new }
    {
        self.gives(Ask::Find {
            mutator: me(),
            name,
        })
    }

    /// A name is given up.
    pub fn unbind(&mut self, name: Name) -> Result<(), Refusal>
        ensures { IsDone K.asking self.old (Ask.Unbind 0 name) result self.new }
    {
        self.does(Ask::Unbind {
            mutator: me(),
            name,
        })
    }

    /// Counts.
    pub fn stat(&mut self) -> Result<Stat, Refusal>
        ensures { IsEntry K.asking self.old (Ask.Stat 0) (counts result) self.new }
    {
        self.counted(Ask::Stat { mutator: me() })
    }

    /// The names that are bound. It takes memory.
    pub fn names(&mut self) -> Result<Items<Name>, Refusal>
        ensures { IsEntry K.asking self.old (Ask.Names 0) (names result) self.new }
    {
        self.named(Ask::Names { mutator: me() })
    }

    /// The notes of the actions that ended, in the order in which they did. It takes memory.
    pub fn notes(&mut self) -> Result<Items<u32>, Refusal>
        ensures { IsEntry K.asking self.old (Ask.Notes 0) (notes result) self.new }
    {
        self.noted(Ask::Notes { mutator: me() })
    }

    /// The actions that failed, and how. It takes memory.
    pub fn faults(&mut self) -> Result<Items<Failure>, Refusal>
        ensures { IsEntry K.asking self.old (Ask.Faults 0) (told_faults result) self.new }
    {
        self.failed(Ask::Faults { mutator: me() })
    }
}
