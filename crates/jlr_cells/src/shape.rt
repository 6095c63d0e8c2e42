//! The kinds of objects, and what a new object is.
use jlr_types::{ActionNo, Layout, RefKind, Rid, Slot, Work};

/// Of which kind an object is.
#[derive(Clone, Copy, PartialEq, Eq, Debug)]
pub enum Kind {
    /// An object with fields.
    Plain,
    /// An array of references.
    Array,
    /// A reference object of this strength.
    Reference(RefKind),
    /// A reference queue.
    Queue,
    /// A cleaner.
    Cleaner,
    /// A registered cleaning action.
    Cleanable,
    /// What stands for one open file or one connected socket.
    Guard,
}

/// A new object: its kind and body.
#[derive(Drop)]
pub enum Shape {
    /// An object with these fields, each 0 or null.
    Plain(Layout),
    /// A reference to an object, or to none.
    Reference {
        /// How strongly it holds its referent.
        kind: RefKind,
        /// What it refers to.
        referent: Option<Slot>,
        /// The queue that it is registered with, if any.
        queue: Option<Slot>,
    },
    /// A reference queue without members.
    Queue,
    /// A cleaner, with which cleaning actions are registered.
    Cleaner,
    /// A cleaning action that is armed: it runs once its referent is gone.
    Cleanable {
        /// What it waits for.
        referent: Option<Slot>,
        /// Names it for good.
        action: ActionNo,
        /// What it does.
        work: Work,
    },
    /// Stands for one open file or one connected socket.
    Guard {
        /// The place of that file or socket.
        rid: Rid,
        /// The cleanable that finishes it.
        cleanable: Slot,
    },
}
