//! What changes in a reference or in a cleanable, whose other parts stay.
use jlr_machine::object::{CleanState, RefState};
use jlr_types::Slot;

/// What changes in a reference.
#[derive(Clone, Copy)]
pub(crate) enum RefChange {
    /// It comes into another state.
    State(RefState),
    /// It is registered with no queue any more.
    NoQueue,
    /// It loses its referent.
    NoReferent,
}

/// What changes in a cleanable.
#[derive(Clone, Copy)]
pub(crate) enum CleanChange {
    /// It comes into another state.
    State(CleanState),
    /// It loses its referent.
    NoReferent,
    /// It waits for an object from now on.
    Referent(Slot),
    /// It has done what it was for: it is spent, and has no referent any more.
    Spent,
}
