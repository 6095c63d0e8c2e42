//! An array in progress.

use jlr_types::Slot;

/// An array of which some elements were followed, and not all.
#[derive(Clone, Copy)]
pub struct Part {
    /// Where it lies.
    pub slot: Slot,
    /// The place of the first element that is still to be followed.
    pub place: u16,
}
