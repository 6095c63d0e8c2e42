//! Full collections: what is marked is what the roots reach by strong edges and by the soft edges that a policy keeps;
//! all else is cleared and removed.
//!
//! Marking is whole here, and takes no memory: the stack of grey slots was made with the heap.
#![tactic(auto)]

mod collection;
mod mark;
mod sweeping;

pub use collection::full;
pub use sweeping::sweep;
