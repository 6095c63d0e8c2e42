//! The object graph: the objects, the roots, the pending list and the cleaner's line, with a clock of collections for
//! the soft policy and a mark set for the collector.
//!
//! All calls that make or remove a strong edge stand here: the fields of plain objects, the queue of a reference while
//! it may still be added to it, the members of a queue, the pending list and the line. So do those that make or remove
//! a root of a mutator: its handles, the fence of its call, and the names. The barriers of a collector that marks in
//! steps stand in these calls: what is cut off is shaded.
//!
//! No call but `Heap::new`, `Heap::names` and the images takes memory.
#![tactic(auto)]

mod cleanables;
mod clock;
mod guards;
mod heap;
mod line;
mod lists;
mod marking;
mod names;
mod pending;
mod queues;
mod sessions;
mod shade;

pub use heap::Heap;
