//! Lists of slots, each first in, first out. They are linked through one `column` with a place for each slot, so that
//! what stands in a list takes no memory of its own: a slot stands in one list at most, and once.
//!
//! No call but `Links::new` and `image` takes memory.
#![tactic(auto)]

pub mod column;
mod links;

pub use links::Links;
