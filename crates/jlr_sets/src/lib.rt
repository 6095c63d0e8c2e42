//! Sets of slots, a bit for each: those that an entry names, and those of the cells of a heap.
//!
//! They are taken word by word. Memory is taken where a set is made or copied.
#![tactic(auto)]

pub mod cell_set;
pub mod slots;
mod words;
