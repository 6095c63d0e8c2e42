//! The objects of the heap, by slot: what lies in the cells that are occupied.
//!
//! A collection says which cells stay occupied and writes none of the others: they are condemned, lie as they are, and
//! become free once they are swept, some of them or all. A sweep writes no cell either, but those of arrays, whose
//! memory it gives back: the cells that hold an object are a set, and those that are not free another (`occupancy`).
//!
//! Contracts see the machine's table of objects, and how many cells are condemned. No call but `Objects::new` and
//! `image` takes memory; an array brings its own.

mod arrays;
mod lists;
mod objects;
mod occupancy;
mod search;

pub use objects::Objects;
