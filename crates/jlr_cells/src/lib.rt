//! The cells of the heap, as they lie, and in `objects` the objects of those that are occupied.
//!
//! One flat vector of cells, one for each slot: what was put there last, whether it still counts or not. A cell is 80
//! bytes: its kind, then for each of eight fields what its word is for, then the words. The members of a queue are a
//! list through a column, so that a queue takes no memory for them and its ends cost the same at any length.
//!
//! Beside the cells stand columns: the kinds of the objects, and the links of plain objects, 16 bytes for the first
//! four fields and 16 in a column of their own for the others. A collection reads little else, and no cell of a plain
//! object. The elements of an array lie in memory of their own, four bytes each, which is given back when the array's
//! cell is written.
//!
//! Contracts see a table of objects. No call but `Store::new`, `Elements::new` and `image` takes memory.
#![tactic(auto)]

mod cell;
mod change;
mod columns;
mod elements;
mod fields;
mod kinds;
mod links;
pub mod objects;
mod shape;
mod store;

pub use elements::Elements;
pub use links::{Links, Visited};
pub use shape::{Kind, Shape};
pub use store::Store;
