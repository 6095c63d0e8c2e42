//! Marking in steps: a cycle begins with the roots, and each piece of it follows a few grey cells. Between two pieces
//! the program goes on, and what it does to the graph keeps the marks a snapshot (see `jlr_barrier`).
//!
//! Nothing is to be done where a cycle is given up: the marks stay a snapshot, and the next cycle begins with none.
#![tactic(auto)]

mod cycle;
mod edges;

pub use cycle::{begin, mark};
pub use edges::follow;
