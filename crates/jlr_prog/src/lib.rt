//! A session over a heap of its own: its lines are answered one after the other over a book, which is given back.
//!
//! `run_over` carries the headline for a session: all its entries are a run from the empty machine that keeps the
//! promises. It relies on the definition of a session, and on a book that is settled
//! after each ask (`solo`).
#![tactic(auto)]

pub mod run;
pub mod solo;

pub use crate::solo::Book;
