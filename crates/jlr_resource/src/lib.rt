//! The files and sockets of the heap that have not ended: each at a place of its own, by whose number, its Rid, it is
//! named.
//!
//! A resource lies in the table while it is Idle, and nowhere else: it comes in when its open has ended well, goes out
//! to each call, comes back after it, and goes out for good when it is closed. So the table never finishes one, and
//! never copies one. A place is used again after its resource ended; the action number beside it names the resource for
//! good.
//!
//! Contracts see the list of resources that the machine has, each with its value where it lies here. No call but
//! `Table::prepare` and `Table::image` takes memory.
#![tactic(auto)]

mod place;
mod table;

pub use jlr_machine::machine::ResourceState as State;
pub use table::Table;
