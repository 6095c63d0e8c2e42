//! The roots of the heap that mutators make: per joined mutator a table of handles, and the fence of its call in
//! flight; and the names that mutators gave to objects.
//!
//! A member for each session that may be joined, with its table of 251 handle places side by side, of which place 0,
//! null, holds nothing. All tables are made by `Roots::new`, so that joining takes no memory and leaving gives none
//! back. A collector walks the places of all members in one pass, member by member: each one's handles, and last its
//! fence.
//!
//! Contracts see the roots as the machine's table of mutators, and the names as its list of bindings. No call but
//! `Roots::new`, `Names::new` and the copies (`image`, `names`) takes memory.
#![tactic(auto)]

mod handles;
mod member;
mod names;
mod roots;

pub use names::{NAME_LIMIT, Names};
pub use roots::Roots;
