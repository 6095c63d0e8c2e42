//! Which collections are legal, what they leave, and what was seen: computed as the definitions say it.
//!
//! Memory is taken for the sets of what is reachable.
#![tactic(auto)]

pub mod collection;
pub mod edges;
pub mod left;
pub mod legal;
pub mod listed;
pub mod reached;
pub mod roots;
pub mod seen;
