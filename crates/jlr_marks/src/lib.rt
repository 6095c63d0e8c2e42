//! Which cells of a heap a collector has found: white, grey and black cells, and the list of those that it has to look
//! at again.
//!
//! A cell that is not marked is white. A marked cell is grey while its edges were not all followed, and black from then
//! on. The elements of an array are followed part by part: one array at most is in progress, which is grey, and comes
//! next before all other grey cells. The marker notes the black references and cleanables whose referent was white when
//! it came by: they are discovered.
//!
//! No call but `Marks::new` takes memory: only marked cells are grey or discovered, and none is both, so no list is
//! ever full.
#![tactic(auto)]

mod marks;
mod part;

pub use marks::Marks;
pub use part::Part;
