//! Whether the objects, the mutators, the lists and the actions of a machine are in order, part by part: exactly as the
//! definitions say it, and without memory.

pub mod actions;
pub mod limits;
pub mod lists;
pub mod references;
pub mod sessions;
pub mod slots;
