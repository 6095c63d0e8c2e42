//! The parts of a trace file that stand in lists, and what lists hold: slots, names, fields, objects, bindings, jobs,
//! resources, failures. Each is spelled, written and read as the format says, and each reader gives what stands there
//! or the first fault.

pub mod items;
pub mod object;
pub mod record;
pub mod rising;
pub mod tables;
