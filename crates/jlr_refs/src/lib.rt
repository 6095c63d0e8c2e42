//! The calls on references, queues and cleanables, and the steps of the handler and on the cleaner's line, in the
//! machine's words.
//!
//! It relies on `jlr_barrier`, which shades what is cut off. Nothing here takes memory.
#![tactic(auto)]

mod cleanables;
mod handler;
mod references;

pub use cleanables::take_lined;
pub use handler::hand_over;
pub use references::{clear, enqueue, get, is_enqueued, poll, refers_to};
