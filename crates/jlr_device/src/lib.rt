//! Files and sockets, and what stands for them in tests: behind two traits whose calls count their failures.
//!
//! A `Device` opens files and joins sockets; a `Resource` is one of them. Each keeps a count of the calls that answered
//! a fault. A call that answers one raises the count by exactly one, and any other call leaves it, so a fault is told
//! only where a call failed. A count that is at its last value counts no more: then no call is made, and `guarded` has
//! the forms that answer `Other` in its place.
//!
//! `fenced` puts a device in front of another, which lets through only allowed paths; `places` is what it asks of the
//! system.
//!
//! No call takes an allocator. What the system does inside a call may want memory; where it has none, the call fails
//! with `Other`.
#![tactic(auto)]

mod device;
pub mod fenced;
pub mod gate;
pub mod guarded;
mod path;
pub mod places;
pub mod real;
mod resource;
pub mod retry;
pub mod script;
mod waiting;

pub use device::{Device, Mode};
pub use resource::{Finished, Resource};
