//! What an ask that is not refused leaves, written where the machine lies.
//!
//! Each change is the definition's. What it takes memory for is made before the first change.

pub mod after;
pub mod calls;
pub mod lists;
pub mod making;
pub mod objects;
pub mod queues;
pub mod sessions;
pub mod takes;
