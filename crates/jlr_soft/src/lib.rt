//! The soft policy: which soft references keep what they refer to.
//!
//! When a soft reference is cleared is left to the collector, which is encouraged not to clear one that was made or
//! used a short time ago (package `java.lang.ref`, class `SoftReference`). Time is counted here in collections: a soft
//! reference keeps its referent as long as fewer collections than the soft age have finished since it was made or last
//! gave its referent. Before a heap is said to be full, and where it is asked for, all soft references are cleared.
//!
//! The count of finished collections is a `u64` that the caller keeps. It saturates at 2^64 - 1, and no reference is
//! older than the count, so that a difference of two counts is never below 0.
#![tactic(auto)]

mod policy;

pub use policy::{Mode, Policy};
