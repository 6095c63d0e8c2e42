//! The core, and whole lists of events: `run` takes a list of events from the empty machine and carries the headline.
//!
//! The core itself, which takes one event at a time, is `engine::Core`, from `jlr_steps`.
#![tactic(auto)]

pub mod run;

pub use jlr_steps::engine;
