//! What comes to the core and what goes back, with the resources that they carry, and the asks and answers that they
//! are without them.
//!
//! An event that brings no resource is its ask. Nothing here takes memory.
#![tactic(auto)]

pub mod event;
