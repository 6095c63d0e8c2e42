//! Laws of the machine: that a legal entry leaves a well-formed machine, what a refusal leaves, in which order refusals
//! come, what a collection clears, and what makes a set kept an allowed collection.
//!
//! Functions with empty bodies whose contract is the law, and machines worked by evaluation.
#![tactic(auto)]

pub mod laws;
pub mod rows;
