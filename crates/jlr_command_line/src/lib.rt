//! The command line of the program: what its words ask for, why the program ends with a status other than 0, and how it
//! says so.
//!
//! It relies on `clap` for options and on nothing of the heap. Contracts say the status of each end of a session.
#![tactic(auto)]

pub mod arguments;
mod commands;
pub mod fault;
pub mod reason;
pub mod report;
