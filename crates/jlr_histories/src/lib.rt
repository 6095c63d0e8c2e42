//! Laws of whole runs of the machine: lives of references and resources, jobs and their outcomes, and the promises of
//! the headline. Laws of open cycles are in `cycles`.
//!
//! Functions with empty bodies whose contract is the law, and runs worked by evaluation.
#![tactic(auto)]

pub mod ahead;
pub mod cycles;
pub mod laws;
pub mod rows;
