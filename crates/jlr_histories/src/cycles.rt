//! Laws of open cycles: what was seen, and the machines for which a core stands.
//!
//! Functions with empty bodies whose contract is the law, and runs worked by evaluation.

pub mod laws;
pub mod rows;
