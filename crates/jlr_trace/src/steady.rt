//! What is read from a beginning of the bytes is read from all of them: so a file is read as it comes.
//!
//! Functions with empty bodies whose contract is the law.

pub mod laws;
