//! Tests of the command line, the manual and the client; of whole sessions, by their commands and what they are answered
//! (`sessions`); and of how the program's sessions and audits end, and what is saved (`program`).
//!
//! They stand in a crate of their own, over public calls, so that what they test is proved once and not a second time
//! with them.
#![tactic(auto)]

#[cfg(test)]
mod tests;
