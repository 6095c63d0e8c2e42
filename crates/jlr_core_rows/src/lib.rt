//! Tests of the core, by lists of events and what each is answered (`events`); of the line protocol and of the shell of
//! a session: lines, commands and their answers, and readers, writers and devices that fail.
//!
//! They stand in a crate of their own, over public calls, so that what they test is proved once and not a second time
//! with them.
#![tactic(auto)]

#[cfg(test)]
mod tests;
