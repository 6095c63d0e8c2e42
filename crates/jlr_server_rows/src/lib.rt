//! Tests of a server: clients beside each other and one after the other, what each is answered, and what the history
//! shows then.
//!
//! They stand in a crate of their own, over public calls, so that what they test is proved once and not a second time
//! with them.
#![tactic(auto)]

#[cfg(test)]
mod tests;
