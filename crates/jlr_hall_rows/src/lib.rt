//! Tests of a book, and of the hall over it: what is asked, alone and by seats in turn, what each is answered, and what
//! the history shows then.
//!
//! They stand in a crate of their own, over public calls, so that what they test is proved once and not a second time
//! with them.
#![tactic(auto)]

#[cfg(test)]
mod tests;
