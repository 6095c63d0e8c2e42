//! One history that many threads write and that only grows. It exists in proofs alone.
//!
//! The keeper's token knows the history whole and lies under the lock. Each seat's token knows a beginning of it, after
//! which the history has no entry of that seat. So what a seat is told under the lock stays known once the lock is let
//! go.
//!
//! The crate says nothing of what an entry is: that is a type parameter, of which only the seat is asked. It relies on
//! the library's table of atomic words: the tokens are seats of a table of one word, which is read and never written. A
//! step of the tokens is three plain loads of that word; a token has no bytes, and an entry takes no memory. The table
//! of one word is all that is taken, once a history.
#![tactic(auto)]

mod rule;
mod tokens;

pub use rule::{Naming, Owned, Telling, View};
pub use tokens::{Blank, Keeper, Log, Pass};
