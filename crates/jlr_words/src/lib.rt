//! Events and answers in words, and replies held against words, for the tests of all that events come to.
//!
//! `weak 2 1` asks for a weak reference to what handle 2 holds, on the queue that handle 1 holds; `by 1 weak 2 1` is
//! the same of mutator 1 in place of mutator 0. `new ri` makes an object with a reference field and an integer field,
//! `new` one without fields. `opened 5` tells of an open that gave the resource 5, `opened Denied` of one that failed;
//! `check_in 3 5` of a call that wrote three bytes and gives resource 5 back, `check_in data 00ff 5` of one that read
//! two, `check_in Other 5` of one that failed. `mark 3` is a piece of marking with three ticks, `mark` one with 64.
//! What is no event is none.
//!
//! `handle 3`, `yes`, `data 00ff`, `data -`, `names a b`, `notes 7 8`, `faults 1:Other`, `stat 2 0 1 1 0`, `job 1 note
//! 7`, `job 1 resource 0`, `refused NoHandle` are answers.
#![tactic(auto)]

mod answers;
mod calls;
mod events;
mod replies;
mod verbs;
mod words;

pub use answers::answer_of;
pub use events::{event_of, parts_of};
pub use replies::{handle_in, is_reply};
