//! The plain program: which entries are legal, and what they leave, computed as the definitions say it.
//!
//! It relies on the definitions and on the parts of the program below, and knows nothing of the core. A `Record` is an
//! entry without the answer that `replay_answer` gives once more; `follow_plain` applies it to a machine where it lies,
//! and leaves that as it was where memory fails. Memory is taken for copies, for lists and for collections.
#![tactic(auto)]

pub mod advance;
pub mod apply;
pub mod collecting;
pub mod empty;
pub mod entry;
pub mod follow;
pub mod following;
pub mod record;
pub mod replay;
pub mod room;
pub mod run;
