//! Sessions: the lines of a reader are carried out one after the other, and each is answered by one line of a writer.
//!
//! `serve` has the whole session over a `Port` and a device. Below it, `shell` knows lines, answers and ends, and what
//! a command does is up to a `CarryOut`.
#![tactic(auto)]

mod asks;
mod call;
pub mod carry;
mod event;
pub mod job;
pub mod port;
mod reply;
pub mod serve;
pub mod shell;
mod turn;
