//! The line protocol: lines out of pieces, commands out of lines, reply lines out of answers.
//!
//! Nothing here takes memory, and nothing here knows what a command does.
#![tactic(auto)]

pub mod command;
mod cut;
mod integer;
mod layout;
mod number;
pub mod path;
pub mod pieces;
pub mod reply;
pub mod spelling;
pub mod stream;
mod word;
