//! The client of a server: a session from a terminal, or from a pipe.
//!
//! On a terminal a line is for the server, or for the client itself; what goes to the server is what was typed. From a
//! pipe the bytes go in and out unchanged. The manual that it tells is in `manual`.
#![tactic(auto)]

pub mod client;
mod help;
pub mod manual;
mod outgoing;
mod pipe;
mod terminal;
pub mod typed;
