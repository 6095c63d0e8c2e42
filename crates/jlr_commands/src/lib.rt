//! The commands of the program, and what comes of each.
//!
//! `run` and `serve` join a session, or a hall, with its history and its save; `audit` and `stats` read one. Contracts
//! say that what is saved is the history, and what is told the verdict; the rest is wiring, which tests hold. The bytes
//! of a history are made in `saving`.
#![tactic(auto)]

pub mod audit;
mod descriptors;
mod history_file;
pub mod manual;
pub mod program;
pub mod progress;
mod reach;
pub mod save;
mod saved_file;
pub mod saving;
pub mod serve;
pub mod session;
pub mod stats;
mod stop;
mod text;
