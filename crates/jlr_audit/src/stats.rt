//! The figures of a saved history: its objects over time, collections, queues, actions, files and asks.
//!
//! They are taken while the history is audited, so that each entry is read once.

mod asks;
mod collections;
pub mod figures;
pub mod json;
mod kinds;
pub mod table;
