//! The machine in code: one event at a time, whose reply and state are an entry of the machine.
//!
//! A core is the state of `jlr_state` with all asks over it. `Core::step` takes any event; the asks that carry no
//! resource have `Core::answer`, which is lent the ask, and what is frequent a call of its own. Memory is taken by
//! `Core::new`, and by the asks of which `Core::step` says so. A whole list of events is run by `jlr_core`.
#![tactic(auto)]

mod cleaning;
mod counts;
mod dispatch;
pub mod engine;
mod handles;
pub mod laws;
mod names;
mod objects;
mod queries;
mod references;
