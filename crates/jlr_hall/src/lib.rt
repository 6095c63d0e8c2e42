//! Sessions and loops that share one heap: a seat for each, one book under one lock, and one history of all that was
//! asked.
//!
//! A hall has a seat for each session, and one each for the marker, the handler and the cleaner. A seat asks by one
//! event at a time: it takes the lock, gives the event to the book and lets the lock go. Nothing is read or written
//! while it is held.
//!
//! Each step of the book's core, with its reply and its resources, stands in one history, which exists in proofs alone
//! and takes no memory. Under the lock lies a token that knows it whole: it is a run of the machine, and the book's
//! trace is its end. Each seat has a token that knows the history up to the seat's last step. So each ask is known to
//! be one step of one history, also where a cut takes its entry away, and `Hall::close` compares nothing.
#![tactic(auto)]

mod chairs;
pub mod closing;
mod dues;
mod effect;
pub mod hall;
mod lock;
pub mod loops;
pub mod port;
pub mod seat;
pub mod step;
pub mod vigil;

pub use jlr_book::book::Book;
pub use jlr_log as history;
