//! A heap for one program. Each call is one event of the core, which gets the room of its choice, and no history is
//! kept of it. What guards hold stays the program's own: a file, a socket, or a number by which the program knows one.
//! The heap hands each back once. It relies on the core alone. Memory is taken when it is made, and by the asks of
//! which the core says so. It keeps the promise of `IsStep`, and that each answer is of the kind of its ask.
//! What a program in C holds of such a heap is in `handle`.
#![tactic(auto)]

pub mod handle;
mod unrecorded;

pub use unrecorded::Unrecorded;

/// A heap whose guards hold tokens, numbers by which the program knows what is its own.
pub type Embedded = Unrecorded<u64>;
