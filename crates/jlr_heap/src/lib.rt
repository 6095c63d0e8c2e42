//! The heap in the same process, for a program in Rattle: one type, with a method for each thing that is asked, and
//! typed handles. A method gives a plain `Result` with the refusal by name, and its contract is one line: it is an
//! entry, `IsEntry old ask answer new`, whose answer it tells, or the two entries of a call on a file or a socket.
//! Nothing is required of a caller. After each call the handler's steps are made, unless the program makes them
//! itself. What answers is a `Keeper`: `Unrecorded` keeps no history, and `Recorded` one in a book. What guards
//! hold is the program's own: files and sockets, or numbers by which it knows them. Memory is taken by `new`,
//! `prepare` and what opens, `array`, `bind` and the lists, as the core says.
#![tactic(auto)]

pub mod asks;
mod commands;
pub mod failed;
pub mod files;
pub mod guards;
pub mod handles;
pub mod heap;
pub mod jobs;
pub mod keeper;
pub mod recorded;
mod told;

pub use heap::Heap;
use jlr_device::real::RealResource;
use jlr_embed::Unrecorded;

/// A heap whose guards hold numbers by which the program knows what is its own. No history is kept.
pub type TokenHeap = Heap<Unrecorded<u64>>;

/// A heap whose guards hold files and sockets of the system. No history is kept.
pub type FileHeap = Heap<Unrecorded<RealResource>>;
