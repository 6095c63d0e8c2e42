//! What a core keeps, with what most asks need: checks, collections, and new objects; cycles; and the asks on files and
//! sockets.
//!
//! Each ask here is refused first as the machine lists it, and changes nothing then. It relies on the heap, on marking
//! and collections, and on the cleaner. Memory is taken by `State::new`, by images, by `State::prepare`, and for the
//! elements of an array.
#![tactic(auto)]

mod collect;
mod cycles;
mod handles;
mod jobs;
mod prepare;
mod resources;
pub mod state;
