//! The history of a heap, beside the core that answers: each event is an entry of one legal run.
//!
//! A book makes the place of an entry before it asks the core, and declines an ask for which there is no memory or no
//! number; so nothing changes that is not told. It keeps each entry as a `Record`, without an answer that the machine
//! gives once more. At its limit it cuts: the machine becomes the image from which the history goes on. It relies on
//! the core and on the image (`image`), which follows behind. Memory is taken for records, and for the image by a cut.
#![tactic(auto)]

pub mod book;
mod cut;
mod entry;
pub mod event;
pub mod image;
mod room;
