//! The machine before a trace, which follows behind the history.
//!
//! A cut hands a trace over, and later steps apply its entries one by one, by the plain program; contracts see the
//! machine where all of it leads. Memory is taken by a copy, and by what an entry makes; where that fails the image
//! stays as it was.

mod cells;
mod following;
pub mod image;
