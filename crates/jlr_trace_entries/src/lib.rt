//! The sections of a trace file: the image at its head, and the entries behind it, of which each is a section of its
//! own, with its ask (`asks`) and its answer (`answers`). How they stand in a whole file is said by `jlr_trace`.
#![tactic(auto)]

pub mod answers;
pub mod asks;
mod choice;
pub mod entry;
pub mod image;
mod places;
pub mod writing;
