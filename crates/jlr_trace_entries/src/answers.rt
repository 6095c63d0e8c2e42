//! Answers of a trace file: how they are spelled, written and read.
//!
//! An answer that is written is spelled so and read back as it was; else the first fault is told. It relies on the
//! fields and parts of a file. Memory is taken for lists and for what a call read, and by the bytes that are written.

mod detail;
pub mod reading;
mod tag;
pub mod writing;
