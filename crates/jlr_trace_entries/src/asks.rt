//! Asks of a trace file: how they are spelled, written and read, in both versions.
//!
//! An ask that is written is spelled so and read back as it was; else the first fault is told. It relies on the fields
//! and parts of a file. Memory is taken for what a call read, and by the bytes that are written.

pub mod ask;
mod field;
mod layout;
mod outcome;
