//! The history of a book as a trace file: its bytes are the one spelling of it, and its verdict is legal.
//!
//! It relies on the book and on the writer of trace files. Memory is taken for the bytes and for a copy of the image.

pub mod file;
