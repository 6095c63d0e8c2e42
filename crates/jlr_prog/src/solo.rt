//! The book of a session that is alone: its asks, and what the handler and the cleaner do after each.
//!
//! They ask only where something is pending or in line, and each job that is taken up is finished. It relies on the
//! book. Memory is taken by the book.

pub mod solo;

pub use jlr_book::book::Book;
