//! The manual of the line protocol: the forms of commands, with their operands, replies and refusals, as a table and as
//! pages.
//!
//! The lines of the forms are proved to be those that the protocol reads.

pub mod form;
pub mod law;
pub mod operand;
pub mod refusal;
pub mod table;
