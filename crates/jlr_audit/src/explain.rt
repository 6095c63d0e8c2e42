//! Why an audit finds a history illegal, in words. What is said here is held by tests; the verdict is the audit's.
//!
//! It relies on the plain program, of which it asks each rule in turn. Memory is taken for the sentence.

mod asks;
mod due;
pub mod explainer;
mod history;
mod refusals;
mod rules;
