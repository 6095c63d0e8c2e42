//! Cleaning actions: those that wait to be taken up, the jobs that run, what became of the others, and the files and
//! sockets that they finish.
//!
//! A cleaning action is registered at the place of its cleanable, and waits there until it is taken up, which is once.
//! It is then a job of its taker, a mutator or the cleaner, until the taker tells its outcome (class `Cleaner`). At
//! most one job of a taker runs. Outcomes are counted, and the last 256 notes and faults are kept. The table of files
//! and sockets lies inside, since a take-up moves one out of it and an outcome ends it; the table's other calls are
//! passed on. What a cleanable refers to, and whether it is pending or lined up, is the heap's matter and not known
//! here.
//!
//! Contracts see the fields of the machine that are kept here. No call but `Cleaner::new`, `Cleaner::starting_at`,
//! `Cleaner::prepare` and those that copy a list takes memory.
#![tactic(auto)]

mod cleaner;
mod job;
mod latest;
mod outcomes;
mod running;
mod waiting;

pub use cleaner::{Cleaner, Totals};
pub use job::Job;
