//! Rows of words: a call, an arrow, and its answer as Debug shows it.
//!
//! `prepare 1 -> Ok(Rid(0))` asks for a place for action 1. A call whose conditions do not hold is not made, and its
//! answer is `None` or `false`. A line that begins with `#` names the list that follows, which begins with `new`. The
//! lists of a file are one text, since each text of its own is proved apart.
use jlr_device::Finished;
use jlr_resource::State;
use jlr_types::{Fault, Refusal, Rid};
use std::alloc::{AllocError, Global};
use std::fmt;
use std::fmt::Debug;
use std::str::SplitWhitespace;
use std::test::Fail;

/// What a call is answered.
#[derive(Clone, Copy)]
pub(super) enum Got {
    Truth(bool),
    Number(u64),
    Given(Option<u64>),
    Opened(Result<(), Fault>),
    /// How many bytes were read, and the buffer.
    Read(Result<usize, Fault>, [u8; 4]),
    Wrote(Result<usize, Fault>),
    Ended(Finished),
    State(Option<State>),
    Place(Result<Rid, Refusal>),
    Room(Result<(), Refusal>),
    /// How many jobs were taken up, ended well and failed.
    Totals(u64, u64, u64),
}

impl Debug for Got {
    fn fmt<W: fmt::Write>(&self, f: &mut fmt::Formatter<W>) -> fmt::Result {
        match self {
            Got::Truth(truth) => truth.fmt(f),
            Got::Number(number) => number.fmt(f),
            Got::Given(given) => given.fmt(f),
            Got::Opened(outcome) => outcome.fmt(f),
            Got::Read(count, bytes) => (count, bytes).fmt(f),
            Got::Wrote(count) => count.fmt(f),
            Got::Ended(finished) => finished.fmt(f),
            Got::State(state) => state.fmt(f),
            Got::Place(place) => place.fmt(f),
            Got::Room(room) => room.fmt(f),
            Got::Totals(taken, ok, failed) => (taken, ok, failed).fmt(f),
        }
    }
}

/// What the calls of a list are made on.
pub(super) trait Stage {
    /// What a call is answered; none where the words are no call.
    fn answered(&mut self, name: &str, words: &mut SplitWhitespace<'_>) -> Option<Got>;

    /// What a call that copies a list is answered; no text where the name is none of a list.
    fn listed(&self, alloc: Global, _name: &str) -> Result<String, AllocError> {
        Ok(String::new(alloc))
    }
}

// What the call is answered, of which no word may be left.
fn called<S: Stage>(stage: &mut S, call: &str) -> Option<Got> {
    let mut words = call.split_whitespace();
    let got = match words.next() {
        Some(name) => stage.answered(name, &mut words),
        None => None,
    };
    match words.next() {
        Some(_) => None,
        None => got,
    }
}

fn shown<S: Stage>(stage: &mut S, alloc: Global, call: &str) -> Result<String, AllocError> {
    match called(stage, call) {
        Some(got) => format!(in alloc; "{got:?}"),
        None => stage.listed(alloc, call),
    }
}

// Whether the call of a row is answered as it says. No call is answered by no text.
fn holds<S: Stage>(stage: &mut S, alloc: Global, row: &str) -> Result<bool, AllocError> {
    let (call, wanted) = row.split_once(" -> ").unwrap_or((row, "no answer"));
    let shown = shown(stage, alloc, call)?;
    let holds = shown.as_str() == wanted;
    drop(shown);
    Ok(holds)
}

/// Each row of the text, list by list.
pub(super) fn play<S: Stage>(stage: &mut S, alloc: Global, lists: &str) -> Result<(), Fail> {
    let mut list = "";
    for line in lists.lines() {
        let row = line.trim();
        match row.strip_prefix("# ") {
            Some(name) => list = name,
            None => play_row(stage, alloc, list, row)?,
        }
    }
    Ok(())
}

fn play_row<S: Stage>(stage: &mut S, alloc: Global, list: &str, row: &str) -> Result<(), Fail> {
    if row.is_empty() || holds(stage, alloc, row)? {
        return Ok(());
    }
    Err(Fail::new(format_args!("{list}: {row}")))
}
