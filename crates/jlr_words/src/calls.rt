//! Events with an outcome.
use crate::words::{byte, data_of, fault_of, number};
use jlr_event::event::Event;
use jlr_machine::ask::{Ask, CallOutcome, Outcome};
use jlr_machine::text::WriteCount;
use jlr_types::{ActionNo, Fault, Mutator};
use std::alloc::Global;
use std::str::SplitWhitespace;

fn ended(word: &str) -> Option<Outcome> {
    match word {
        "ok" => Some(Outcome::Ok),
        _ => fault_of(word).map(Outcome::Failed),
    }
}

pub(crate) fn finish(words: &mut SplitWhitespace<'_>) -> Option<Event<u32>> {
    let by = byte(words)?;
    let action = ActionNo::new(number(words)?);
    let outcome = ended(words.next()?)?;
    Some(Event::ask(Ask::Finish {
        by,
        action,
        outcome,
    }))
}

fn opening(word: &str) -> Option<Result<u32, Fault>> {
    match fault_of(word) {
        Some(fault) => Some(Err(fault)),
        None => word.parse().ok().map(Ok),
    }
}

pub(crate) fn opened(mutator: Mutator, words: &mut SplitWhitespace<'_>) -> Option<Event<u32>> {
    let outcome = opening(words.next()?)?;
    Some(Event::Opened { mutator, outcome })
}

fn written(count: u8) -> Option<CallOutcome> {
    WriteCount::new(count).map(CallOutcome::Wrote)
}

fn called(alloc: Global, word: &str, words: &mut SplitWhitespace<'_>) -> Option<CallOutcome> {
    if word == "data" {
        return data_of(alloc, words.next()?).map(CallOutcome::Data);
    }
    match fault_of(word) {
        Some(fault) => Some(CallOutcome::Failed(fault)),
        None => written(word.parse().ok()?),
    }
}

pub(crate) fn check_in(
    alloc: Global,
    mutator: Mutator,
    words: &mut SplitWhitespace<'_>,
) -> Option<Event<u32>> {
    let word = words.next()?;
    let outcome = called(alloc, word, words)?;
    let resource = number(words)?;
    Some(Event::CheckIn {
        mutator,
        outcome,
        resource,
    })
}
