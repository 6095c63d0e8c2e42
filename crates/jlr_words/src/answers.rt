//! Answers, read from words.
use crate::words::{data_of, fault_of, handle, number, refusal_of};
use jlr_machine::ask::{Answer, Handed, Stat};
use jlr_machine::items::Items;
use jlr_machine::machine::Failure;
use jlr_machine::text::{Name, WriteCount};
use jlr_types::{ActionNo, Rid, Work};
use std::alloc::{AllocError, Global};
use std::str::SplitWhitespace;

/// The answer of these words; none where they are no answer. Those that hold a list, or what a call read, take memory.
///
/// # Errors
/// `AllocError` where there is no memory.
pub fn answer_of(alloc: Global, text: &str) -> Result<Option<Answer>, AllocError> {
    let mut words = text.split_whitespace();
    match words.next() {
        Some("names") => names_of(alloc, &mut words),
        Some("notes") => notes_of(alloc, &mut words),
        Some("faults") => faults_of(alloc, &mut words),
        Some(word) => Ok(short(alloc, word, &mut words)),
        None => Ok(None),
    }
}

fn names_of(alloc: Global, words: &mut SplitWhitespace<'_>) -> Result<Option<Answer>, AllocError> {
    let mut names = Items::new(alloc);
    for word in words {
        if let Some(name) = Name::from_slice(word.as_bytes()) {
            names.push(name)?;
        }
    }
    Ok(Some(Answer::Names(names)))
}

fn notes_of(alloc: Global, words: &mut SplitWhitespace<'_>) -> Result<Option<Answer>, AllocError> {
    let mut notes = Items::new(alloc);
    for word in words {
        notes.push(word.parse().unwrap_or(u32::MAX))?;
    }
    Ok(Some(Answer::Notes(notes)))
}

fn failure_of(word: &str) -> Option<Failure> {
    let (action, fault) = word.split_once(':')?;
    let action = ActionNo::new(action.parse().ok()?);
    let fault = fault_of(fault)?;
    Some(Failure { action, fault })
}

fn faults_of(alloc: Global, words: &mut SplitWhitespace<'_>) -> Result<Option<Answer>, AllocError> {
    let mut faults = Items::new(alloc);
    for word in words {
        if let Some(failure) = failure_of(word) {
            faults.push(failure)?;
        }
    }
    Ok(Some(Answer::Faults(faults)))
}

fn action(words: &mut SplitWhitespace<'_>) -> Option<ActionNo> {
    number(words).map(ActionNo::new)
}

fn rid(words: &mut SplitWhitespace<'_>) -> Option<Rid> {
    number(words).map(Rid::new)
}

fn short(alloc: Global, word: &str, words: &mut SplitWhitespace<'_>) -> Option<Answer> {
    match word {
        "handle" => handle(words).map(Answer::Handle),
        "int" => number(words).map(Answer::Int),
        "data" => data(alloc, words),
        "wrote" => wrote(words),
        "fault" => fault(words),
        "refused" => refused(words),
        "prepared" => rid(words).map(Answer::Prepared),
        "out" => rid(words).map(Answer::Out),
        "stat" => stat(words),
        "job" => job(words),
        _ => alone(word),
    }
}

fn data(alloc: Global, words: &mut SplitWhitespace<'_>) -> Option<Answer> {
    data_of(alloc, words.next()?).map(Answer::Data)
}

fn wrote(words: &mut SplitWhitespace<'_>) -> Option<Answer> {
    number(words).and_then(WriteCount::new).map(Answer::Wrote)
}

fn fault(words: &mut SplitWhitespace<'_>) -> Option<Answer> {
    words.next().and_then(fault_of).map(Answer::Faulted)
}

fn refused(words: &mut SplitWhitespace<'_>) -> Option<Answer> {
    words.next().and_then(refusal_of).map(Answer::Refused)
}

fn stat(words: &mut SplitWhitespace<'_>) -> Option<Answer> {
    let mut counts = [0; 5];
    for count in &mut counts {
        *count = number(words)?;
    }
    let [objects, resources, taken, ok, failed] = counts;
    Some(Answer::Stat(Stat {
        objects,
        resources,
        taken,
        ok,
        failed,
    }))
}

fn work(words: &mut SplitWhitespace<'_>) -> Option<Work> {
    match words.next()? {
        "note" => number(words).map(Work::Note),
        "resource" => rid(words).map(Work::Resource),
        _ => None,
    }
}

fn job(words: &mut SplitWhitespace<'_>) -> Option<Answer> {
    let action = action(words)?;
    let work = work(words)?;
    Some(Answer::Job { action, work })
}

fn alone(word: &str) -> Option<Answer> {
    match word {
        "done" => Some(Answer::Done),
        "already_done" => Some(Answer::AlreadyDone),
        "yes" => Some(Answer::Truth(true)),
        "no" => Some(Answer::Truth(false)),
        "queued" => Some(Answer::Handed(Handed::Queued)),
        "lined" => Some(Answer::Handed(Handed::Lined)),
        "skipped" => Some(Answer::Handed(Handed::Skipped)),
        "nothing" => Some(Answer::Handed(Handed::Nothing)),
        _ => None,
    }
}
