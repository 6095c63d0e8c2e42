//! Replies, held against words.
use crate::words::{bytes_of, fault_of, number, refusal_of};
use jlr_event::event::Reply;
use jlr_machine::ask::{Answer, Handed, Stat};
use jlr_machine::items::Items;
use jlr_machine::machine::Failure;
use jlr_machine::text::Name;
use jlr_types::{ActionNo, Fault, Progress, Refusal};
use std::str::SplitWhitespace;

/// Whether a reply is the one of these words: `handle 3`, `yes`, `refused NoHandle`, `job 1 6` with the resource 6,
/// `marked done`. A resource that comes with a refusal stands behind it. Of a list there is its length, of notes then
/// the last and the first, of faults the last, of names the first letter of the first; of counts the objects, the
/// resources, and what was taken up, ended well and failed. What is left out of a list or of the counts is not looked
/// at.
pub fn is_reply(reply: &Reply<u32>, told: &str) -> bool {
    let mut words = told.split_whitespace();
    match words.next() {
        Some(word) => is_told(reply, word, &mut words) && words.next().is_none(),
        None => false,
    }
}

/// The number of the handle that a reply gives.
pub fn handle_in(reply: &Reply<u32>) -> Option<u8> {
    match reply {
        Reply::Answered { answer, .. } => match answer {
            Answer::Handle(handle) => Some(handle.number()),
            _ => None,
        },
        Reply::Marked(_) => None,
    }
}

fn is_told(reply: &Reply<u32>, word: &str, words: &mut SplitWhitespace<'_>) -> bool {
    match reply {
        Reply::Answered { answer, resource } => is_answer(answer, *resource, word, words),
        Reply::Marked(progress) => {
            word == "marked" && words.next() == Some(progress_word(*progress))
        }
    }
}

fn is_answer(
    answer: &Answer,
    resource: Option<u32>,
    word: &str,
    words: &mut SplitWhitespace<'_>,
) -> bool {
    word == answer_word(answer) && has_parts(answer, resource, words)
}

// The word that an answer begins with.
fn answer_word(answer: &Answer) -> &'static str {
    match answer {
        Answer::Done => "done",
        Answer::AlreadyDone => "already_done",
        Answer::Refused(_) => "refused",
        Answer::Job { .. } => "job",
        Answer::Out(_) => "out",
        Answer::Prepared(_) => "prepared",
        Answer::Truth(truth) => truth_word(*truth),
        Answer::Handed(handed) => handed_word(*handed),
        Answer::Handle(_) => "handle",
        Answer::Int(_) => "int",
        Answer::Wrote(_) => "wrote",
        Answer::Faulted(_) => "fault",
        Answer::Data(_) => "data",
        Answer::Stat(_) => "stat",
        Answer::Notes(_) => "notes",
        Answer::Faults(_) => "faults",
        Answer::Names(_) => "names",
    }
}

// Whether the words behind the first tell the parts of an answer.
fn has_parts(answer: &Answer, resource: Option<u32>, words: &mut SplitWhitespace<'_>) -> bool {
    match answer {
        Answer::Refused(refusal) => is_refused(*refusal, resource, words),
        Answer::Job { action, .. } => is_job(*action, resource, words),
        Answer::Out(_) => is_out(resource, words),
        Answer::Handle(handle) => is_number(u64::from(handle.number()), words),
        Answer::Int(value) => is_int(*value, words),
        Answer::Wrote(count) => is_number(u64::from(count.number()), words),
        Answer::Faulted(fault) => is_fault(*fault, words),
        Answer::Data(data) => is_data(data.as_slice(), words),
        Answer::Stat(stat) => is_stat(stat, words),
        Answer::Notes(notes) => are_notes(notes, words),
        Answer::Faults(faults) => are_faults(faults, words),
        Answer::Names(names) => are_names(names, words),
        _ => true,
    }
}

fn is_refused(refusal: Refusal, resource: Option<u32>, words: &mut SplitWhitespace<'_>) -> bool {
    is_refusal(refusal, words) && number(words) == resource
}

fn is_job(action: ActionNo, resource: Option<u32>, words: &mut SplitWhitespace<'_>) -> bool {
    is_number(action.number(), words) && number(words) == resource
}

fn is_out(resource: Option<u32>, words: &mut SplitWhitespace<'_>) -> bool {
    resource.is_some() && number(words) == resource
}

fn is_number(wanted: u64, words: &mut SplitWhitespace<'_>) -> bool {
    number(words) == Some(wanted)
}

fn is_int(wanted: i64, words: &mut SplitWhitespace<'_>) -> bool {
    number(words) == Some(wanted)
}

fn truth_word(truth: bool) -> &'static str {
    if truth { "yes" } else { "no" }
}

fn handed_word(handed: Handed) -> &'static str {
    match handed {
        Handed::Queued => "queued",
        Handed::Lined => "lined",
        Handed::Skipped => "skipped",
        Handed::Nothing => "nothing",
    }
}

fn progress_word(progress: Progress) -> &'static str {
    match progress {
        Progress::More => "more",
        Progress::Done => "done",
        Progress::Idle => "idle",
    }
}

fn is_refusal(refusal: Refusal, words: &mut SplitWhitespace<'_>) -> bool {
    match words.next() {
        Some(word) => refusal_of(word) == Some(refusal),
        None => false,
    }
}

fn is_fault(fault: Fault, words: &mut SplitWhitespace<'_>) -> bool {
    match words.next() {
        Some(word) => fault_of(word) == Some(fault),
        None => false,
    }
}

fn is_data(bytes: &[u8], words: &mut SplitWhitespace<'_>) -> bool {
    match words.next() {
        Some(digits) => bytes_of(digits).as_slice() == bytes,
        None => false,
    }
}

// Whether the next word is this number, or there is none.
fn is_next(wanted: u64, words: &mut SplitWhitespace<'_>) -> bool {
    match words.next() {
        Some(word) => word.parse() == Ok(wanted),
        None => true,
    }
}

fn is_stat(stat: &Stat, words: &mut SplitWhitespace<'_>) -> bool {
    is_next(stat.objects, words)
        && is_next(stat.resources, words)
        && is_next(stat.taken, words)
        && is_next(stat.ok, words)
        && is_next(stat.failed, words)
}

// Whether the next word is this note, or there is none.
fn is_note(note: Option<&u32>, words: &mut SplitWhitespace<'_>) -> bool {
    match note {
        Some(note) => is_next(u64::from(*note), words),
        None => words.next().is_none(),
    }
}

fn are_notes(notes: &Items<u32>, words: &mut SplitWhitespace<'_>) -> bool {
    let notes = notes.as_slice();
    number(words) == Some(notes.len())
        && is_note(notes.last(), words)
        && is_note(notes.first(), words)
}

// Whether the next words are this failure, or there are none.
fn is_failure(failure: &Failure, words: &mut SplitWhitespace<'_>) -> bool {
    match words.next() {
        Some(action) => {
            action.parse() == Ok(failure.action.number()) && is_fault(failure.fault, words)
        }
        None => true,
    }
}

fn are_faults(faults: &Items<Failure>, words: &mut SplitWhitespace<'_>) -> bool {
    if number(words) != Some(faults.len()) {
        return false;
    }
    match faults.as_slice().last() {
        Some(failure) => is_failure(failure, words),
        None => words.next().is_none(),
    }
}

// Whether the next word is the first letter of this name, or there is none.
fn begins(name: &Name, words: &mut SplitWhitespace<'_>) -> bool {
    match words.next() {
        Some(word) => name.as_slice().first() == word.as_bytes().first(),
        None => true,
    }
}

fn are_names(names: &Items<Name>, words: &mut SplitWhitespace<'_>) -> bool {
    if number(words) != Some(names.len()) {
        return false;
    }
    match names.as_slice().first() {
        Some(name) => begins(name, words),
        None => words.next().is_none(),
    }
}
