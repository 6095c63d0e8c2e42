//! Replies, read from words.
use jlr_event::event::Reply;
use jlr_machine::ask::Answer;
use jlr_types::{Handle, Progress, Rid};
use std::str::SplitWhitespace;

// An answer, with the resource that goes with it behind `with`.
fn answered(answer: Answer, words: &mut SplitWhitespace<'_>) -> Reply<u32> {
    let resource = resource(words);
    Reply::Answered { answer, resource }
}

fn resource(words: &mut SplitWhitespace<'_>) -> Option<u32> {
    if words.next() != Some("with") {
        return None;
    }
    words.next()?.parse().ok()
}

// The next number, or 0.
fn byte(words: &mut SplitWhitespace<'_>) -> u8 {
    match words.next() {
        Some(word) => word.parse().unwrap_or(0),
        None => 0,
    }
}

pub(super) fn reply_of(row: &str) -> Option<Reply<u32>> {
    let mut words = row.split_whitespace();
    match words.next()? {
        "more" => Some(Reply::Marked(Progress::More)),
        "done" => Some(Reply::Marked(Progress::Done)),
        "idle" => Some(Reply::Marked(Progress::Idle)),
        "handle" => {
            let handle = Handle::new(byte(&mut words));
            Some(answered(Answer::Handle(handle), &mut words))
        }
        "out" => {
            let rid = Rid::new(u32::from(byte(&mut words)));
            Some(answered(Answer::Out(rid), &mut words))
        }
        _ => None,
    }
}
