//! Rows of text: what is given, an arrow, and what is expected.
//!
//! In a row `(p×255)` stands for 255 times the letter `p`. Answers are those of `jlr_words`. A line that begins with
//! `==` names the rows that follow.
use super::streams::{Narrow, Streams};
use jlr_machine::ask::Answer;
use jlr_wire::reply::write_reply;
use jlr_words::answer_of;
use std::alloc::Global;
use std::test::Fail;

mod cases;
mod commands;
mod lines;
mod malformed;
mod replies;
mod writers;

/// What the rows of a text are about.
#[derive(Clone, Copy)]
enum Topic {
    Commands,
    Malformed,
    Replies,
    Fronts,
    Writes,
}

// Plays the rows, each of which must hold.
fn play(alloc: Global, topic: Topic, rows: &str) -> Result<(), Fail> {
    for line in rows.lines() {
        let row = line.trim();
        if !row.is_empty() && !row.starts_with("== ") && !holds_spelled(alloc, topic, row) {
            return Err(Fail::new(format_args!("{row}")));
        }
    }
    Ok(())
}

fn holds_spelled(alloc: Global, topic: Topic, row: &str) -> bool {
    let mut text = String::new(alloc);
    let holds = spell(&mut text, row).is_some() && holds(alloc, topic, text.as_str());
    drop(text);
    holds
}

fn holds(alloc: Global, topic: Topic, row: &str) -> bool {
    let (given, wanted) = row.split_once(" -> ").unwrap_or((row, ""));
    match topic {
        Topic::Commands => commands::is_read(given, wanted),
        Topic::Malformed => malformed::is_malformed(given),
        Topic::Fronts => writers::sends(alloc, given, wanted),
        Topic::Replies | Topic::Writes => {
            is_written(alloc, Streams::whole(), topic, given, wanted)
        }
    }
}

// Whether the answer of these words goes out over such streams as it has to.
fn is_written(alloc: Global, streams: Streams, topic: Topic, words: &str, wanted: &str) -> bool {
    match answer_of(alloc, words) {
        Ok(Some(answer)) => {
            let goes_out = goes_out(Narrow::new(alloc, streams), topic, &answer, wanted);
            drop(answer);
            goes_out
        }
        _ => false,
    }
}

fn goes_out(mut writer: Narrow, topic: Topic, answer: &Answer, wanted: &str) -> bool {
    let well = write_reply(answer, &mut writer).is_ok();
    let sent = writer.taken.as_slice();
    let goes_out = match topic {
        Topic::Replies => replies::is_told(sent, well, wanted),
        Topic::Fronts => writers::is_front(sent, well, wanted),
        _ => well && writers::are_counted(writer.writes, sent.len(), wanted),
    };
    drop(writer);
    goes_out
}

// Adds the row with each repetition written out; none where one is no repetition, or there is no memory.
fn spell(text: &mut String, row: &str) -> Option<()> {
    for part in row.split("(") {
        let (repeated, rest) = part.split_once(")").unwrap_or(("×0", part));
        repeat(text, repeated)?;
        text.push_str(rest).ok()?;
    }
    Some(())
}

// `p×255` is 255 times `p`.
fn repeat(text: &mut String, repeated: &str) -> Option<()> {
    let (unit, count) = repeated.split_once("×")?;
    let count: u32 = count.parse().ok()?;
    for _ in 0..count {
        text.push_str(unit).ok()?;
    }
    Some(())
}

// What stands between two bars, at whose ends spaces count.
fn barred(text: &str) -> Option<&str> {
    text.strip_prefix("|")?.strip_suffix("|")
}

// Whether this is the line, with its end.
fn is_line(sent: &[u8], line: &str) -> bool {
    match sent.split_last() {
        Some((last, front)) => *last == b'\n' && front == line.as_bytes(),
        None => false,
    }
}
