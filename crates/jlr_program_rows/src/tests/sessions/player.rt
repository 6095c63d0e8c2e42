//! Plays lists of sessions.
//!
//! Lists are parted by empty lines. The first line of a list, which ends with a colon, says what its sessions show. A
//! session is a line with its commands, and below it a line with an arrow and its answers, both as `words` reads them:
//!
//! ```text
//! soft references go by their age:
//! soft_age 0 | new -; soft 1 0; drop 1; gc; deref 2
//!     -> = 1; = 2; ok; ok; = 0
//! ```
//!
//! What stands before a bar is its setting, as `settings` reads it. Where ` or ` parts two lists of answers, each of
//! them is right. A line that begins with `#` is a remark.
use super::settings::{Setting, Shown};
use super::words::{lines, text_of};
use jlr_device::Device;
use jlr_prog::Book;
use jlr_prog::run::run_over;
use jlr_session::shell::SessionEnd;
use jlr_types::Limits;
use std::alloc::{AllocError, Global};
use std::io::{Read, Write};
use std::test::Fail;

/// How the session of a heap of its own ended, and what is seen of its book.
pub(super) fn ended<D: Device, R: Read, W: Write>(
    alloc: Global,
    limits: Limits,
    reader: &mut R,
    writer: &mut W,
    device: &mut D,
) -> Result<(SessionEnd, Shown), Fail>
where
    D::Res: Drop,
{
    let (end, book) = run_over(alloc, limits, reader, writer, device)?;
    Ok((end, shown(book)))
}

/// What is seen of a book, which is given up.
fn shown<R: Drop>(book: Book<R>) -> Shown {
    let shown = Shown {
        base: book.base(),
        entries: book.records().len(),
    };
    drop(book);
    shown
}

/// Each session of the lists ends and is answered as it has to.
pub(super) fn play(alloc: Global, lists: &str) -> Result<(), Fail> {
    for list in lists.split("\n\n") {
        let (label, rows) = list.split_once(":\n").ok_or("a list without a label")?;
        play_list(alloc, label.trim(), rows)?;
    }
    Ok(())
}

/// Each session of a list does so.
fn play_list(alloc: Global, label: &str, rows: &str) -> Result<(), Fail> {
    let mut waiting = None;
    for line in rows.lines() {
        let line = line.trim();
        if let Some(answers) = line.strip_prefix("->") {
            let Some(row) = waiting.take() else {
                return Err(told(alloc, label, line, "no session stands before it"));
            };
            played(alloc, label, row, answers.trim())?;
        } else if is_row(line) {
            if waiting.is_some() {
                return Err(told(alloc, label, line, "the session before it has no answers"));
            }
            waiting = Some(line);
        }
    }
    match waiting {
        Some(row) => Err(told(alloc, label, row, "it has no answers")),
        None => Ok(()),
    }
}

/// Whether a line is no remark and not empty.
fn is_row(line: &str) -> bool {
    !line.is_empty() && !line.starts_with("#")
}

/// The session of a row ends and is answered as it has to.
fn played(alloc: Global, label: &str, row: &str, answers: &str) -> Result<(), Fail> {
    let (setting, commands) = row.split_once("|").unwrap_or(("", row));
    let Some(setting) = Setting::read(alloc, setting.trim()) else {
        return Err(told(alloc, label, row, "its setting cannot be read"));
    };
    let Some(input) = lines(alloc, commands.trim()) else {
        drop(setting);
        return Err(told(alloc, label, row, "its commands cannot be read"));
    };
    let (wanted, book) = (setting.end, setting.book);
    let got = setting.played(alloc, b"", input.as_slice())?;
    if got.end != wanted {
        return Err(told(alloc, label, row, "the session ends in another way"));
    }
    if book.is_some() && book != Some(got.book) {
        return Err(told(alloc, label, row, "the book shows something else"));
    }
    if !is_answered(alloc, got.out.as_slice(), answers) {
        return Err(told(alloc, label, row, text_of(got.out.as_slice())));
    }
    Ok(())
}

/// Whether the output is these answers, or one of two lists of answers.
pub(super) fn is_answered(alloc: Global, out: &[u8], answers: &str) -> bool {
    match answers.split_once(" or ") {
        Some((one, other)) => is_list(alloc, out, one) || is_list(alloc, out, other),
        None => is_list(alloc, out, answers),
    }
}

fn is_list(alloc: Global, out: &[u8], answers: &str) -> bool {
    match lines(alloc, answers) {
        Some(bytes) => bytes.as_slice() == out,
        None => false,
    }
}

/// What is wrong with a row.
pub(super) fn told(alloc: Global, label: &str, row: &str, wrong: &str) -> Fail {
    match joined(alloc, [label, ", at ", row, ": ", wrong]) {
        Ok(text) => Fail::new(text),
        Err(_) => Fail::from("a row failed, and there was no memory to tell it"),
    }
}

fn joined(alloc: Global, parts: [&str; 5]) -> Result<String, AllocError> {
    let mut text = String::new(alloc);
    for part in parts {
        text.push_str(part)?;
    }
    Ok(text)
}
