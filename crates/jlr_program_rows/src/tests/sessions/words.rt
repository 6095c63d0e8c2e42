//! The words of commands and answers.
//!
//! Lines are parted by `; `. `2 to 4: dup 1 / deref {}` stands for `dup 1; deref 2; dup 1; deref 3; dup 1; deref 4`.
use std::alloc::Global;
use std::io::Write;
use std::str;

/// The bytes of lines that are parted by `; `, each with its end. None where a range cannot be read, or there is no
/// memory.
pub(super) fn lines(alloc: Global, text: &str) -> Option<Vec<u8>> {
    let mut bytes = Vec::new(alloc);
    for line in text.split_terminator("; ") {
        match line.split_once(": ") {
            Some((range, lines)) => repeat(&mut bytes, range, lines)?,
            None => put(&mut bytes, line, 0)?,
        }
    }
    Some(bytes)
}

/// Writes the lines, which are parted by ` / `, once for each number of a range.
fn repeat(bytes: &mut Vec<u8>, range: &str, lines: &str) -> Option<()> {
    let (first, last) = range.split_once(" to ")?;
    let (first, last) = (number(first)?, number(last)?);
    for number in first..=last {
        put_each(bytes, lines, number)?;
    }
    Some(())
}

/// Writes the lines once, with a number.
fn put_each(bytes: &mut Vec<u8>, lines: &str, number: u32) -> Option<()> {
    for line in lines.split(" / ") {
        put(bytes, line, number)?;
    }
    Some(())
}

/// Writes a line and its end, with a number in the place of `{}`.
fn put(bytes: &mut Vec<u8>, line: &str, number: u32) -> Option<()> {
    match line.split_once("{}") {
        Some((before, after)) => writeln!(bytes, "{before}{number}{after}").ok(),
        None => writeln!(bytes, "{line}").ok(),
    }
}

/// The number that a word is.
pub(super) fn number(word: &str) -> Option<u32> {
    word.parse().ok()
}

/// Output as text, where it is some.
pub(super) fn text_of(out: &[u8]) -> &str {
    str::from_utf8(out).unwrap_or("what was answered is no text")
}
