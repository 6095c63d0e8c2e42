//! The bytes of a file, and changes of them, in words: `whole` is the file, `front 20` its first twenty bytes, `behind
//! 0` the file with a byte more, `byte 5 2` the file with 2 in its fifth byte, `for 21 24 ff 00` the file with these
//! bytes in place of those from the 21st to the 24th, and `bytes 4a4c` tells all of them.
use std::alloc::Global;
use std::str::SplitWhitespace;

/// The bytes of a file; none where a word is no bytes, or there is no memory.
pub(super) fn decoded(alloc: Global, file: &str) -> Option<Vec<u8>> {
    let mut bytes = Vec::new(alloc);
    push_decoded(&mut bytes, &mut file.split_whitespace())?;
    Some(bytes)
}

/// The file with the change that the words say.
pub(super) fn changed(alloc: Global, file: &str, change: &str) -> Option<Vec<u8>> {
    let mut bytes = decoded(alloc, file)?;
    edit(alloc, &mut bytes, file, change)?;
    Some(bytes)
}

fn edit(alloc: Global, bytes: &mut Vec<u8>, file: &str, change: &str) -> Option<()> {
    let mut words = change.split_whitespace();
    match words.next()? {
        "whole" => Some(()),
        "for" => splice(alloc, bytes, file, &mut words),
        kind => edit_briefly(bytes, kind, &mut words),
    }
}

fn edit_briefly(bytes: &mut Vec<u8>, kind: &str, words: &mut SplitWhitespace<'_>) -> Option<()> {
    match kind {
        "front" => cut(bytes, words),
        "behind" => push_byte(bytes, words),
        "byte" => set(bytes, words),
        "bytes" => write_over(bytes, words),
        _ => None,
    }
}

fn cut(bytes: &mut Vec<u8>, words: &mut SplitWhitespace<'_>) -> Option<()> {
    bytes.truncate(number(words)?);
    Some(())
}

fn push_byte(bytes: &mut Vec<u8>, words: &mut SplitWhitespace<'_>) -> Option<()> {
    bytes.push(byte(words)?).ok()
}

// The byte at a place, counted from 1, is another.
fn set(bytes: &mut [u8], words: &mut SplitWhitespace<'_>) -> Option<()> {
    let place = number(words)?;
    *bytes.get_mut(place.saturating_sub(1))? = byte(words)?;
    Some(())
}

fn write_over(bytes: &mut Vec<u8>, words: &mut SplitWhitespace<'_>) -> Option<()> {
    bytes.clear();
    push_decoded(bytes, words)
}

// Others stand in the place of some bytes.
fn splice(
    alloc: Global,
    bytes: &mut Vec<u8>,
    file: &str,
    words: &mut SplitWhitespace<'_>,
) -> Option<()> {
    let from = number(words)?;
    let to = number(words)?;
    bytes.truncate(from.saturating_sub(1));
    push_decoded(bytes, words)?;
    push_rest(alloc, bytes, file, to)
}

// Adds the bytes of the file from a place on, counted from 0.
fn push_rest(alloc: Global, bytes: &mut Vec<u8>, file: &str, from: usize) -> Option<()> {
    let file = decoded(alloc, file)?;
    bytes.extend_from_slice(file.get(from..)?).ok()
}

// Adds what the words say in hexadecimal digits.
fn push_decoded(bytes: &mut Vec<u8>, words: &mut SplitWhitespace<'_>) -> Option<()> {
    for word in words {
        push_word(bytes, word)?;
    }
    Some(())
}

fn push_word(bytes: &mut Vec<u8>, word: &str) -> Option<()> {
    for at in (0..word.len()).step_by(2) {
        bytes.push(byte_at(word, at)?).ok()?;
    }
    Some(())
}

// The byte of the two digits at this place.
fn byte_at(word: &str, at: usize) -> Option<u8> {
    u8::from_str_radix(word.get(at..)?.get(..2)?, 16).ok()
}

fn number(words: &mut SplitWhitespace<'_>) -> Option<usize> {
    words.next()?.parse().ok()
}

fn byte(words: &mut SplitWhitespace<'_>) -> Option<u8> {
    words.next()?.parse().ok()
}
