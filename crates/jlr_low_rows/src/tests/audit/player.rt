//! Playing rows: each has a change of a file, and behind an arrow what the bytes are told to be. A row that ends with a
//! colon is a title.
use super::changes::changed;
use super::reading::content;
use super::streams::streams_are_told;
use super::verdicts::{is_written_back, verdict};
use std::alloc::{AllocError, Global};
use std::test::Fail;

/// What is told of bytes: what they are read as, or the verdict on them.
#[derive(Clone, Copy)]
pub(super) enum Telling {
    Content,
    Verdict,
}

fn told(alloc: Global, bytes: &[u8], telling: Telling) -> Result<String, AllocError> {
    match telling {
        Telling::Content => content(alloc, bytes),
        Telling::Verdict => verdict(alloc, bytes),
    }
}

fn is_wanted(told: String, wanted: &str) -> bool {
    told.as_str() == wanted
}

/// Whether the bytes are told to be what is wanted, at once and as streams, and are written as they were read.
pub(super) fn are_told(
    alloc: Global,
    bytes: &[u8],
    wanted: &str,
    telling: Telling,
) -> Result<bool, AllocError> {
    Ok(
        is_wanted(told(alloc, bytes, telling)?, wanted)
            && streams_are_told(alloc, bytes, wanted, telling)?
            && is_written_back(alloc, bytes)?,
    )
}

/// The same of a file with a change. A change that there is not is not told.
pub(super) fn is_told(
    alloc: Global,
    file: &str,
    change: &str,
    wanted: &str,
    telling: Telling,
) -> Result<bool, AllocError> {
    match changed(alloc, file, change) {
        Some(bytes) => are_told(alloc, bytes.as_slice(), wanted, telling),
        None => Ok(false),
    }
}

/// Whether a line is no row: a title or empty.
pub(super) fn is_title(line: &str) -> bool {
    line.is_empty() || line.ends_with(":")
}

fn row_is_told(alloc: Global, file: &str, row: &str, telling: Telling) -> Result<bool, AllocError> {
    if is_title(row) {
        return Ok(true);
    }
    let (change, wanted) = row.split_once(" -> ").unwrap_or((row, ""));
    is_told(alloc, file, change, wanted, telling)
}

// The first row that is not as it says.
fn first_wrong<'a>(
    alloc: Global,
    file: &str,
    rows: &'a str,
    telling: Telling,
) -> Result<Option<&'a str>, AllocError> {
    for row in rows.lines() {
        if !row_is_told(alloc, file, row.trim(), telling)? {
            return Ok(Some(row));
        }
    }
    Ok(None)
}

/// Fails with what is wrong, if anything is.
pub(super) fn nothing_is_wrong(wrong: Option<&str>) -> Result<(), Fail> {
    match wrong {
        Some(row) => Err(Fail::new(format_args!("not so: {row}"))),
        None => Ok(()),
    }
}

/// Each row is as it says.
pub(super) fn play_rows(
    alloc: Global,
    file: &str,
    rows: &str,
    telling: Telling,
) -> Result<(), Fail> {
    nothing_is_wrong(first_wrong(alloc, file, rows, telling)?)
}
