//! Two histories, one of version 1 and one of version 2, their fronts, and what a byte that is changed makes of them.
use super::changes::decoded;
use super::player::{Telling, are_told, play_rows};
use super::verdicts::fault_text;
use jlr_trace::file::read_trace;
use jlr_trace_fields::version::Version;
use std::alloc::{AllocError, Global};
use std::test::Fail;

// The head; no objects; no session; seven empty lists; the next action and three counts; two entries: mutator 0 joins
// and leaves.
const FILE: &str = "
    4a4c5254 01 00000010 01 0010 0000000000000000
    00000000 00
    00000000 00000000 00000000 00000000 00000000 00000000 00000000
    0000000000000001 0000000000000000 0000000000000000 0000000000000000
    0000000000000002
    00 00 00 00 00
    00 01 00 00 00
";

// The same of version 2, with three entries: mutator 0 joins, makes an array of two in cell 0, its handle 1, and
// leaves.
const ARRAY_FILE: &str = "
    4a4c5254 02 00000010 01 0010 0000000000000000
    00000000 00
    00000000 00000000 00000000 00000000 00000000 00000000 00000000
    0000000000000001 0000000000000000 0000000000000000 0000000000000000
    0000000000000003
    00 00 00 00 00
    00 29 00 0002 01 01 02 01 00000000
    00 01 00 00 00
";

// A change of the file, and what it is read as.
const ROWS: &str = "
    front 103 -> 2 entries behind 0 in version 1
    byte 20 7 -> 2 entries behind 7 in version 1
    byte 101 1 -> 2 entries behind 0 in version 1
    byte 1 0 -> BadMark
    byte 4 83 -> BadMark
    byte 5 0 -> BadVersion
    byte 5 2 -> 2 entries behind 0 in version 2
    byte 5 3 -> BadVersion
    byte 5 9 -> BadVersion
    byte 21 255 -> Truncated
    byte 25 2 -> BadEntry(0)
    byte 26 255 -> Truncated
    byte 86 1 -> Truncated
    byte 93 3 -> Truncated
    byte 93 1 -> BadEntry(2)
    byte 93 0 -> BadEntry(1)
    byte 95 41 -> BadEntry(1)
    byte 97 17 -> BadEntry(1)
    byte 98 4 -> BadEntry(1)
    byte 100 255 -> BadEntry(2)
    byte 102 17 -> BadEntry(2)
    behind 0 -> BadEntry(3)
    behind 255 -> BadEntry(3)
    front 0 -> Truncated
    bytes 4a4c -> Truncated
    bytes 4a58 -> BadMark
    front 4 -> Truncated
    front 102 -> Truncated
";

// The same of the other file: its 100th byte is the number of its second ask, and the 102nd and 103rd are the length of
// the array.
const ARRAY_ROWS: &str = "
    front 116 -> 3 entries behind 0 in version 2
    byte 5 1 -> BadEntry(2)
    byte 5 0 -> BadVersion
    byte 5 3 -> BadVersion
    byte 100 42 -> BadEntry(2)
    byte 102 15 -> 3 entries behind 0 in version 2
    byte 102 16 -> BadEntry(2)
    byte 103 0 -> BadEntry(2)
    byte 103 1 -> 3 entries behind 0 in version 2
    front 102 -> Truncated
    behind 0 -> BadEntry(4)
";

fn number_of(version: Version) -> u8 {
    match version {
        Version::One => 1,
        Version::Two => 2,
    }
}

/// How many entries a file has, behind how many others, and in which version.
pub(super) fn told_file(
    alloc: Global,
    count: u64,
    base: u64,
    version: Version,
) -> Result<String, AllocError> {
    let version = number_of(version);
    format!(in alloc; "{count} entries behind {base} in version {version}")
}

/// What the bytes are read as.
pub(super) fn content(alloc: Global, bytes: &[u8]) -> Result<String, AllocError> {
    match read_trace(alloc, bytes) {
        Ok(file) => {
            let (count, base, version) = (file.entries.len(), file.base, file.version);
            drop(file);
            told_file(alloc, count as u64, base, version)
        }
        Err(fault) => fault_text(alloc, fault),
    }
}

// Whether each proper prefix is truncated.
fn are_truncated(alloc: Global, file: &[u8]) -> Result<bool, AllocError> {
    for length in 0..file.len() {
        if !are_told(alloc, &file[..length], "Truncated", Telling::Content)? {
            return Ok(false);
        }
    }
    Ok(true)
}

fn fronts_are_truncated(alloc: Global, file: &str) -> Result<bool, AllocError> {
    match decoded(alloc, file) {
        Some(bytes) => are_truncated(alloc, bytes.as_slice()),
        None => Ok(false),
    }
}

// Each row is as it says, and each proper prefix is truncated.
fn play(alloc: Global, file: &str, rows: &str) -> Result<(), Fail> {
    play_rows(alloc, file, rows, Telling::Content)?;
    if fronts_are_truncated(alloc, file)? {
        return Ok(());
    }
    Err(Fail::new("a front is not truncated"))
}

#[test]
fn files_are_read_as_the_rows_say(rt: HostRuntime) -> Result<(), Fail> {
    play(rt.alloc(), FILE, ROWS)?;
    play(rt.alloc(), ARRAY_FILE, ARRAY_ROWS)
}
