//! Each end of an audit: the status of the program, what it says on the standard error, and what it writes.
use super::ends::Kept;
use super::sentences::{LISTS, filled};
use jlr_command_line::arguments::AuditOrder;
use jlr_command_line::report::status_after;
use jlr_commands::audit::audit;
use std::alloc::{AllocError, Global};
use std::cell::RefCell;
use std::fs;
use std::test::Fail;

/// The history of a session without a command, 103 bytes.
const FILE: &str = "
    4a4c5254 01 00000010 01 0010 0000000000000000
    00000000 00
    00000000 00000000 00000000 00000000 00000000 00000000 00000000
    0000000000000001 0000000000000000 0000000000000000 0000000000000000
    0000000000000002
    00 00 00 00 00
    00 01 00 00 00
";

/// Each row says how many bytes of the file stand at the front, what stands behind them in place of as many, an arrow,
/// and how the audit ends: the status, what is said, and what is written. Without bytes there is no file. A row with
/// `short` in front asks for no explanation, one with `json` for JSON, and one with `two` has the file in version 2.
const ROWS: &str = "
    103 -> 0||legal 2 version 1
    100 01 -> 3||illegal 2 version 1 entry 2 of seat 0, leave of mutator 1, answered ok: it has to be refused 13, since the mutator is not joined, or may not join
    96 0c -> 3||illegal 1 version 1 entry 1 of seat 0, join of mutator 0, answered done before: another answer is due: ok
    93 00 0000 100d 00 00 0100 00 00 -> 3||illegal 1 version 1 entry 1 of seat 0, join of mutator 0, answered refused 13: refused 13 says that the mutator is not joined, or may not join, and that is not so
    93 00 0000 00 01 00000000 00000000 00 0100 00 00 -> 3||illegal 1 version 1 entry 1 of seat 0, join of mutator 0, answered ok: its collection may not come here, or keeps or hands over other objects than it may
    93 00 0000 00 02 01 00000000 00 0100 00 00 -> 3||illegal 1 version 1 entry 1 of seat 0, join of mutator 0, answered ok: it makes 0 objects, each in a free cell of its own, and the entry tells others
    60 00 -> 3||illegal 0 version 1 the image is not well formed
    20 00000001 00000010 0100 00 00000000 00000000 00000000 00000000 00000000 00000000 00000000 0000000000000001 0000000000000000 \
    0000000000000000 0000000000000000 0000000000000002 00 0000 00 00 00 0100 00 00 -> \
    3||illegal 0 version 1 the image has an object in a slot that is no cell
    12 0000000000000007 -> 0||legal 2 version 1 it goes on from the machine in the file, after 7 entries that are not
    102 -> 4|refheap: trace truncated|
    1 58 -> 4|refheap: bad mark|
    4 02 -> 0||legal 2 version 2
    4 03 -> 4|refheap: bad version|
    4 09 -> 4|refheap: bad version|
    103 00 -> 4|refheap: bad entry 3|
    94 29 -> 4|refheap: bad entry 1|
    24 02 -> 4|refheap: bad entry 0|
    0 -> 1|refheap: cannot read refheap_history refheap: there is no such file or folder: check the path|
    json 103 -> 0||{\"legal\":true,\"entries\":2,\"before\":0,\"version\":1}
    json 12 0000000000000007 -> 0||{\"legal\":true,\"entries\":2,\"before\":7,\"version\":1}
    json 96 0c -> 3||{\"legal\":false,\"entry\":1,\"entries\":2,\"before\":0,\"version\":1,\"why\":\"entry 1 of seat 0, join of mutator 0, answered done before: another answer is due: ok\"}
    json two 12 0000000000000007 00000000 00 00000000 00000000 00000000 00000000 00000000 00000000 00000000 0000000000000001 \
    0000000000000000 0000000000000000 0000000000000000 0000000000000003 0000000000 0001010000 0001000000 -> \
    3||{\"legal\":false,\"entry\":2,\"entries\":3,\"before\":7,\"version\":2,\"why\":\"entry 2 of seat 0, leave of mutator 1, answered ok: it has to be refused 13, since the mutator is not joined, or may not join\"}
    json 1 58 -> 4|refheap: bad mark|
    short 12 0000000000000007 -> 0||legal 2 version 1
    short 100 01 -> 3||illegal 2 version 1
    short json 100 01 -> 3||{\"legal\":false,\"entry\":2,\"entries\":2,\"before\":0,\"version\":1,\"why\":\"\"}
";

/// Where the tests write a history.
const PATH: &str = "refheap_history";

/// Appends the bytes that words of hexadecimal digits tell of. A word like `9*0a0b` tells of those behind its star,
/// behind each number from 1 to 9.
pub(super) fn push_decoded(bytes: &mut Vec<u8>, text: &str) -> Result<(), Fail> {
    for word in text.split_whitespace() {
        push_word(bytes, word)?;
    }
    Ok(())
}

fn push_word(bytes: &mut Vec<u8>, word: &str) -> Result<(), Fail> {
    match word.split_once("*") {
        Some((last, digits)) => push_behind_each(bytes, last, digits),
        None => push_digits(bytes, word),
    }
}

fn push_behind_each(bytes: &mut Vec<u8>, last: &str, digits: &str) -> Result<(), Fail> {
    let last: u8 = last.parse()?;
    for number in 1..=last {
        bytes.push(number)?;
        push_digits(bytes, digits)?;
    }
    Ok(())
}

fn push_digits(bytes: &mut Vec<u8>, digits: &str) -> Result<(), Fail> {
    for at in (0..digits.len()).step_by(2) {
        bytes.push(u8::from_str_radix(digits.get(at..at + 2).ok_or("no bytes")?, 16)?)?;
    }
    Ok(())
}

/// Appends the front of the file, what stands behind it in place of as many bytes, and the rest; without anything
/// behind it the front alone.
fn push_changed(bytes: &mut Vec<u8>, file: &[u8], front: usize, behind: &str) -> Result<(), Fail> {
    bytes.extend_from_slice(file.get(..front).ok_or("no front")?)?;
    push_decoded(bytes, behind)?;
    if !behind.is_empty() && bytes.len() < file.len() {
        bytes.extend_from_slice(file.get(bytes.len()..).ok_or("no rest")?)?;
    }
    Ok(())
}

/// The file that a row asks for: whole, but for what stands in place of some bytes, or cut where nothing does.
fn changed(alloc: Global, front: usize, behind: &str) -> Result<Vec<u8>, Fail> {
    let mut file = Vec::new(alloc);
    push_decoded(&mut file, FILE)?;
    let mut bytes = Vec::new(alloc);
    push_changed(&mut bytes, file.as_slice(), front, behind)?;
    Ok(bytes)
}

/// Says in a file that it is of version 2.
fn put_second_version(bytes: &mut [u8]) {
    if let Some(version) = bytes.get_mut(4) {
        *version = 2;
    }
}

/// Writes the file that a row asks for, where it has bytes.
fn lay(rt: HostRuntime, change: &str) -> Result<(), Fail> {
    let two = change.strip_prefix("two ");
    let change = two.unwrap_or(change);
    let (front, behind) = change.split_once(" ").unwrap_or((change, ""));
    let mut bytes = changed(rt.alloc(), front.parse()?, behind)?;
    if two.is_some() {
        put_second_version(&mut bytes);
    }
    if !bytes.is_empty() {
        fs::write(&rt, PATH, bytes.as_slice())?;
    }
    Ok(())
}

/// A text with its line ends as spaces, without the last.
fn in_one_line(alloc: Global, text: &str) -> Result<String, AllocError> {
    let mut line = String::new(alloc);
    for part in text.lines() {
        if !line.is_empty() {
            line.push_str(" ")?;
        }
        line.push_str(part)?;
    }
    Ok(line)
}

/// The status after an audit, and what was said on the standard error.
fn audited(rt: HostRuntime, asked: AuditOrder<'_>, written: &mut Vec<u8>) -> (u8, String) {
    let outcome = audit(&rt, asked, written);
    let said = RefCell::new(String::new(rt.alloc()));
    let kept = Kept {
        alloc: rt.alloc(),
        text: &said,
    };
    let status = status_after(kept, &outcome);
    drop(outcome);
    (status, said.into_inner())
}

/// How an audit ends: the status, what is said, and what is written.
fn ending(rt: HostRuntime, asked: AuditOrder<'_>) -> Result<String, Fail> {
    let alloc = rt.alloc();
    let mut written = Vec::new(alloc);
    let (status, said) = audited(rt, asked, &mut written);
    let said = in_one_line(alloc, said.as_str())?;
    let written = in_one_line(alloc, str::from_utf8(&written)?)?;
    Ok(format!(in alloc; "{status}|{said}|{written}")?)
}

/// Nothing where a row came to what is wanted, else what it came to.
pub(super) fn compared(row: &str, got: &str, wanted: &str) -> Result<(), Fail> {
    if got == wanted {
        return Ok(());
    }
    Err(Fail::new(format_args!("at {row}: {got}")))
}

fn played(rt: HostRuntime, row: &str) -> Result<(), Fail> {
    let (change, wanted) = row.split_once(" -> ").ok_or("no row")?;
    let short = change.strip_prefix("short ");
    let change = short.unwrap_or(change);
    let json = change.strip_prefix("json ");
    lay(rt, json.unwrap_or(change))?;
    let asked = AuditOrder {
        file: PATH,
        explain: short.is_none(),
        json: json.is_some(),
    };
    let got = ending(rt, asked)?;
    drop(fs::remove_file(&rt, PATH));
    compared(row, got.as_str(), wanted)
}

/// Each row of a list of sentences, which fills the places of its second line.
fn play_list(rt: HostRuntime, list: &str) -> Result<(), Fail> {
    let (_, rows) = list.split_once(":\n").ok_or("a list without a label")?;
    let (pattern, rows) = rows.split_once("\n").ok_or("a list without rows")?;
    for row in rows.lines() {
        let row = filled(rt.alloc(), pattern.trim(), row.trim())?;
        played(rt, row.as_str())?;
    }
    Ok(())
}

#[test]
fn audits_end_with_their_status(rt: HostRuntime) -> Result<(), Fail> {
    let _ = fs::remove_file(&rt, PATH);
    for row in ROWS.trim().lines() {
        played(rt, row.trim())?;
    }
    for list in LISTS.split("\n\n") {
        play_list(rt, list)?;
    }
    Ok(())
}
