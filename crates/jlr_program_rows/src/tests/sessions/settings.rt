//! The setting of a session: words with a value each, parted by `, `.
//!
//! - `soft_age 1`: for how many collections a soft reference keeps its referent; 4 where there is no such word.
//! - `resources 1`: how many files and sockets may be open at once; 16 where there is no such word.
//! - `scripts notfound; ok 00ff fails`: how the files and sockets go, as `script_of` reads each; those after the last
//!   go well.
//! - `failures most`: as many calls of the device have failed before as it can count.
//! - `lines 2`: how many lines can be written, before a write fails.
//! - `trace 64`: how many entries the trace holds before it is cut; 10,000 where there is no such word.
//! - `ends Bye`: how the session ends; `End` where there is no such word.
//! - `book 64 8`: the book has this base and so many entries then; where there is no such word nobody looks at it.
use super::player::ended;
use super::words::number;
use jlr_device::script::{Script, ScriptDevice, Step};
use jlr_session::shell::SessionEnd;
use jlr_types::{Fault, Limits};
use std::alloc::Global;
use std::io::{self, ErrorKind, Read, Write};
use std::test::Fail;

/// How a session is set up, and how it has to end. Its heap has 16 cells.
#[derive(Drop)]
pub(super) struct Setting {
    soft_age: u32,
    resources: u32,
    trace: u32,
    scripts: Vec<Script>,
    failures: u64,
    lines: u32,
    pub(super) end: SessionEnd,
    pub(super) book: Option<Shown>,
}

/// What is seen of a book: its base, and how many entries came after it.
#[derive(Clone, Copy, PartialEq, Eq)]
pub(super) struct Shown {
    pub(super) base: u64,
    pub(super) entries: usize,
}

/// What a session came to.
#[derive(Drop)]
pub(super) struct Played {
    pub(super) end: SessionEnd,
    pub(super) out: Vec<u8>,
    pub(super) book: Shown,
}

impl Setting {
    /// The setting that the words say. None where they say none, or there is no memory.
    pub(super) fn read(alloc: Global, words: &str) -> Option<Setting> {
        let mut setting = Setting {
            soft_age: 4,
            resources: 16,
            trace: 10_000,
            scripts: Vec::new(alloc),
            failures: 0,
            lines: u32::MAX,
            end: SessionEnd::End,
            book: None,
        };
        for word in words.split_terminator(", ") {
            setting.set(alloc, word)?;
        }
        Some(setting)
    }

    fn set(&mut self, alloc: Global, word: &str) -> Option<()> {
        let (word, value) = word.split_once(" ")?;
        match word {
            "soft_age" => put(&mut self.soft_age, number(value)),
            "resources" => put(&mut self.resources, number(value)),
            "trace" => put(&mut self.trace, number(value)),
            "scripts" => put(&mut self.scripts, scripts_of(alloc, value)),
            "failures" if value == "most" => put(&mut self.failures, Some(u64::MAX)),
            "lines" => put(&mut self.lines, number(value)),
            "ends" => put(&mut self.end, end_of(value)),
            "book" => put(&mut self.book, book_of(value).map(Some)),
            _ => None,
        }
    }

    /// What a session of this setting comes to. Its input comes in two pieces.
    pub(super) fn played(self, alloc: Global, first: &[u8], rest: &[u8]) -> Result<Played, Fail> {
        let limits = limits(self.resources, self.soft_age, self.trace)?;
        let mut device = ScriptDevice::new(self.scripts, self.failures);
        let mut reader = first.chain(rest);
        let mut writer = Lines {
            taken: Vec::new(alloc),
            left: self.lines,
        };
        let (end, book) = ended(alloc, limits, &mut reader, &mut writer, &mut device)?;
        Ok(Played {
            end,
            out: writer.taken,
            book,
        })
    }
}

/// Puts a value in its place, where there is one.
fn put<V: Drop>(place: &mut V, value: Option<V>) -> Option<()> {
    *place = value?;
    Some(())
}

/// The limits of a session with 16 cells, and these.
pub(super) fn limits(resources: u32, soft_age: u32, trace: u32) -> Result<Limits, Fail> {
    let limits = Limits::checked(16, 1, resources, soft_age, trace, 64);
    Ok(limits.ok().ok_or("limits")?)
}

fn end_of(word: &str) -> Option<SessionEnd> {
    match word {
        "Bye" => Some(SessionEnd::Bye),
        "WriteFault" => Some(SessionEnd::WriteFault),
        _ => None,
    }
}

/// What two numbers say of a book.
fn book_of(words: &str) -> Option<Shown> {
    let (base, entries) = words.split_once(" ")?;
    Some(Shown {
        base: base.parse().ok()?,
        entries: entries.parse().ok()?,
    })
}

/// The scripts, which are parted by `; `.
fn scripts_of(alloc: Global, text: &str) -> Option<Vec<Script>> {
    let mut scripts = Vec::new(alloc);
    for words in text.split_terminator("; ") {
        scripts.push(script_of(alloc, words)?).ok()?;
    }
    Some(scripts)
}

/// The script of these words. The first is how the open goes; then `00ff` is a read that gives these bytes, `takes1` a
/// write that takes one byte, `fails` a call that fails, and `unfinished` a `finish` that fails.
fn script_of(alloc: Global, words: &str) -> Option<Script> {
    let mut script = Script {
        opened: Ok(()),
        steps: Vec::new(alloc),
        finished: Ok(()),
    };
    for word in words.split(" ") {
        match word {
            "ok" => {}
            "notfound" => script.opened = Err(Fault::NotFound),
            "other" => script.opened = Err(Fault::Other),
            "unfinished" => script.finished = Err(Fault::Other),
            _ => script.steps.push(step_of(alloc, word)?).ok()?,
        }
    }
    Some(script)
}

fn step_of(alloc: Global, word: &str) -> Option<Step> {
    match word {
        "00ff" => Some(Step::Bytes(bytes_of(alloc, &[0x00, 0xff])?)),
        "0102" => Some(Step::Bytes(bytes_of(alloc, &[0x01, 0x02])?)),
        "takes1" => Some(Step::Take(1)),
        "fails" => Some(Step::Fail(Fault::Other)),
        _ => None,
    }
}

fn bytes_of(alloc: Global, given: &[u8]) -> Option<Vec<u8>> {
    let mut bytes = Vec::new(alloc);
    bytes.extend_from_slice(given).ok()?;
    Some(bytes)
}

/// A writer that takes so many lines, and fails after them.
#[derive(Drop)]
struct Lines {
    taken: Vec<u8>,
    left: u32,
}

impl Write for Lines {
    fn write(&mut self, buf: &[u8]) -> io::Result<usize> {
        if self.left == 0 {
            return Err(ErrorKind::Other.into());
        }
        let taken = self.taken.write(buf)?;
        for byte in buf.split_at(taken).0 {
            if *byte == b'\n' {
                self.left = self.left.saturating_sub(1);
            }
        }
        Ok(taken)
    }

    fn flush(&mut self) -> io::Result<()> {
        Ok(())
    }
}
