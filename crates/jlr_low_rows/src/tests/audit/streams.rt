//! The same bytes as streams: all at once, and a few at a time, with interruptions between them; and streams that fail.
use super::changes::decoded;
use super::player::Telling;
use super::reading::told_file;
use super::verdicts::{fault_text, verdict_text};
use jlr_audit::streamed::audit_streamed;
use jlr_audit::watch::Unwatched;
use jlr_trace::streamed::{StreamedTrace, streamed_trace};
use jlr_trace::window::StreamFault;
use std::alloc::{AllocError, Global};
use std::io::{self, ErrorKind, Read};
use std::test::Fail;

/// How many bytes come at a time.
const STEPS: [usize; 4] = [1, 2, 7, 100_000];

// Two entries, of which the first is not legal: mutator 1 joins.
const ILLEGAL_FILE: &str = "
    4a4c5254 01 00000010 01 0010 0000000000000000
    00000000 00
    00000000 00000000 00000000 00000000 00000000 00000000 00000000
    0000000000000001 0000000000000000 0000000000000000 0000000000000000
    0000000000000002
    00 00 01 00 00
    00 01 00 00 00
";

/// A reader that is interrupted before each read, and gives a few bytes at a time. Behind the last it may fail.
#[derive(Drop)]
struct Slow<'a> {
    bytes: &'a [u8],
    step: usize,
    fails: bool,
    interrupts: bool,
}

impl<'a> Slow<'a> {
    fn new(bytes: &'a [u8], step: usize, fails: bool) -> Slow<'a> {
        Slow {
            bytes,
            step,
            fails,
            interrupts: true,
        }
    }
}

impl Read for Slow<'_> {
    fn read(&mut self, buf: &mut [u8]) -> io::Result<usize> {
        if self.interrupts {
            self.interrupts = false;
            return Err(ErrorKind::Interrupted.into());
        }
        self.interrupts = true;
        if self.bytes.is_empty() && self.fails {
            return Err(ErrorKind::PermissionDenied.into());
        }
        let count = self.step.min(self.bytes.len()).min(buf.len());
        let (given, rest) = self.bytes.split_at(count);
        buf[..count].copy_from_slice(given);
        self.bytes = rest;
        Ok(count)
    }
}

fn stream_fault_text(alloc: Global, fault: StreamFault) -> Result<String, AllocError> {
    match fault {
        StreamFault::Unread(kind) => format!(in alloc; "Unread({kind:?})"),
        StreamFault::Damaged(fault) => fault_text(alloc, fault),
    }
}

fn told_of_trace<R: Read + Drop>(
    alloc: Global,
    trace: StreamedTrace<R>,
    telling: Telling,
) -> Result<String, AllocError> {
    let (count, base, version) = (trace.count, trace.base, trace.version);
    match audit_streamed(alloc, trace, &mut Unwatched) {
        Ok(verdict) => match telling {
            Telling::Content => told_file(alloc, count, base, version),
            Telling::Verdict => verdict_text(alloc, verdict, count),
        },
        Err(fault) => stream_fault_text(alloc, fault),
    }
}

/// What is told of the bytes that a reader gives.
fn told_of<R: Read + Drop>(
    alloc: Global,
    reader: R,
    telling: Telling,
) -> Result<String, AllocError> {
    match streamed_trace(alloc, reader) {
        Ok(trace) => told_of_trace(alloc, trace, telling),
        Err(fault) => stream_fault_text(alloc, fault),
    }
}

/// Whether this is told of the bytes as a stream, in whatever pieces they come.
pub(super) fn streams_are_told(
    alloc: Global,
    bytes: &[u8],
    wanted: &str,
    telling: Telling,
) -> Result<bool, AllocError> {
    for step in STEPS {
        let told = told_of(alloc, Slow::new(bytes, step, false), telling)?;
        if told.as_str() != wanted {
            return Ok(false);
        }
    }
    let told = told_of(alloc, bytes, telling)?;
    Ok(told.as_str() == wanted)
}

/// A stream that fails behind so many bytes of a file is told to fail, however it stands with what came before.
fn failures_are_told(alloc: Global, file: &[u8]) -> Result<bool, AllocError> {
    for length in 0..=file.len() {
        for step in STEPS {
            let reader = Slow::new(&file[..length], step, true);
            let told = told_of(alloc, reader, Telling::Verdict)?;
            if told.as_str() != "Unread(PermissionDenied)" {
                return Ok(false);
            }
        }
    }
    Ok(true)
}

/// The first mark of a stream that is wrong is told at once: nothing behind it is read.
fn wrong_marks_are_told(alloc: Global) -> Result<bool, AllocError> {
    let told = told_of(alloc, Slow::new(b"JLRS", 1, true), Telling::Verdict)?;
    Ok(told.as_str() == "BadMark")
}

#[test]
fn streams_that_fail_are_told(rt: HostRuntime) -> Result<(), Fail> {
    let alloc = rt.alloc();
    let bytes = decoded(alloc, ILLEGAL_FILE).ok_or("no bytes")?;
    if !failures_are_told(alloc, bytes.as_slice())? {
        return Err(Fail::new("a failure is not told"));
    }
    if !wrong_marks_are_told(alloc)? {
        return Err(Fail::new("a wrong mark is not told"));
    }
    Ok(())
}
