//! Saved histories: each row is what a session reads, with `;` for the end of a line, an arrow, and the verdict on the
//! history that it saved.
use super::verdicts::{compared, push_decoded};
use jlr_command_line::arguments::AuditOrder;
use jlr_commands::audit::audit;
use jlr_commands::save::session_saved;
use jlr_device::real::RealDevice;
use jlr_types::Limits;
use std::alloc::{AllocError, Global};
use std::test::Fail;
use std::{fs, str};

const ROWS: &str = "
    nothing -> legal 2 version 2
    new -;drop 1;gc; -> legal 5 version 2
    queue;new -;weak 2 1;drop 2;gc;poll 1; -> legal 9 version 2
    cleaner;new -;register 1 2 7;drop 2;gc;notes; -> legal 11 version 2
    new r;soft 1 0;drop 1;gc soft;deref 1;stat; -> legal 8 version 2
    bind a 1;new -;bind a 1;names;find a;unbind a;get 1 0; -> legal 9 version 2
    new -;bye -> legal 3 version 2
    array 2; -> legal 3 version 2
    array 3;new -;put 1 2 2;drop 2;gc;get 1 2;array 4096;put 3 4095 1;drop 1;gc; -> legal 12 version 2
";

/// What a session reads, and the bytes of the history that it saves.
const BYTES: &str = "
    nothing -> 4a4c5254 02 00000010 01 0010 0000000000000000 00000000 00 00000000 00000000 00000000 00000000 00000000 00000000 00000000 0000000000000001 0000000000000000 0000000000000000 0000000000000000 0000000000000002 00 0000 00 00 00 0100 00 00
    array 2; -> 4a4c5254 02 00000010 01 0010 0000000000000000 00000000 00 00000000 00000000 00000000 00000000 00000000 00000000 00000000 0000000000000001 0000000000000000 0000000000000000 0000000000000000 0000000000000003 00 0000 00 00 00 29000002 0101 020100000000 00 0100 00 00
";

/// Where the tests save a history.
const PATH: &str = "refheap_saved";

/// The bytes of lines.
fn lines(alloc: Global, text: &str) -> Result<Vec<u8>, AllocError> {
    let mut bytes = Vec::new(alloc);
    for byte in text.as_bytes() {
        bytes.push(if *byte == b';' { b'\n' } else { *byte })?;
    }
    Ok(bytes)
}

fn saved(rt: HostRuntime, input: &str) -> Result<(), Fail> {
    let limits = Limits::checked(16, 1, 16, 4, 10_000, 64)
        .ok()
        .ok_or("limits")?;
    let bytes = lines(rt.alloc(), if input == "nothing" { "" } else { input })?;
    let mut reader = bytes.as_slice();
    let mut writer = Vec::new(rt.alloc());
    let mut device = RealDevice::new(rt);
    drop(session_saved(&rt, PATH, limits, &mut reader, &mut writer, &mut device));
    Ok(())
}

fn verdict(rt: HostRuntime) -> Result<String, Fail> {
    let asked = AuditOrder {
        file: PATH,
        explain: false,
        json: false,
    };
    let mut told = Vec::new(rt.alloc());
    drop(audit(&rt, asked, &mut told));
    let mut verdict = String::new(rt.alloc());
    verdict.push_str(str::from_utf8(&told)?.trim())?;
    Ok(verdict)
}

fn played(rt: HostRuntime, row: &str) -> Result<(), Fail> {
    let (input, wanted) = row.split_once(" -> ").ok_or("no row")?;
    saved(rt, input)?;
    let got = verdict(rt)?;
    fs::remove_file(&rt, PATH)?;
    compared(row, got.as_str(), wanted)
}

/// The bytes of the file that these digits tell of.
fn bytes_of(alloc: Global, digits: &str) -> Result<Vec<u8>, Fail> {
    let mut bytes = Vec::new(alloc);
    push_decoded(&mut bytes, digits)?;
    Ok(bytes)
}

/// A session saves just these bytes, each of them.
fn saved_bytes(rt: HostRuntime, row: &str) -> Result<(), Fail> {
    let (input, wanted) = row.split_once(" -> ").ok_or("no row")?;
    saved(rt, input)?;
    let got = fs::read(&rt, PATH)?;
    fs::remove_file(&rt, PATH)?;
    if got.as_slice() == bytes_of(rt.alloc(), wanted)?.as_slice() {
        return Ok(());
    }
    Err(Fail::new(format_args!("at {input}: other bytes are saved")))
}

#[test]
fn a_session_saves_these_bytes(rt: HostRuntime) -> Result<(), Fail> {
    let _ = fs::remove_file(&rt, PATH);
    for row in BYTES.trim().lines() {
        saved_bytes(rt, row.trim())?;
    }
    Ok(())
}

#[test]
fn what_a_session_saves_is_legal(rt: HostRuntime) -> Result<(), Fail> {
    let _ = fs::remove_file(&rt, PATH);
    for row in ROWS.trim().lines() {
        played(rt, row.trim())?;
    }
    Ok(())
}
