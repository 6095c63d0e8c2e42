//! Lines that are typed: each row is a line in brackets, an arrow, and what it asks for.
use jlr_client::typed::{Typed, meant};
use std::alloc::{AllocError, Global};
use std::str;
use std::test::Fail;

const ROWS: &str = "
    [new -] -> the server: new -
    [] -> the server:
    [ help] -> the server:  help
    [helper] -> the server: helper
    [new .] -> the server: new .
    [help] -> help
    [help weak] -> help of weak
    [help ] -> help of
    [help gc soft] -> help of gc soft
    [.save a b] -> save to a b
    [.quit] -> quit
    [.quit now] -> no word
    [.save] -> no word
    [.] -> no word
    [.new -] -> no word
";

fn said(alloc: Global, word: &str, rest: &[u8]) -> Result<String, AllocError> {
    let text = str::from_utf8(rest).unwrap_or("no text");
    format!(in alloc; "{word} {text}")
}

fn told(alloc: Global, line: &str) -> Result<String, AllocError> {
    match meant(line.as_bytes()) {
        Typed::Line(sent) => said(alloc, "the server:", sent),
        Typed::Help => said(alloc, "help", b""),
        Typed::HelpOf(word) => said(alloc, "help of", word),
        Typed::Save(file) => said(alloc, "save to", file),
        Typed::Quit => said(alloc, "quit", b""),
        Typed::Unknown => said(alloc, "no word", b""),
    }
}

fn played(alloc: Global, row: &str) -> Result<(), Fail> {
    let (line, wanted) = row.split_once("] -> ").ok_or("no row")?;
    let line = line.strip_prefix("[").ok_or("no bracket")?;
    let got = told(alloc, line)?;
    if got.as_str().trim() == wanted {
        return Ok(());
    }
    Err(Fail::new(format!(in alloc; "at {row}: {got}")?))
}

#[test]
fn lines_are_for_the_server_or_for_the_client(rt: HostRuntime) -> Result<(), Fail> {
    for row in ROWS.trim().lines() {
        played(rt.alloc(), row.trim())?;
    }
    Ok(())
}
