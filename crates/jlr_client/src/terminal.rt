//! A session from a terminal.
use crate::help::help;
use crate::manual::refusal::{phrase, refusal_said};
use crate::manual::table::pages;
use crate::typed::{Typed, meant};
use jlr_command_line::fault::ProgramFault;
use jlr_command_line::reason::Reason;
use std::alloc::Global;
use std::io::{BufRead, BufReader, Input, Write};
use std::net::Shutdown;
use std::os::unix::net::UnixStream;
use std::{fs, str};

/// The end of a line.
const END: u8 = b'\n';

/// Whether a session goes on behind a line.
#[derive(Clone, Copy, PartialEq, Eq, Debug)]
enum Next {
    Another,
    NoMore,
}

/// A session from a terminal, which ends with its input, at `.quit`, or behind `bye`: then what the server still says
/// is shown.
pub fn converse(rt: &HostRuntime, stream: &UnixStream) -> Result<(), ProgramFault> {
    let alloc = rt.alloc();
    let Ok(mut replies) = BufReader::new(alloc, stream) else {
        return Err(ProgramFault::NoMemory(std::alloc::AllocError));
    };
    let mut script = Vec::new(alloc);
    let ended = typed_lines(rt, stream, &mut replies, &mut script);
    drop(script);
    ended?;
    let _ = stream.shutdown(Shutdown::Write);
    rest(rt, &mut replies)
}

/// Reads lines from the terminal, and does what each asks for.
fn typed_lines(
    rt: &HostRuntime,
    stream: &UnixStream,
    replies: &mut BufReader<&UnixStream, Global>,
    script: &mut Vec<u8>,
) -> Result<(), ProgramFault> {
    for _ in 0..u64::MAX {
        show(rt, b"> ")?;
        let mut line = Vec::new(rt.alloc());
        let Ok(count) = rt.stdin().reader().read_until(END, &mut line) else {
            return Err(ProgramFault::Read);
        };
        if count == 0 {
            return show(rt, b"\n");
        }
        if done(rt, stream, replies, script, line.as_slice())? == Next::NoMore {
            return Ok(());
        }
    }
    Ok(())
}

/// A line without its end.
fn bare(line: &[u8]) -> &[u8] {
    match line {
        [front @ .., END] => front,
        _ => line,
    }
}

/// Does what a line, with its end, asks for.
fn done(
    rt: &HostRuntime,
    stream: &UnixStream,
    replies: &mut BufReader<&UnixStream, Global>,
    script: &mut Vec<u8>,
    line: &[u8],
) -> Result<Next, ProgramFault> {
    match meant(bare(line)) {
        Typed::Line(sent) => {
            script.extend_from_slice(line)?;
            asked(rt, stream, replies, sent, line)
        }
        Typed::Quit => Ok(Next::NoMore),
        Typed::Help => {
            show(rt, help(rt.alloc())?.as_bytes())?;
            Ok(Next::Another)
        }
        Typed::HelpOf(word) => {
            let page = pages(rt.alloc(), word)?;
            let text = page.as_ref().map_or(
                "no such command; `help` lists them\n",
                |page| page.as_str(),
            );
            show(rt, text.as_bytes())?;
            Ok(Next::Another)
        }
        Typed::Save(file) => {
            saved(rt, file, script.as_slice())?;
            Ok(Next::Another)
        }
        Typed::Unknown => {
            show(rt, b"no such word of the client; `help` lists them\n")?;
            Ok(Next::Another)
        }
    }
}

/// Sends a line, and shows its reply. A line without its end is the last one.
fn asked(
    rt: &HostRuntime,
    stream: &UnixStream,
    replies: &mut BufReader<&UnixStream, Global>,
    sent: &[u8],
    line: &[u8],
) -> Result<Next, ProgramFault> {
    let mut writer = stream;
    if writer.write_all(line).is_err() {
        show(rt, b"the server has ended the session\n")?;
        return Ok(Next::NoMore);
    }
    if sent.len() == line.len() || sent == b"bye".as_slice() {
        return Ok(Next::NoMore);
    }
    if reply(rt, replies)? {
        return Ok(Next::Another);
    }
    show(rt, b"the server has ended the session\n")?;
    Ok(Next::NoMore)
}

/// Shows the next reply, if there is one.
fn reply(
    rt: &HostRuntime,
    replies: &mut BufReader<&UnixStream, Global>,
) -> Result<bool, ProgramFault> {
    let mut line = Vec::new(rt.alloc());
    let Ok(count) = replies.read_until(END, &mut line) else {
        return Ok(false);
    };
    if count == 0 {
        return Ok(false);
    }
    let told = bare(line.as_slice());
    show(rt, told)?;
    if let Some(refusal) = refusal_said(told) {
        show(rt, b"  ")?;
        show(rt, phrase(refusal).as_bytes())?;
    }
    show(rt, b"\n")?;
    Ok(true)
}

/// Shows all that still comes.
fn rest(
    rt: &HostRuntime,
    replies: &mut BufReader<&UnixStream, Global>,
) -> Result<(), ProgramFault> {
    for _ in 0..u64::MAX {
        if !reply(rt, replies)? {
            return Ok(());
        }
    }
    Ok(())
}

/// Writes the lines that went to the server to a file, or says why it cannot.
fn saved(rt: &HostRuntime, file: &[u8], script: &[u8]) -> Result<(), ProgramFault> {
    let Ok(path) = str::from_utf8(file) else {
        return show(rt, b"the name of the file is not UTF-8 text\n");
    };
    if let Err(error) = fs::write(rt, path, script) {
        let words = Reason::of(error.kind()).words();
        return show(
            rt,
            format!(in rt.alloc(); "cannot save {path}\n{words}\n")?.as_bytes(),
        );
    }
    Ok(())
}

/// Writes to the terminal.
fn show(rt: &HostRuntime, bytes: &[u8]) -> Result<(), ProgramFault> {
    if rt.stdout().write_all(bytes).is_err() {
        return Err(ProgramFault::Write);
    }
    Ok(())
}
