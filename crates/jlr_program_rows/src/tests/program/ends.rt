//! Each way in which a session ends: the status of the program, what it says on the standard error, and what it
//! answered before. The texts are those of the description of the protocol.
//!
//! Lists are parted by empty lines. The first line of a list, which ends with a colon, says what its rows show, and one
//! that begins with `#` is a remark. A row is what is read, an arrow, and, parted by bars, the status, what is said,
//! and what is answered. A `;` ends a line. After ` to ` stands where the answers go, if they are not kept.
use jlr_command_line::report::status_after;
use jlr_commands::session::session;
use jlr_device::real::RealDevice;
use jlr_types::Limits;
use std::alloc::{AllocError, Global};
use std::cell::RefCell;
use std::fmt::Display;
use std::fs::{self, File, OpenOptions};
use std::io::{self, PipeWriter, Read, Write};
use std::os::unix::net::UnixStream;
use std::str;
use std::test::Fail;

const ROWS: &str = "
    a session ends with its status:
    nothing -> 0||
    bye;gc; -> 0||ok;
    new -; -> 0||= 1;
    new -;bye -> 4|refheap: unfinished line;|= 1;! 15;

    a file whose guard has died is read back:
    open w refheap_hello;write 1 6869;drop 1;gc;open r refheap_hello;read 1 200;read 1 200;stat;bye; -> 0||= 1;wrote 2;ok;ok;= 1;data 6869;end;stat 3 1 1 1 0;ok;

    an input that is a directory cannot be read:
    directory -> 1|refheap: read failed;|

    a session of a million lines has too many:
    million to nowhere -> 4|refheap: too many lines;|

    an output that is full, closed or gone cannot be written:
    new -; to full -> 1|refheap: write failed;|
    # The system refuses a write here as it does at a closed descriptor: it is no descriptor for writing.
    new -; to closed -> 1|refheap: write failed;|
    # A pipe that nobody reads.
    new -; to pipe -> 1|refheap: write failed;|
    # A stream whose peer is gone.
    new -; to stream -> 1|refheap: write failed;|
";

/// A standard error that keeps what is written.
#[derive(Clone, Copy)]
pub(crate) struct Kept<'a> {
    pub(crate) alloc: Global,
    pub(crate) text: &'a RefCell<String>,
}

impl Kept<'_> {
    fn keep(&self, text: &str) -> io::Result<()> {
        if let Ok(mut kept) = self.text.try_borrow_mut() {
            kept.push_str(text)?;
        }
        Ok(())
    }
}

impl Eprint for Kept<'_> {
    fn eprint<D: Display + Drop>(&self, value: D) -> io::Result<()> {
        self.keep(format!(in self.alloc; "{value}")?.as_str())
    }

    fn eprintln<D: Display + Drop>(&self, value: D) -> io::Result<()> {
        self.keep(format!(in self.alloc; "{value}\n")?.as_str())
    }
}

/// What a session reads.
#[derive(Drop)]
enum Input<'a> {
    Text(&'a [u8]),
    File(File),
    /// Empty lines, so many.
    EmptyLines(usize),
}

impl Read for Input<'_> {
    fn read(&mut self, buf: &mut [u8]) -> io::Result<usize> {
        match self {
            Input::Text(text) => text.read(buf),
            Input::File(file) => file.read(buf),
            Input::EmptyLines(left) => {
                let count = buf.len().min(*left);
                buf[..count].fill(b'\n');
                *left -= count;
                Ok(count)
            }
        }
    }
}

/// Where the answers go.
#[derive(Drop)]
enum Output {
    Kept(Vec<u8>),
    Nowhere,
    File(File),
    Pipe(PipeWriter),
    Stream(UnixStream),
}

impl Write for Output {
    fn write(&mut self, buf: &[u8]) -> io::Result<usize> {
        match self {
            Output::Kept(kept) => kept.write(buf),
            Output::Nowhere => Ok(buf.len()),
            Output::File(file) => file.write(buf),
            Output::Pipe(pipe) => pipe.write(buf),
            Output::Stream(stream) => stream.write(buf),
        }
    }

    fn flush(&mut self) -> io::Result<()> {
        Ok(())
    }
}

impl Output {
    /// The answers, if they are kept.
    fn text(&self) -> &str {
        match self {
            Output::Kept(kept) => str::from_utf8(kept).unwrap_or("what was answered is no text"),
            _ => "",
        }
    }
}

/// The input that a word names, or that has these bytes.
fn input_of<'a>(rt: HostRuntime, word: &str, bytes: &'a [u8]) -> io::Result<Input<'a>> {
    match word {
        "nothing" => Ok(Input::EmptyLines(0)),
        "directory" => Ok(Input::File(File::open(&rt, "/")?)),
        "million" => Ok(Input::EmptyLines(1_000_000)),
        _ => Ok(Input::Text(bytes)),
    }
}

/// The output that a word names.
fn output_of(rt: HostRuntime, word: &str) -> Result<Output, Fail> {
    match word {
        "kept" => Ok(Output::Kept(Vec::new(rt.alloc()))),
        "nowhere" => Ok(Output::Nowhere),
        "full" => Ok(Output::File(OpenOptions::new().write(true).open(&rt, "/dev/full")?)),
        "closed" => Ok(Output::File(File::open(&rt, "/dev/null")?)),
        "pipe" => {
            let (_, pipe) = io::pipe(&rt)?;
            Ok(Output::Pipe(pipe))
        }
        "stream" => {
            let (_, stream) = UnixStream::pair(&rt)?;
            Ok(Output::Stream(stream))
        }
        _ => Err(Fail::from("no output")),
    }
}

/// The bytes of lines, each of which ends with `;`.
fn lines(alloc: Global, text: &str) -> Result<Vec<u8>, AllocError> {
    let mut bytes = Vec::new(alloc);
    for byte in text.as_bytes() {
        bytes.push(if *byte == b';' { b'\n' } else { *byte })?;
    }
    Ok(bytes)
}

/// The status after a session with 16 cells over real files, and what was said on the standard error.
fn ended(
    rt: HostRuntime,
    reader: &mut Input<'_>,
    writer: &mut Output,
) -> Result<(u8, String), Fail> {
    let limits = Limits::checked(16, 1, 16, 4, 10_000, 64)
        .ok()
        .ok_or("limits")?;
    let mut device = RealDevice::new(rt);
    let text = RefCell::new(String::new(rt.alloc()));
    let outcome = session(rt.alloc(), limits, reader, writer, &mut device);
    let status = status_after(
        Kept {
            alloc: rt.alloc(),
            text: &text,
        },
        &outcome,
    );
    Ok((status, text.into_inner()))
}

/// How the session of a row ends: the status, what is said, and what is answered.
fn ending(rt: HostRuntime, asked: &str) -> Result<String, Fail> {
    let (input, output) = asked.split_once(" to ").unwrap_or((asked, "kept"));
    let bytes = lines(rt.alloc(), input)?;
    let mut reader = input_of(rt, input, bytes.as_slice())?;
    let mut writer = output_of(rt, output)?;
    let (status, said) = ended(rt, &mut reader, &mut writer)?;
    let answers = writer.text();
    Ok(format!(in rt.alloc(); "{status}|{said}|{answers}")?)
}

/// The session of a row ends as it has to.
fn played(rt: HostRuntime, label: &str, row: &str) -> Result<(), Fail> {
    let (asked, wanted) = row.split_once(" -> ").ok_or("no row")?;
    let got = ending(rt, asked)?;
    if got.as_bytes() != lines(rt.alloc(), wanted)?.as_slice() {
        let text = format!(in rt.alloc(); "{label}, at {row}: {got}")?;
        return Err(Fail::new(text));
    }
    Ok(())
}

/// Each row of a list does so.
fn play_list(rt: HostRuntime, label: &str, rows: &str) -> Result<(), Fail> {
    for row in rows.lines() {
        let row = row.trim();
        if !row.is_empty() && !row.starts_with("#") {
            played(rt, label, row)?;
        }
    }
    Ok(())
}

#[test]
fn sessions_end_with_their_status(rt: HostRuntime) -> Result<(), Fail> {
    let _ = fs::remove_file(&rt, "refheap_hello");
    for list in ROWS.split("\n\n") {
        let (label, rows) = list.split_once(":\n").ok_or("a list without a label")?;
        play_list(rt, label.trim(), rows)?;
    }
    fs::remove_file(&rt, "refheap_hello")?;
    Ok(())
}
