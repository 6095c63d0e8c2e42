//! Readers that give their bytes in pieces and fail, and writers that fail.
use std::alloc::Global;
use std::io::{self, ErrorKind, Read, Write};

/// Which read fails.
#[derive(Clone, Copy)]
pub(super) enum Failing {
    Never,
    First,
    /// The first, since a signal interrupts it.
    Interrupted,
    /// The one after all bytes were given.
    Last,
}

/// How the bytes of a session come and go.
#[derive(Clone, Copy)]
pub(super) struct Streams {
    /// The first piece that is read has so many bytes, and each further one `step`.
    pub first: usize,
    pub step: usize,
    pub failing: Failing,
    /// A write takes at most so many bytes, and all writes together `room`. A write without room takes nothing, or
    /// fails.
    pub width: usize,
    pub room: usize,
    pub writes_fail: bool,
    /// So many flushes succeed.
    pub flushes: usize,
}

impl Streams {
    /// All in one piece, and nothing fails.
    pub(super) fn whole() -> Streams {
        Streams {
            first: 0,
            step: usize::MAX,
            failing: Failing::Never,
            width: usize::MAX,
            room: usize::MAX,
            writes_fail: false,
            flushes: usize::MAX,
        }
    }
}

/// Gives bytes as the streams say.
#[derive(Drop)]
pub(super) struct Pieced<'a> {
    pub bytes: &'a [u8],
    pub next: usize,
    pub step: usize,
    pub failing: Failing,
}

impl<'a> Pieced<'a> {
    pub(super) fn new(bytes: &'a [u8], streams: Streams) -> Pieced<'a> {
        Pieced {
            bytes,
            next: if streams.first > 0 {
                streams.first
            } else {
                streams.step
            },
            step: streams.step,
            failing: streams.failing,
        }
    }
}

impl Read for Pieced<'_> {
    fn read(&mut self, buf: &mut [u8]) -> io::Result<usize> {
        let fails = match self.failing {
            Failing::Never => false,
            Failing::First | Failing::Interrupted => true,
            Failing::Last => self.bytes.is_empty(),
        };
        if fails {
            let is_interrupted = matches!(self.failing, Failing::Interrupted);
            // A read after one that failed does not fail.
            self.failing = Failing::Never;
            if is_interrupted {
                return Err(io::Error::from(ErrorKind::Interrupted));
            }
            return Err(io::Error::from(ErrorKind::Other));
        }
        let count = self.next.min(self.bytes.len()).min(buf.len());
        let (front, back) = self.bytes.split_at(count);
        buf[..count].copy_from_slice(front);
        self.bytes = back;
        self.next = self.step;
        Ok(count)
    }
}

/// Takes bytes as the streams say, and counts the writes that take some or none.
#[derive(Drop)]
pub(super) struct Narrow {
    pub taken: Vec<u8>,
    pub writes: usize,
    width: usize,
    room: usize,
    fails: bool,
    flushes: usize,
}

impl Narrow {
    pub(super) fn new(alloc: Global, streams: Streams) -> Narrow {
        Narrow {
            taken: Vec::new(alloc),
            writes: 0,
            width: streams.width,
            room: streams.room,
            fails: streams.writes_fail,
            flushes: streams.flushes,
        }
    }
}

impl Write for Narrow {
    fn write(&mut self, buf: &[u8]) -> io::Result<usize> {
        if self.room == 0 && self.fails {
            return Err(io::Error::from(ErrorKind::Other));
        }
        let count = self.room.min(buf.len()).min(self.width);
        self.taken.extend_from_slice(buf.split_at(count).0)?;
        self.room -= count;
        self.writes = self.writes.saturating_add(1);
        Ok(count)
    }

    fn flush(&mut self) -> io::Result<()> {
        if self.flushes == 0 {
            return Err(io::Error::from(ErrorKind::Other));
        }
        self.flushes -= 1;
        Ok(())
    }
}
