//! The most lines and the most bytes of a session.
use super::heap::Heap;
use jlr_session::shell::{SessionEnd, converse};
use std::io::{self, Read, Write};
use std::test::Fail;

/// Gives one byte so many times, then these bytes, and ends. Counts its reads.
#[derive(Drop)]
struct Repeated {
    byte: u8,
    left: usize,
    then: &'static [u8],
    reads: u32,
}

impl Read for Repeated {
    fn read(&mut self, buf: &mut [u8]) -> io::Result<usize> {
        self.reads = self.reads.wrapping_add(1);
        if self.left == 0 {
            return self.then.read(buf);
        }
        let count = self.left.min(buf.len());
        buf[..count].fill(self.byte);
        self.left -= count;
        Ok(count)
    }
}

/// Counts the bytes that it takes.
#[derive(Drop)]
struct Tally(u64);

impl Write for Tally {
    fn write(&mut self, buf: &[u8]) -> io::Result<usize> {
        self.0 = self.0.wrapping_add(buf.len() as u64);
        Ok(buf.len())
    }

    fn flush(&mut self) -> io::Result<()> {
        Ok(())
    }
}

/// How a session over one byte so many times ends, how many bytes it sends, and how often it reads.
fn session(byte: u8, count: usize, then: &'static [u8]) -> (SessionEnd, u64, u32) {
    let mut reader = Repeated {
        byte,
        left: count,
        then,
        reads: 0,
    };
    let mut writer = Tally(0);
    let end = converse::<Heap, Heap, (), Repeated, Tally>(
        &mut reader,
        &mut writer,
        &mut Heap::new(false),
        &mut (),
    );
    (end, writer.0, reader.reads)
}

/// A session over one byte so many times, how it ends, how many bytes it sends, and how often it reads.
struct Row {
    case: &'static str,
    byte: u8,
    count: usize,
    then: &'static [u8],
    end: SessionEnd,
    sent: u64,
    reads: u32,
}

// A session takes 67,108,864 bytes; the read after them is not made.
const ROWS: &[Row] = &[
    Row {
        case: "the millionth line is the last",
        byte: b'\n',
        count: 1_000_007,
        then: b"",
        end: SessionEnd::TooManyLines,
        sent: 5_000_000,
        reads: 245,
    },
    Row {
        case: "bye may be the millionth line",
        byte: b'\n',
        count: 999_999,
        then: b"bye\ngc\n",
        end: SessionEnd::Bye,
        sent: 4_999_998,
        reads: 246,
    },
    Row {
        case: "a line without end is not read on",
        byte: b'x',
        count: 67_108_864,
        then: b"",
        end: SessionEnd::ReadFault,
        sent: 0,
        reads: 16_384,
    },
    Row {
        case: "a line of all bytes but one is unfinished",
        byte: b'x',
        count: 67_108_863,
        then: b"",
        end: SessionEnd::Truncated,
        sent: 5,
        reads: 16_385,
    },
];

// A try wants `rt try --test --seconds 300`.
#[test]
fn the_most_lines_and_bytes() -> Result<(), Fail> {
    for row in ROWS {
        let (end, sent, reads) = session(row.byte, row.count, row.then);
        if end != row.end || sent != row.sent || reads != row.reads {
            return Err(Fail::new(row.case));
        }
    }
    Ok(())
}
