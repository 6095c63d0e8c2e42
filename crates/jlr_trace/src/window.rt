//! A stream of bytes: those that were read and not yet used lie in a row.
ghost use Rattle.std.specs.Prelude.{◌≡◌, ◌≤◌, ◌<◌, [], length, drop, take, IfOk, IfErr};
ghost use Rattle.std.specs.Io.KnownBytes.{Consumes, IsAtEnd};
ghost use Rattle.jlr_trace_fields.specs.Spelling.{IsBytes};
ghost use Rattle.jlr_trace.specs.Streams.{HeldBytes, Fills, MoreIsRead, IsOutside};
ghost use Rattle.jlr_trace.specs.declared.window.StreamFault.TheVariants.{Damaged};
ghost use Rattle.jlr_trace.specs.declared.file.TraceFault.TheVariants.{NoMemory};

use crate::file::TraceFault;
use std::alloc::{AllocError, AllocFailed, Global};
use std::io::{ErrorKind, Read};
use std::marker::Model;

/// How many bytes one read asks for.
const CHUNK_SIZE: usize = 65_536;

/// How many bytes are held at most while more are read: an image has up to 1.1 GB.
const MOST_HELD: usize = 2_147_483_648;

/// Why a trace file was not read to its end.
#[derive(Clone, Copy, PartialEq, Eq, Debug)]
pub enum StreamFault {
    /// A read failed, for this reason.
    Unread(ErrorKind),
    /// The bytes are no trace file, or there is no memory.
    Damaged(TraceFault),
}

impl From<AllocError> for StreamFault {
    ghost from_gives = { λ _ e. e ≡ Damaged NoMemory };

    fn from(_e: AllocError) -> StreamFault {
        StreamFault::Damaged(TraceFault::NoMemory)
    }
}

impl<T: Drop> From<AllocFailed<T>> for StreamFault {
    ghost from_gives = { λ _ e. e ≡ Damaged NoMemory };

    fn from(_e: AllocFailed<T>) -> StreamFault {
        StreamFault::Damaged(TraceFault::NoMemory)
    }
}

/// Bytes of a stream that were read and not yet used, and the reader of those behind them.
#[derive(Drop)]
pub(crate) struct Window<R: Read> {
    reader: R,
    chunk: Vec<u8>,
    bytes: Vec<u8>,
    used: usize,
}

impl<R: Read> Model for Window<R> {
    ghost Value = { HeldBytes };

    ghost view = { λ w. record { front = drop w.used w.bytes.items; behind = R.remaining w.reader } };

    ghost invariant = { λ w. (w.used ≤ length w.bytes.items) × (0 < length w.chunk.items) };
}

impl<R: Read> Window<R> {
    /// A stream of which nothing was read.
    pub(crate) fn new(alloc: Global, reader: R) -> Result<Window<R>, AllocError>
    where
        R: Drop,
        ensures { IfOk result (λ w. w ≡ record { front = []; behind = R.remaining reader }) }
    {
        let chunk = vec![in alloc; 0; CHUNK_SIZE]?;
        Ok(Window {
            reader,
            chunk,
            bytes: Vec::new(alloc),
            used: 0,
        })
    }

    /// The bytes that are held.
    pub(crate) fn front(&self) -> &[u8]
        ensures front { result.now ≡ self.now.front }
        ensures bytes { IsBytes result.now }
    {
        are_bytes(&self.bytes[self.used..])
    }

    /// Reads further bytes: as many as are held at least, unless the stream ends. It says whether there were any.
    ///
    /// # Errors
    /// `Unread` where a read fails. `NoMemory` also where more bytes are held than an image takes that has all that it
    /// may: so the memory is bounded whatever the bytes say.
    pub(crate) fn fill(&mut self) -> Result<bool, StreamFault>
        ensures filled { IfOk result (λ any. Fills self.old self.new any) }
        ensures err { IfErr result (λ f. IsOutside f) }
    {
        drop_front(&mut self.bytes, self.used);
        self.used = 0;
        read_more(&mut self.reader, self.chunk.as_mut_slice(), &mut self.bytes)
    }

    /// Uses so many of them.
    pub(crate) fn advance(&mut self, count: usize)
        requires { count ≤ length self.old.front }
        ensures { self.new ≡ record { front = drop count self.old.front; behind = self.old.behind } }
    {
        self.used += count;
    }
}

/// The same bytes.
fn are_bytes(bytes: &[u8]) -> &[u8]
    ensures same { result.now ≡ bytes.now }
    ensures bytes { IsBytes result.now }
{
    bytes
}

/// Lets so many bytes at the front go.
fn drop_front(bytes: &mut Vec<u8>, count: usize)
    requires { count ≤ length bytes.old.items }
    ensures { bytes.new.items ≡ drop count bytes.old.items }
{
    let left = bytes.len() - count;
    bytes.copy_within(count.., 0);
    bytes.truncate(left);
}

/// One read, made again where a signal interrupts it.
fn read_chunk<R: Read>(reader: &mut R, chunk: &mut [u8]) -> Result<usize, StreamFault>
    ensures read { IfOk result (λ n. (n ≤ length chunk.new)
        × Consumes (R.remaining reader.old) (R.remaining reader.new) (take n chunk.new)
        × (n ≡ 0 → 0 < length chunk.new → IsAtEnd (R.remaining reader.new))) }
    ensures err { IfErr result (λ f. IsOutside f) }
{
    for _ in 0..u64::MAX {
        match reader.read(chunk) {
            Ok(count) => return Ok(count),
            Err(error) => {
                let kind = error.kind();
                if kind != ErrorKind::Interrupted {
                    return Err(StreamFault::Unread(kind));
                }
            }
        }
    }
    Err(StreamFault::Unread(ErrorKind::Other))
}

/// Reads bytes behind these, through a chunk: as many as there are at least, unless the stream ends. It says whether
/// there were any.
fn read_more<R: Read>(
    reader: &mut R,
    chunk: &mut [u8],
    bytes: &mut Vec<u8>,
) -> Result<bool, StreamFault>
    requires { 0 < length chunk.old }
    ensures more { IfOk result (λ any. MoreIsRead bytes.old.items (R.remaining reader.old)
        bytes.new.items (R.remaining reader.new) any) }
    ensures err { IfErr result (λ f. IsOutside f) }
{
    let held = bytes.len();
    if held > MOST_HELD {
        return Err(StreamFault::Damaged(TraceFault::NoMemory));
    }
    for _ in 0..u64::MAX {
        let count = read_chunk(reader, chunk)?;
        if count == 0 {
            return Ok(bytes.len() > held);
        }
        bytes.extend_from_slice(&chunk[..count])?;
        if bytes.len() >= 2 * held {
            return Ok(true);
        }
    }
    Err(StreamFault::Unread(ErrorKind::Other))
}
