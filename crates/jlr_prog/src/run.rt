//! A whole session over a heap of its own.
ghost use Rattle.std.specs.Prelude.{◌≡◌, ◌≤◌, ℕ, List, IfErr, IfOk, length};
ghost use Rattle.std.specs.Io.KnownBytes.{Appends, Consumes};
ghost use Rattle.jlr_session.specs.Limits.{FindsEnd, most_bytes};
ghost use Rattle.jlr_prog.specs.Histories.{IsWholeSession};

use crate::solo::Book;
use crate::solo::solo::Solo;
use jlr_device::Device;
use jlr_session::serve::serve;
use jlr_session::shell::SessionEnd;
use jlr_types::Limits;
use std::alloc::{AllocError, Global};
use std::io::{Read, Write};

/// A session of mutator 0 over the heap of an empty machine of these limits: it joins, the reader's lines are carried
/// out one after the other with the device's help, and it leaves at the end. Each line is answered by one reply line,
/// which is flushed; after it the handler hands over until nothing is pending, and the cleaner works until its line is
/// empty. How the session ended, and the book.
///
/// Each ask is a step of the book, and so of a core, which starts empty, and in which no file or socket is made or
/// lost; it is one entry, or the book declines it because memory or entry numbers ran out. All entries, those among
/// them that cuts let go, are a run of the machine of java.lang.ref, which keeps the promises of its package and ends
/// with the book's trace, where its core stands. The first entry is the join and the last the leave, which are both
/// answered `ok`; only where there is no memory for the join's place the session is not joined, and there is no entry.
/// What lies between belongs to the bytes that came in and went out. What is still open at the end stays in the book.
///
/// # Errors
/// `AllocError` where there is no room for the heap. Then nothing was read or written, and the device was not called.
pub fn run_over<D: Device, R: Read, W: Write>(
    alloc: Global,
    limits: Limits,
    reader: &mut R,
    writer: &mut W,
    device: &mut D,
) -> Result<(SessionEnd, Book<D::Res>), AllocError>
where
    D::Res: Drop,
    ensures session { IfOk result (λ x. (bytes : List ℕ) × (out : List ℕ)
        × Consumes (R.remaining reader.old) (R.remaining reader.new) bytes
        × Appends (W.contents writer.old) (W.contents writer.new) out
        × (length bytes ≤ most_bytes)
        × IsWholeSession (record {
          count =
              D.count;
          opens = D.may_open;
          connects = D.may_connect;
          failures = D.Res.handling.count;
        })
        D.Res.handling
        limits (FindsEnd (R.remaining reader.new) bytes) x.0 bytes device.old out device.new x.1) }
    ensures untouched { IfErr result (λ _. (reader.new ≡ reader.old) × (writer.new ≡ writer.old)
        × (device.new ≡ device.old)) }
{
    let mut solo = Solo::new(alloc, limits)?;
    let end = serve(reader, writer, &mut solo, device);
    Ok((end, solo.into_book()))
}
