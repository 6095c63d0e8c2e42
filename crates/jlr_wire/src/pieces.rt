//! Lines out of a stream of bytes that comes in pieces.
ghost use Rattle.std.specs.Prelude.{◌≡◌, ◌≤◌, ◌<◌, [], length, false, nat_lt, ◌&&◌, not, take, ◌++◌, cond};
ghost use Rattle.jlr_wire.specs.Lines.{HeldLine, nothing_held};
ghost use Rattle.jlr_wire.specs.Feeding.{Feeds, FindsLine, line_at};

use crate::cut::cut_at;
use arrayvec::ArrayVec;
use std::marker::Model;

/// The most bytes of a line, without its end.
pub const LINE_LIMIT: usize = 512;

/// One byte more than a line may have, so that a line that is too long shows.
const HELD_LIMIT: usize = 513;

/// What the bytes that were taken came to.
#[derive(Clone, Copy, Debug, PartialEq, Eq)]
pub enum Got {
    /// No line ended.
    More,
    /// A line of at most 512 bytes ended.
    Line,
    /// A line of more than 512 bytes ended.
    TooLong,
}

/// How many of the bytes were taken, and what they came to.
#[derive(Clone, Copy, Debug, PartialEq, Eq)]
pub struct Fed {
    pub used: usize,
    pub got: Got,
}

/// Where a line lies that has just ended.
#[derive(Clone, Copy, Debug, PartialEq, Eq)]
pub enum LineAt {
    /// No line ended.
    Nowhere,
    /// The line lies whole in the bytes that were taken, before its end.
    Bytes,
    /// The line came in pieces or is too long: what is held of it.
    Held,
}

/// How many of the bytes were taken, and where the line lies that ended in them.
#[derive(Clone, Copy, Debug, PartialEq, Eq)]
pub struct Next {
    pub used: usize,
    pub at: LineAt,
}

/// Cuts a stream into its lines, in whatever pieces it comes. It takes no memory: of a line that
/// is too long it keeps the first 513 bytes.
#[derive(Drop)]
pub struct Pieces {
    held: ArrayVec<u8, HELD_LIMIT>,
    ended: bool,
}

impl Model for Pieces {
    ghost Value = { HeldLine };

    ghost view = { λ p. record { bytes = p.held.items; ended = p.ended } };
}

impl Pieces {
    /// A stream of which no byte has come.
    pub fn new() -> Pieces
        ensures { result ≡ nothing_held }
    {
        Pieces {
            held: ArrayVec::new(),
            ended: false,
        }
    }

    /// Takes bytes up to and with the next end of a line, or all where none of them ends one.
    pub fn feed(&mut self, bytes: &[u8]) -> Fed
        ensures fed { Feeds self.old bytes.now result.used result.got self.new }
        ensures bound { result.used ≤ length bytes.now }
        ensures progress { 0 < length bytes.now → 0 < result.used }
    {
        begin(&mut self.held, self.ended);
        let Some((front, _)) = cut_at(bytes, b'\n') else {
            hold(&mut self.held, bytes);
            self.ended = false;
            return Fed {
                used: bytes.len(),
                got: Got::More,
            };
        };
        hold(&mut self.held, front);
        self.ended = true;
        let used = front.len() + 1;
        if self.held.len() <= LINE_LIMIT {
            return Fed {
                used,
                got: Got::Line,
            };
        }
        Fed {
            used,
            got: Got::TooLong,
        }
    }

    /// As `feed`, but a line that lies whole in the bytes is left where it lies.
    #[inline(always)]
    pub fn next(&mut self, bytes: &[u8]) -> Next
        ensures line { FindsLine self.old bytes.now result.used result.at self.new }
        ensures bound { result.used ≤ length bytes.now }
        ensures progress { 0 < length bytes.now → 0 < result.used }
    {
        if !self.unfinished() {
            if let Some((line, _)) = cut_at(bytes, b'\n') {
                if line.len() <= LINE_LIMIT {
                    return Next {
                        used: line.len() + 1,
                        at: LineAt::Bytes,
                    };
                }
            }
        }
        self.next_held(bytes)
    }

    /// As `next`, where no line lies whole in the bytes.
    #[inline(never)]
    fn next_held(&mut self, bytes: &[u8]) -> Next
        ensures line { FindsLine self.old bytes.now result.used result.at self.new }
        ensures bound { result.used ≤ length bytes.now }
        ensures progress { 0 < length bytes.now → 0 < result.used }
    {
        let fed = self.feed(bytes);
        let at = match fed.got {
            Got::More => LineAt::Nowhere,
            _ => LineAt::Held,
        };
        Next { used: fed.used, at }
    }

    /// The line that ended in these bytes, without its end. Of more than 513 bytes it gives the first 513.
    #[inline(always)]
    pub fn line_at<'a>(&'a self, bytes: &'a [u8], next: &Next) -> &'a [u8]
        requires some { 0 < next.now.used }
        requires bound { next.now.used ≤ length bytes.now }
        ensures { result.now ≡ line_at next.now.at next.now.used bytes.now self.now }
    {
        match next.at {
            LineAt::Bytes => &bytes[..next.used - 1],
            LineAt::Nowhere | LineAt::Held => self.line(),
        }
    }

    /// The line that has just ended, without its end, or the bytes that have come of the line under
    /// way. Of more than 513 bytes it gives the first 513.
    pub fn line(&self) -> &[u8]
        ensures bytes { result.now ≡ self.now.bytes }
        ensures bound { length result.now ≤ 513 }
    {
        self.held.as_slice()
    }

    /// Whether bytes have come of a line that has not ended.
    pub fn unfinished(&self) -> bool
        ensures { result ≡ (not self.now.ended && nat_lt 0 (length self.now.bytes)) }
    {
        !self.ended && !self.held.is_empty()
    }
}

/// Empties what is held where its line has ended.
fn begin(held: &mut ArrayVec<u8, HELD_LIMIT>, ended: bool)
    ensures { held.new.items ≡ cond ended [] held.old.items }
{
    if ended {
        held.clear();
    }
}

/// Adds bytes at the end, as far as there is room.
fn hold(held: &mut ArrayVec<u8, HELD_LIMIT>, bytes: &[u8])
    ensures { held.new.items ≡ take 513 (held.old.items ++ bytes.now) }
{
    let room = held.remaining_capacity();
    let kept = &bytes[..room.min(bytes.len())];
    held.try_extend_from_slice(kept).unwrap();
}
