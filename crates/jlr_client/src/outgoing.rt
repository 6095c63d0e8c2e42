//! What was read from a pipe and is on its way to the server.
ghost use Rattle.std.specs.Prelude.{◌≡◌, ◌⊎◌, ◌↔◌, ℕ, [], IfOk, IsTrue, MatchBool, OnOk, drop, take};
ghost use Rattle.std.specs.Io.KnownBytes.{Appends, Consumes};

use jlr_command_line::fault::ProgramFault;
use std::alloc::{AllocError, Global};
use std::io::{self, ErrorKind, Read, Write};
use std::marker::Model;

/// How many bytes are taken at once.
pub(crate) const ROOM: usize = 65_536;

/// How far the input is.
#[derive(Clone, Copy, PartialEq, Eq, Debug)]
pub enum Stage {
    /// More may come.
    Open,
    /// It has ended; what was read may still have to go.
    Ended,
    /// All went, and the server knows that no more comes.
    Told,
}

/// What was read and has not gone to the server yet. Contracts see its bytes, and how far the input is.
#[derive(Drop)]
pub struct Outgoing {
    room: Vec<u8>,
    from: usize,
    to: usize,
    stage: Stage,
}

impl Model for Outgoing {
    ghost use Rattle.std.specs.Prelude.{◌≤◌, length};
    ghost use Rattle.jlr_client.specs.Passing.{Waiting, between};

    ghost Value = { Waiting };

    ghost view = { λ o. record { bytes = between o.room.items o.from o.to; stage = o.stage } };

    ghost invariant = { λ o. (o.from ≤ o.to) × (o.to ≤ length o.room.items) };
}

impl Outgoing {
    /// Nothing was read yet.
    ///
    /// # Errors
    /// `AllocError` where there is no memory for what is read at once.
    pub fn new(alloc: Global) -> Result<Self, AllocError>
        ensures { IfOk result (λ o. (o.bytes ≡ []) × (o.stage ≡ Stage.Open)) }
    {
        Ok(Outgoing {
            room: vec![in alloc; 0u8; ROOM]?,
            from: 0,
            to: 0,
            stage: Stage::Open,
        })
    }

    /// Whether all that was read has gone.
    pub fn is_empty(&self) -> bool
        ensures { IsTrue result ↔ (self.now.bytes ≡ []) }
    {
        self.from >= self.to
    }

    /// Whether more of the input is wanted: all has gone, and it has not ended.
    pub fn wants_more(&self) -> bool
        ensures { IsTrue result ↔ ((self.now.bytes ≡ []) × (self.now.stage ≡ Stage.Open)) }
    {
        self.is_empty() && self.stage == Stage::Open
    }

    /// Takes what the input gives at once, where all that was read has gone.
    ///
    /// # Errors
    /// `Read` where a read fails, but for one that is to be made again.
    pub fn fill<R: Read>(&mut self, reader: &mut R) -> Result<(), ProgramFault>
        requires { self.old.bytes ≡ [] }
        ensures { OnOk result (Consumes (R.remaining reader.old) (R.remaining reader.new) self.new.bytes) }
    {
        match reader.read(&mut self.room) {
            Ok(0) => {
                self.from = self.to;
                self.stage = Stage::Ended;
            }
            Ok(count) => {
                self.from = 0;
                self.to = count;
            }
            Err(error) if is_later(&error) => self.from = self.to,
            Err(_) => return Err(ProgramFault::Read),
        }
        Ok(())
    }

    /// Sends what the server takes at once. Where it takes nothing any more, nothing is read any more.
    pub fn send<W: Write>(&mut self, writer: &mut W)
        ensures { (n : ℕ) × Appends (W.contents writer.old) (W.contents writer.new) (take n self.old.bytes)
            × ((self.new ≡ record { bytes = drop n self.old.bytes; stage = self.old.stage })
            ⊎ (self.new.stage ≡ Stage.Told)) }
    {
        match writer.write(&self.room[self.from..self.to]) {
            Ok(count) => self.from += count,
            Err(error) if is_later(&error) => {}
            Err(_) => {
                self.from = self.to;
                self.stage = Stage::Told;
            }
        }
    }

    /// Whether the server is to be told that no more comes: the input has ended, and all went. It is told once.
    pub fn ends(&mut self) -> bool
        ensures due { IsTrue result ↔ ((self.old.bytes ≡ []) × (self.old.stage ≡ Stage.Ended)) }
        ensures told { MatchBool result (self.new ≡ record { bytes = []; stage = Stage.Told }) (self.new ≡ self.old) }
    {
        if self.stage == Stage::Ended && self.is_empty() {
            self.stage = Stage::Told;
            return true;
        }
        false
    }
}

/// Whether a call has to be made again later.
pub(crate) fn is_later(error: &io::Error) -> bool {
    matches!(error.kind(), ErrorKind::WouldBlock | ErrorKind::Interrupted)
}
