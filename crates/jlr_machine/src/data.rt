//! What one call reads, behind one place: an ask or an answer that tells none stays small.
ghost use Rattle.std.specs.Prelude.{◌≡◌, ◌≤◌, ◌↔◌, [], IfOk, IfSome, IsSome, is_some, length};

use crate::text::CallBytes;
use std::alloc::{AllocError, Global};
use std::marker::Model;

/// What one call read: at most 200 bytes. It takes memory, also where it holds none.
#[derive(Drop)]
pub struct Data {
    bytes: Box<CallBytes>,
}

impl Model for Data {
    ghost use Rattle.std.specs.Prelude.{ℕ, List};

    ghost Value = { List ℕ };

    ghost view = { λ d. d.bytes.value };
}

impl Data {
    /// Room for what a call reads. It holds no byte.
    ///
    /// # Errors
    /// `AllocError` where there is no memory.
    pub fn new(alloc: Global) -> Result<Self, AllocError>
        ensures { IfOk result (λ d. d ≡ []) }
    {
        Ok(Data {
            bytes: Box::new(alloc, CallBytes::new())?,
        })
    }

    /// These bytes, or none where they are more than 200.
    ///
    /// # Errors
    /// `AllocError` where there is no memory.
    pub fn from_slice(alloc: Global, bytes: &[u8]) -> Result<Option<Self>, AllocError>
        ensures fits { IfOk result (λ found. IsSome found ↔ (length bytes.now ≤ 200)) }
        ensures bytes { IfOk result (λ found. IfSome found (λ d. d ≡ bytes.now)) }
    {
        let Some(bytes) = CallBytes::from_slice(bytes) else {
            return Ok(None);
        };
        Ok(Some(Data {
            bytes: Box::new(alloc, bytes)?,
        }))
    }

    /// The bytes, at most 200.
    pub fn as_slice(&self) -> &[u8]
        ensures bytes { result.now ≡ self.now }
        ensures fits { length result.now ≤ 200 }
    {
        self.bytes.as_slice()
    }

    /// Puts these bytes, at most 200, in place of those that it holds. Takes no memory.
    pub fn fill(&mut self, bytes: &[u8])
        requires { length bytes.now ≤ 200 }
        ensures { self.new ≡ bytes.now }
    {
        self.bytes.fill(bytes);
    }

    /// The same bytes in room that is there. Takes no memory.
    pub fn copy_into(&self, room: Data) -> Data
        ensures { result ≡ self.now }
    {
        let mut room = room;
        room.fill(self.as_slice());
        room
    }

    /// The same bytes again.
    ///
    /// # Errors
    /// `AllocError` where there is no memory.
    pub fn copy(&self, alloc: Global) -> Result<Data, AllocError>
        ensures { IfOk result (λ copy. copy ≡ self.now) }
    {
        Ok(self.copy_into(Data::new(alloc)?))
    }
}

/// Room for what a call reads, in which the history keeps it.
#[derive(Drop)]
pub struct CopyRoom {
    bytes: Data,
}

impl CopyRoom {
    /// Such room.
    ///
    /// # Errors
    /// `AllocError` where there is no memory.
    pub fn new(alloc: Global) -> Result<Self, AllocError> {
        Ok(CopyRoom {
            bytes: Data::new(alloc)?,
        })
    }

    /// The room itself, if there is any.
    #[inline]
    pub fn into_data(room: Option<Self>) -> Option<Data>
        ensures { is_some result ≡ is_some room }
    {
        match room {
            Some(CopyRoom { bytes }) => Some(bytes),
            None => None,
        }
    }
}
