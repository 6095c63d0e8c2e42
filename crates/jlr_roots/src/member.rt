//! One mutator that may join.
ghost use Rattle.std.specs.Prelude.{◌≡◌, ◌<◌, IfOk, IsTrue, Some, false, is_some, option_and_then, option_map};
ghost use Rattle.jlr_machine.specs.Objects.{at};
ghost use Rattle.jlr_machine.specs.Calls.{fresh_session};
ghost use Rattle.jlr_roots.specs.HandleTable.{IsHandleTable};
ghost use Rattle.jlr_roots.specs.Sessions.{absent, session_in, session_in_call, without_handle};
ghost use Rattle.jlr_roots.specs.Walk.{slot_at};

use crate::handles::Handles;
use jlr_machine::machine::{Call, Session};
use jlr_types::{Handle, Slot};
use std::alloc::{AllocError, Global};

/// The place after the handles' is the fence's.
const FENCE_PLACE: usize = 251;

/// A mutator, joined or not, with its handles, its call and the fence of that call.
#[derive(Drop)]
pub(crate) struct Member {
    pub(crate) joined: bool,
    pub(crate) handles: Handles,
    pub(crate) fence: Option<Slot>,
    pub(crate) call: Call,
}

impl Member {
    pub(crate) fn absent(alloc: Global) -> Result<Self, AllocError>
        ensures { IfOk result (λ member. member ≡ absent) }
    {
        Ok(Member {
            joined: false,
            handles: Handles::new(alloc)?,
            fence: None,
            call: Call::Free,
        })
    }

    /// It holds nothing yet, and has no call.
    pub(crate) fn join(&mut self)
        ensures session { session_in self.new ≡ Some fresh_session }
        ensures table { IsHandleTable self.new.handles }
    {
        self.handles.clear();
        self.fence = None;
        self.call = Call::Free;
        self.joined = true;
    }

    pub(crate) fn leave(&mut self)
        ensures { self.new ≡ record self.old { joined = false } }
    {
        self.joined = false;
    }

    /// The session as plain data, if it is joined.
    pub(crate) fn image(&self, alloc: Global) -> Result<Option<Session>, AllocError>
        ensures { IfOk result (λ session. session ≡ session_in self.now) }
    {
        if !self.joined {
            return Ok(None);
        }
        Ok(Some(Session {
            handles: self.handles.image(alloc)?,
            fence: self.fence,
            call: self.call,
        }))
    }

    pub(crate) fn drop_handle(&mut self, handle: Handle)
        requires { IsTrue (is_some (option_and_then (λ s. at s.handles handle) (session_in self.old))) }
        ensures removed { session_in self.new ≡ option_map (without_handle handle) (session_in self.old) }
        ensures table { IsHandleTable self.new.handles }
    {
        self.handles.remove(handle);
    }

    pub(crate) fn set_call(&mut self, fence: Option<Slot>, call: Call)
        ensures session { session_in self.new ≡ option_map (session_in_call fence call) (session_in self.old) }
        ensures handles { self.new.handles ≡ self.old.handles }
    {
        self.fence = fence;
        self.call = call;
    }

    /// The slot at a place, if there is one.
    pub(crate) fn root(&self, place: usize) -> Option<Slot>
        requires { place < 252 }
        ensures { result ≡ option_and_then (slot_at place) (session_in self.now) }
    {
        if !self.joined {
            return None;
        }
        if place == FENCE_PLACE {
            return self.fence;
        }
        self.handles.get(Handle::new(place as u8))
    }
}
