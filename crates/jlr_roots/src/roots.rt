//! The roots that all mutators hold.
ghost use Rattle.std.specs.Prelude.{◌≡◌, ◌*◌, ◌<◌, IfOk, IfNone, IfSome, IsTrue, None, is_some, length};
ghost use Rattle.std.specs.Prelude.{option_and_then, option_map, replicate};
ghost use Rattle.jlr_machine.specs.declared.machine.Call.TheVariants.{Free};
ghost use Rattle.jlr_machine.specs.Objects.{at, change_at, empty_at, set_at};
ghost use Rattle.jlr_machine.specs.Calls.{fresh_session};
ghost use Rattle.jlr_roots.specs.Sessions.{lowest_handle, session_has_call, session_has_free_handle, sessions_in};
ghost use Rattle.jlr_roots.specs.Sessions.{slot_held, session_in_call};
ghost use Rattle.jlr_roots.specs.Sessions.{with_slot, without_handle};
ghost use Rattle.jlr_roots.specs.Walk.{root_at, slot_at, slots_held, walked};

use crate::member::Member;
use jlr_machine::machine::{Call, Session};
use jlr_machine::table::Table;
use jlr_types::{Handle, Mutator, Slot};
use std::alloc::{AllocError, Global};
use std::marker::Model;

/// The places of one mutator: its handles', and its fence's.
const PLACES: usize = 252;

/// The roots that mutators hold, by mutator.
#[derive(Drop)]
pub struct Roots {
    members: Vec<Member>,
}

impl Model for Roots {
    ghost use Rattle.std.specs.Prelude.{List, Option};
    ghost use Rattle.jlr_machine.specs.declared.machine.Session.{Session};

    ghost Value = { List (Option Session) };

    ghost use Rattle.jlr_roots.specs.Sessions.{sessions_in, AreMembers};

    ghost view = { λ a. sessions_in a.members.items };

    ghost invariant = { λ a. AreMembers a.members.items };
}

impl Roots {
    /// So many mutators may join; none is joined.
    pub fn new(alloc: Global, sessions: u8) -> Result<Self, AllocError>
        ensures { IfOk result (λ roots. roots ≡ replicate sessions None) }
    {
        let mut members = Vec::new(alloc);
        for _ in 0..sessions {
            members.push(Member::absent(alloc)?)?;
        }
        Ok(Roots { members })
    }

    /// How many mutators may join. Their numbers are those below.
    pub fn mutator_count(&self) -> usize
        ensures { result ≡ length self.now }
    {
        self.members.len()
    }

    /// Whether a mutator is joined.
    pub fn is_joined(&self, mutator: Mutator) -> bool
        ensures { result ≡ is_some (at self.now mutator) }
    {
        match self.members.get(mutator.number() as usize) {
            Some(member) => member.joined,
            None => false,
        }
    }

    /// A mutator joins, with no handle in use and no call.
    pub fn join(&mut self, mutator: Mutator)
        requires in_range { mutator < length self.old }
        requires absent { at self.old mutator ≡ None }
        ensures { self.new ≡ set_at self.old mutator fresh_session }
    {
        let member = &mut self.members[mutator.number() as usize];
        member.join();
    }

    /// A mutator leaves. Its handles and its fence hold nothing any more.
    pub fn leave(&mut self, mutator: Mutator)
        requires { IsTrue (is_some (at self.old mutator)) }
        ensures { self.new ≡ empty_at self.old mutator }
    {
        let member = &mut self.members[mutator.number() as usize];
        member.leave();
    }

    /// Whether a mutator is joined and has a free handle.
    pub fn has_free_handle(&self, mutator: Mutator) -> bool
        ensures { result ≡ session_has_free_handle self.now mutator }
    {
        match self.members.get(mutator.number() as usize) {
            Some(member) => member.joined && member.handles.has_room(),
            None => false,
        }
    }

    /// A mutator holds a slot by its lowest free handle, if fewer than 250 are in use.
    pub fn put_handle(&mut self, mutator: Mutator, slot: Slot) -> Option<Handle>
        requires { IsTrue (is_some (at self.old mutator)) }
        ensures room { is_some result ≡ session_has_free_handle self.old mutator }
        ensures none { IfNone result (self.new ≡ self.old) }
        ensures lowest { IfSome result (λ handle. handle ≡ lowest_handle self.old mutator) }
        ensures held { IfSome result (λ handle. self.new ≡ change_at self.old mutator (with_slot handle slot)) }
    {
        let member = &mut self.members[mutator.number() as usize];
        member.handles.put(slot)
    }

    /// A mutator uses a handle no more.
    pub fn drop_handle(&mut self, mutator: Mutator, handle: Handle)
        requires { IsTrue (is_some (slot_held self.old mutator handle)) }
        ensures { self.new ≡ change_at self.old mutator (without_handle handle) }
    {
        let member = &mut self.members[mutator.number() as usize];
        member.drop_handle(handle);
    }

    /// The slot that a mutator's handle stands for, if the handle is in use.
    pub fn lookup(&self, mutator: Mutator, handle: Handle) -> Option<Slot>
        ensures { result ≡ slot_held self.now mutator handle }
    {
        match self.members.get(mutator.number() as usize) {
            Some(member) if member.joined => member.handles.get(handle),
            _ => None,
        }
    }

    /// What a mutator is in the middle of, if it is joined.
    pub fn call(&self, mutator: Mutator) -> Option<Call>
        ensures { result ≡ option_map (λ s. s.call) (at self.now mutator) }
    {
        match self.members.get(mutator.number() as usize) {
            Some(member) if member.joined => Some(member.call),
            _ => None,
        }
    }

    /// The slot that the call of a mutator holds, if the mutator is joined and has a fence.
    pub fn fence(&self, mutator: Mutator) -> Option<Slot>
        ensures { result ≡ option_and_then (λ s. s.fence) (at self.now mutator) }
    {
        match self.members.get(mutator.number() as usize) {
            Some(member) if member.joined => member.fence,
            _ => None,
        }
    }

    /// Whether a mutator is joined and has a call in flight.
    pub fn has_call(&self, mutator: Mutator) -> bool
        ensures { result ≡ session_has_call self.now mutator }
    {
        match self.members.get(mutator.number() as usize) {
            Some(member) => member.joined && !matches!(member.call, Call::Free),
            None => false,
        }
    }

    /// A mutator begins a call, which holds the slot of its fence.
    pub fn begin_call(&mut self, mutator: Mutator, fence: Option<Slot>, call: Call)
        requires { IsTrue (is_some (at self.old mutator)) }
        ensures { self.new ≡ change_at self.old mutator (session_in_call fence call) }
    {
        let member = &mut self.members[mutator.number() as usize];
        member.set_call(fence, call);
    }

    /// A mutator's call ends, and its fence with it.
    pub fn end_call(&mut self, mutator: Mutator)
        requires { IsTrue (is_some (at self.old mutator)) }
        ensures { self.new ≡ change_at self.old mutator (session_in_call None Free) }
    {
        self.begin_call(mutator, None, Call::Free);
    }

    /// The sessions as plain data.
    ///
    /// # Errors
    /// `AllocError` where there is no memory for them.
    pub fn image(&self, alloc: Global) -> Result<Table<Session>, AllocError>
        ensures { IfOk result (λ mutators. mutators ≡ self.now) }
    {
        Ok(Table::from_vec(images(alloc, &self.members)?))
    }

    /// How many places there are. At those below, in order, are just the roots that mutators hold.
    pub fn places(&self) -> usize
        ensures count { result ≡ 252 * length self.now }
        ensures walk { walked self.now result ≡ slots_held self.now }
    {
        PLACES * self.members.len()
    }

    /// The root at a place, if there is one.
    pub fn root(&self, place: usize) -> Option<Slot>
        ensures { result ≡ root_at self.now place }
    {
        root(&self.members, place / PLACES, place % PLACES)
    }
}

fn images(alloc: Global, members: &[Member]) -> Result<Vec<Option<Session>>, AllocError>
    ensures { IfOk result (λ mutators. mutators.items ≡ sessions_in members.now) }
{
    let mut mutators = Vec::with_capacity(alloc, members.len())?;
    for member in members {
        mutators.push(member.image(alloc)?)?;
    }
    Ok(mutators)
}

fn root(members: &[Member], mutator: usize, place: usize) -> Option<Slot>
    requires { place < 252 }
    ensures { result ≡ option_and_then (slot_at place) (at (sessions_in members.now) mutator) }
{
    match members.get(mutator) {
        Some(member) => member.root(place),
        None => None,
    }
}
