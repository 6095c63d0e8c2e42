//! The mutators, their handles, and their calls in flight with the fences of those calls.
ghost use Rattle.std.specs.Prelude.{◌≡◌, ◌<◌, ℕ, Some, IfNone, IfOk, IfSome, IsTrue, None, is_some, length};
ghost use Rattle.jlr_machine.specs.declared.machine.Call.TheVariants.{Free};
ghost use Rattle.jlr_machine.specs.Objects.{at, change_at, empty_at, set_at};
ghost use Rattle.jlr_machine.specs.Calls.{fresh_session};
ghost use Rattle.jlr_roots.specs.Sessions.{lowest_handle, session_has_free_handle, slot_held};
ghost use Rattle.jlr_roots.specs.Sessions.{session_in_call, with_slot};
ghost use Rattle.jlr_roots.specs.Sessions.{without_handle};
ghost use Rattle.jlr_marks.specs.Marking.{Shaded};
ghost use Rattle.jlr_barrier.specs.Graphs.{fence_at, with_mutators};
ghost use Rattle.jlr_barrier.specs.Snapshots.{IsInHand, IsObject};

use crate::heap::Heap;
use crate::shade::shade_target;
use jlr_machine::machine::{Call, Session};
use jlr_machine::table::Table;
use jlr_roots::Roots;
use jlr_types::{Handle, Mutator, Slot};
use std::alloc::{AllocError, Global};

impl Heap {
    /// The roots that mutators hold: which of them are joined, their handles, calls and fences.
    pub fn roots(&self) -> &Roots
        ensures { result.now ≡ self.now.graph.mutators }
    {
        &self.roots
    }

    /// A mutator joins, with no handle in use and no call.
    pub fn join(&mut self, mutator: Mutator)
        requires in_range { mutator < length self.old.graph.mutators }
        requires absent { at self.old.graph.mutators mutator ≡ None }
        ensures graph { self.new.graph ≡ with_mutators self.old.graph
            (set_at self.old.graph.mutators mutator fresh_session) }
        ensures clock { self.new.clock ≡ self.old.clock }
        ensures marking { self.new.marking ≡ self.old.marking }
        ensures condemned { self.new.condemned ≡ self.old.condemned }
    {
        self.roots.join(mutator);
    }

    /// A mutator leaves. Its handles are dropped, and its fence.
    pub fn leave(&mut self, mutator: Mutator)
        requires { IsTrue (is_some (at self.old.graph.mutators mutator)) }
        ensures graph { self.new.graph ≡ with_mutators self.old.graph (empty_at self.old.graph.mutators mutator) }
        ensures clock { self.new.clock ≡ self.old.clock }
        ensures marking { self.new.marking ≡ self.old.marking }
        ensures condemned { self.new.condemned ≡ self.old.condemned }
    {
        self.roots.leave(mutator);
    }

    /// The mutator holds a slot by its lowest free handle, if it has one.
    pub fn put_handle(&mut self, mutator: Mutator, slot: Slot) -> Option<Handle>
        requires joined { IsTrue (is_some (at self.old.graph.mutators mutator)) }
        requires held { IsInHand self.old slot }
        ensures room { is_some result ≡ session_has_free_handle self.old.graph.mutators mutator }
        ensures none { IfNone result (self.new.graph ≡ self.old.graph) }
        ensures lowest { IfSome result (λ handle. handle ≡ lowest_handle self.old.graph.mutators mutator) }
        ensures held { IfSome result (λ handle. self.new.graph
            ≡ with_mutators self.old.graph (change_at self.old.graph.mutators mutator (with_slot handle slot))) }
        ensures clock { self.new.clock ≡ self.old.clock }
        ensures marking { self.new.marking ≡ self.old.marking }
        ensures condemned { self.new.condemned ≡ self.old.condemned }
    {
        self.roots.put_handle(mutator, slot)
    }

    /// A handle that is in use is in use no more.
    pub fn drop_handle(&mut self, mutator: Mutator, handle: Handle)
        requires { IsTrue (is_some (slot_held self.old.graph.mutators mutator handle)) }
        ensures graph { self.new.graph ≡ with_mutators self.old.graph
            (change_at self.old.graph.mutators mutator (without_handle handle)) }
        ensures clock { self.new.clock ≡ self.old.clock }
        ensures marking { self.new.marking ≡ self.old.marking }
        ensures condemned { self.new.condemned ≡ self.old.condemned }
    {
        self.roots.drop_handle(mutator, handle);
    }

    /// A mutator begins a call. Its fence is a root from now on, so this is one of the calls that make edges.
    pub fn begin_call(&mut self, mutator: Mutator, fence: Option<Slot>, call: Call)
        requires joined { IsTrue (is_some (at self.old.graph.mutators mutator)) }
        requires held { (s : ℕ) → fence ≡ Some s → IsInHand self.old s }
        ensures graph { self.new.graph ≡ with_mutators self.old.graph
            (change_at self.old.graph.mutators mutator (session_in_call fence call)) }
        ensures clock { self.new.clock ≡ self.old.clock }
        ensures marking { self.new.marking ≡ self.old.marking }
        ensures condemned { self.new.condemned ≡ self.old.condemned }
    {
        self.roots.begin_call(mutator, fence, call);
    }

    /// A mutator's call ends, and its fence with it. What the fence held is shaded: who ends a call may hold on to it
    /// by a handle.
    pub fn end_call(&mut self, mutator: Mutator)
        requires joined { IsTrue (is_some (at self.old.graph.mutators mutator)) }
        requires object { (s : ℕ) → fence_at self.old.graph.mutators mutator ≡ Some s
            → IsObject self.old.graph.objects s }
        ensures graph { self.new.graph ≡ with_mutators self.old.graph
            (change_at self.old.graph.mutators mutator (session_in_call None Free)) }
        ensures clock { self.new.clock ≡ self.old.clock }
        ensures shaded { Shaded (λ s. fence_at self.old.graph.mutators mutator ≡ Some s) self.old.marking
            self.new.marking }
        ensures condemned { self.new.condemned ≡ self.old.condemned }
    {
        shade_target(self.roots.fence(mutator), &mut self.marks);
        self.roots.end_call(mutator);
    }

    /// The sessions as plain data.
    ///
    /// # Errors
    /// `AllocError` where there is no memory for them.
    pub fn mutators_image(&self, alloc: Global) -> Result<Table<Session>, AllocError>
        ensures { IfOk result (λ mutators. mutators ≡ self.now.graph.mutators) }
    {
        self.roots.image(alloc)
    }
}
