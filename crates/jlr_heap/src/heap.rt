//! A heap with one mutator, 0, and what each kind of call on it is.
ghost use Rattle.std.specs.Prelude.{◌≡◌, IfOk, MatchResult, Some, true};
ghost use Rattle.jlr_steps.specs.Events.{carries_none};
ghost use Rattle.jlr_embed.specs.Kinds.{is_faults, is_handle, is_integer, is_names, is_notes, is_stat, is_truth};
ghost use Rattle.jlr_embed.specs.Kinds.{kind_asked};
ghost use Rattle.jlr_heap.specs.Entries.{CannotJoin, FollowsCall, HasJoined, IsDone, IsEntry, IsJoined, counts};
ghost use Rattle.jlr_heap.specs.Entries.{told_faults};
ghost use Rattle.jlr_heap.specs.Entries.{handle, handle_or_null, integer, names, notes, truth};

use crate::jobs::Declined;
use crate::keeper::Keeper;
use crate::told;
use jlr_embed::Unrecorded;
use jlr_machine::ask::{Ask, Stat};
use jlr_machine::items::Items;
use jlr_machine::machine::Failure;
use jlr_machine::text::Name;
use jlr_types::{Handle, Limits, Mutator, Refusal};
use std::alloc::{AllocError, Global};

/// In whose name all is asked.
#[inline(always)]
pub(crate) fn me() -> Mutator
    ensures { result ≡ 0 }
{
    Mutator::new(0)
}

/// A heap with one mutator. After each call the handler's steps are made, until nothing is pending, unless the program
/// makes them itself.
#[derive(Drop)]
pub struct Heap<K> {
    pub(crate) keeper: K,
    settles: bool,
}

impl<R: Drop> Heap<Unrecorded<R>> {
    /// The empty heap of the limits, of which no history is kept, and in which the mutator has joined.
    ///
    /// # Errors
    /// `AllocError` where the room cannot be had.
    pub fn new(alloc: Global, limits: Limits) -> Result<Self, AllocError>
        ensures { IfOk result (λ heap. IsJoined limits.cells limits.sessions limits.resources limits.soft_age heap) }
    {
        let empty = Unrecorded::new(alloc, limits)?;
        match Heap::over(empty) {
            Ok(heap) => Ok(heap),
            Err(declined) => {
                drop(declined);
                Err(AllocError)
            }
        }
    }
}

impl<K: Keeper> Heap<K> {
    /// A heap for which this answers, in which the mutator has joined.
    ///
    /// # Errors
    /// Why it cannot join: there is no memory, too few entry numbers are left, or it has joined. What answers is given
    /// back.
    pub fn over(keeper: K) -> Result<Self, Declined<K>>
        ensures { MatchResult result (λ heap. HasJoined K.asking keeper heap)
            (λ declined. CannotJoin K.asking keeper declined.by declined.held) }
    {
        let mut heap = Heap {
            keeper,
            settles: true,
        };
        match heap.does(Ask::Join { mutator: me() }) {
            Ok(()) => Ok(heap),
            Err(by) => Err(Declined {
                by,
                held: heap.into_keeper(),
            }),
        }
    }

    /// What answered for it. Its handles are lost.
    pub fn into_keeper(self) -> K
        ensures { result ≡ self.keeper }
    {
        self.keeper
    }

    /// Whether the handler's steps are made after each call from now on. Where they are not, `settle` makes them.
    pub fn settle_after_calls(&mut self, settles: bool)
        ensures kept { self.new.keeper ≡ self.old.keeper }
        ensures set { self.new.settles ≡ settles }
    {
        self.settles = settles;
    }

    /// The handler's steps, until nothing is pending: what collections cleared comes to its queues, and actions to the
    /// cleaner's line.
    pub fn settle(&mut self)
        ensures settled { K.asking.settling self.old.keeper self.new.keeper }
        ensures kept { self.new.settles ≡ self.old.settles }
    {
        self.keeper.settle();
    }

    /// What follows a call.
    #[inline]
    pub(crate) fn follow(&mut self)
        ensures { FollowsCall K.asking self.old self.old.keeper self.new }
    {
        if self.settles {
            self.keeper.settle();
        }
    }
}

impl<K: Keeper> Heap<K> {
    /// An ask that gives nothing.
    #[inline]
    pub(crate) fn does(&mut self, ask: Ask) -> Result<(), Refusal>
        requires plain { carries_none ask ≡ true }
        ensures { IsDone K.asking self.old ask result self.new }
    {
        let answer = self.keeper.ask(ask);
        self.follow();
        told::end(&answer)
    }

    /// An ask that gives a handle.
    #[inline]
    pub(crate) fn gives(&mut self, ask: Ask) -> Result<Handle, Refusal>
        requires plain { carries_none ask ≡ true }
        requires kind { kind_asked (Some ask) ≡ is_handle }
        ensures { IsEntry K.asking self.old ask (handle result) self.new }
    {
        let answer = self.keeper.ask(ask);
        self.follow();
        told::handle(&answer)
    }

    /// An ask that gives a handle, or null.
    #[inline]
    pub(crate) fn gives_or_null(&mut self, ask: Ask) -> Result<Option<Handle>, Refusal>
        requires plain { carries_none ask ≡ true }
        requires kind { kind_asked (Some ask) ≡ is_handle }
        ensures entry { IsEntry K.asking self.old ask (handle_or_null result) self.new }
        ensures null { IfOk result (λ given. given ≡ Some 0 → ⊥) }
    {
        let handle = self.gives(ask)?;
        if handle.number() == 0 {
            Ok(None)
        } else {
            Ok(Some(handle))
        }
    }

    /// An ask that tells a truth.
    #[inline]
    pub(crate) fn tells(&mut self, ask: Ask) -> Result<bool, Refusal>
        requires plain { carries_none ask ≡ true }
        requires kind { kind_asked (Some ask) ≡ is_truth }
        ensures { IsEntry K.asking self.old ask (truth result) self.new }
    {
        let answer = self.keeper.ask(ask);
        self.follow();
        told::truth(&answer)
    }

    /// An ask that reads an integer.
    #[inline]
    pub(crate) fn reads(&mut self, ask: Ask) -> Result<i64, Refusal>
        requires plain { carries_none ask ≡ true }
        requires kind { kind_asked (Some ask) ≡ is_integer }
        ensures { IsEntry K.asking self.old ask (integer result) self.new }
    {
        let answer = self.keeper.ask(ask);
        self.follow();
        told::integer(&answer)
    }

    /// An ask that tells counts.
    pub(crate) fn counted(&mut self, ask: Ask) -> Result<Stat, Refusal>
        requires plain { carries_none ask ≡ true }
        requires kind { kind_asked (Some ask) ≡ is_stat }
        ensures { IsEntry K.asking self.old ask (counts result) self.new }
    {
        let answer = self.keeper.ask(ask);
        self.follow();
        told::counts(&answer)
    }

    /// An ask that lists names.
    pub(crate) fn named(&mut self, ask: Ask) -> Result<Items<Name>, Refusal>
        requires plain { carries_none ask ≡ true }
        requires kind { kind_asked (Some ask) ≡ is_names }
        ensures { IsEntry K.asking self.old ask (names result) self.new }
    {
        let answer = self.keeper.ask(ask);
        self.follow();
        told::names(answer)
    }

    /// An ask that lists notes.
    pub(crate) fn noted(&mut self, ask: Ask) -> Result<Items<u32>, Refusal>
        requires plain { carries_none ask ≡ true }
        requires kind { kind_asked (Some ask) ≡ is_notes }
        ensures { IsEntry K.asking self.old ask (notes result) self.new }
    {
        let answer = self.keeper.ask(ask);
        self.follow();
        told::notes(answer)
    }

    /// An ask that lists failures.
    pub(crate) fn failed(&mut self, ask: Ask) -> Result<Items<Failure>, Refusal>
        requires plain { carries_none ask ≡ true }
        requires kind { kind_asked (Some ask) ≡ is_faults }
        ensures { IsEntry K.asking self.old ask (told_faults result) self.new }
    {
        let answer = self.keeper.ask(ask);
        self.follow();
        told::faults(answer)
    }
}
