//! A heap of which no history is kept.
ghost use Rattle.std.specs.Prelude.{◌≡◌, ◌≢◌, ◌↔◌, ◌<◌, [], length};
ghost use Rattle.std.specs.Prelude.{IfOk, IsTrue, None, Some, false, is_none, true};
ghost use Rattle.jlr_event.specs.Events.{ask_of, resource_of_event};
ghost use Rattle.jlr_steps.specs.Events.{carries_none};
ghost use Rattle.jlr_steps.specs.Steps.{IsEmpty, Steps};
ghost use Rattle.jlr_embed.specs.Kinds.{GoesBack, is_told, kind_asked, suits};
ghost use Rattle.jlr_embed.specs.Settling.{SettlesAll};

use jlr_event::event::{Event, Reply};
use jlr_machine::ask::{Answer, Ask, Handed};
use jlr_machine::choice::Choice;
use jlr_steps::engine::Core;
use jlr_types::{Limits, Progress};
use std::alloc::{AllocError, Global};
use std::marker::Model;

/// A core of which each event has the room of its choice. What its guards hold is of the type `R`. Contracts see the
/// core.
#[derive(Drop)]
pub struct Unrecorded<R> {
    core: Core<R>,
    choice: Choice,
}

impl<R> Model for Unrecorded<R> {
    ghost use Rattle.std.specs.Prelude.{length, ◌≤◌};
    ghost use Rattle.jlr_steps.specs.Cores.{Kept};
    ghost use Rattle.jlr_embed.specs.Standing.{StandsForMachine};

    ghost Value = { Kept R };

    ghost view = { λ e. e.core };

    ghost invariant = { λ e. (length e.core.machine.objects ≤ e.choice.cells) × StandsForMachine e.core };
}

impl<R: Drop> Unrecorded<R> {
    /// The empty heap of the limits.
    ///
    /// # Errors
    /// `AllocError` where the room cannot be had.
    pub fn new(alloc: Global, limits: Limits) -> Result<Self, AllocError>
        ensures { IfOk result (λ heap. IsEmpty limits.cells limits.sessions limits.resources limits.soft_age 1 heap) }
    {
        let choice = Choice::new(alloc, limits.cells)?;
        let core = Core::new(alloc, limits)?;
        Ok(Unrecorded { core, choice })
    }

    /// One ask that carries nothing that a guard holds, neither in nor out. It is lent.
    #[inline(always)]
    pub fn answer(&mut self, ask: &Ask) -> Answer
        requires plain { carries_none ask.now ≡ true }
        ensures step { Steps self.old (Event.Ask ask.now) (Reply.Answered result None) self.new }
        ensures kind { is_told (kind_asked (Some ask.now)) result ≡ true }
    {
        self.core.answer(ask, &mut self.choice)
    }

    /// One ask that makes objects: what `answer` does for it. The slots of its new objects leave the choice at once,
    /// so that the next ask finds nothing to clear.
    #[inline(always)]
    pub fn make(&mut self, ask: &Ask) -> Answer
        requires plain { carries_none ask.now ≡ true }
        ensures step { Steps self.old (Event.Ask ask.now) (Reply.Answered result None) self.new }
        ensures kind { is_told (kind_asked (Some ask.now)) result ≡ true }
    {
        let answer = self.core.answer(ask, &mut self.choice);
        let _ = self.choice.take_fresh();
        answer
    }

    /// One event of any other kind, but no piece of marking: its answer, and what goes out with it.
    pub fn carry(&mut self, event: Event<R>) -> (Answer, Option<R>)
        requires asks { is_none (ask_of event) ≡ false }
        ensures step { Steps self.old event (Reply.Answered result.0 result.1) self.new }
        ensures kind { is_told (kind_asked (ask_of event)) result.0 ≡ true }
        ensures suits { suits result.0 result.1 ≡ true }
        ensures back { GoesBack (resource_of_event event) result.0 result.1 }
    {
        match self.core.step(event, &mut self.choice) {
            Reply::Answered { answer, resource } => (answer, resource),
            Reply::Marked(_) => unreachable!(),
        }
    }

    /// A piece of marking of at most so many ticks. Takes no memory.
    pub fn mark(&mut self, budget: u32) -> Progress
        ensures { Steps self.old (Event.Mark budget) (Reply.Marked result) self.new }
    {
        self.core.mark(budget)
    }

    /// A step of the handler. Takes no memory.
    pub fn hand_over(&mut self) -> Handed
        ensures step { Steps self.old (Event.Ask Ask.HandOver) (Reply.Answered (Answer.Handed result) None) self.new }
        ensures less { self.old.machine.pending ≢ []
            → length self.new.machine.pending < length self.old.machine.pending }
    {
        self.core.hand_over()
    }

    /// Whether nothing is pending, so that a step of the handler would find nothing.
    pub fn pending_empty(&self) -> bool
        ensures { IsTrue result ↔ (self.now.machine.pending ≡ []) }
    {
        self.core.pending_empty()
    }

    /// Steps of the handler, until nothing is pending: what collections cleared comes to its queues, and actions to
    /// the cleaner's line. Takes no memory.
    pub fn settle(&mut self)
        ensures { SettlesAll self.old self.new }
    {
        while !self.pending_empty() {
            self.hand_over();
        }
    }
}
