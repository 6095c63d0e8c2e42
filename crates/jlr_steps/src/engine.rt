//! The core: one event at a time.
ghost use Rattle.std.specs.Prelude.{◌≡◌, ◌≤◌, ◌↔◌, [], length, true, false, IfOk, IsTrue, None, Some};
ghost use Rattle.jlr_machine.specs.declared.machine.Machine.{Machine};
ghost use Rattle.jlr_machine.specs.Refusals.{refusal};
ghost use Rattle.jlr_machine.specs.Run.{no_choice};
ghost use Rattle.jlr_event.specs.Asks.{hands_in};
ghost use Rattle.jlr_histories.specs.Collecting.{may_collect};
ghost use Rattle.jlr_state.specs.Events.{carries_none};
ghost use Rattle.jlr_steps.specs.Steps.{IsEmpty, IsStep};
ghost use Rattle.jlr_state.specs.TakeUps.{handed_out, take_up_answered};

use crate::dispatch::{
    answer_to, step, step_ask, step_cleaner, step_finish, step_handler, step_plain,
};
use crate::queries;
use jlr_cleaner::Job;
use jlr_event::event::{Event, Reply};
use jlr_machine::ask::{Answer, Ask, Handed, Outcome};
use jlr_machine::choice::Choice;
use jlr_machine::machine::Machine;
use jlr_state::state::State;
use jlr_types::{ActionNo, Handle, Limits, Mutator, Progress, Refusal};
use std::alloc::{AllocError, Global};
use std::marker::Model;

/// The machine in code. A resource is of the type `R`. Contracts see the machine that it keeps.
pub struct Core<R> {
    state: State<R>,
}

// By hand: each exit of a caller then has one call, where a derived drop writes out every field.
impl<R: Drop> Drop for Core<R> {
    fn drop(self) {
        let Core { state: _ } = self;
    }
}

impl<R> Model for Core<R> {
    ghost use Rattle.jlr_machine.specs.WellFormed.{IsWellFormed};
    ghost use Rattle.jlr_state.specs.State.{machine_with};
    ghost use Rattle.jlr_steps.specs.Cores.{Kept, kept_with};
    ghost use Rattle.jlr_state.specs.Waiting.{AllWait};

    ghost Value = { Kept R };

    ghost view = { λ c. kept_with c.state.cleaner c.state.heap c.state.soft_age c.state.cycle_open };

    ghost invariant = { λ c. IsWellFormed (machine_with c.state.cleaner c.state.heap.graph c.state.cycle_open)
        × AllWait (machine_with c.state.cleaner c.state.heap.graph c.state.cycle_open) c.state.cleaner.waiting };
}

impl<R> Core<R> {
    ghost use Rattle.jlr_steps.specs.Cores.{StandsIn};

    /// The core of an empty machine, whose first action number is 1. All room is made at once.
    ///
    /// # Errors
    /// `AllocError` where the room cannot be had.
    pub fn new(alloc: Global, limits: Limits) -> Result<Self, AllocError>
        ensures empty { IfOk result
            (λ core. IsEmpty limits.cells limits.sessions limits.resources limits.soft_age 1 core) }
    {
        Core::new_from(alloc, limits, 1)
    }

    /// As `new`, but the first action number is this one, at least 1.
    ///
    /// # Errors
    /// `AllocError` where the room cannot be had.
    pub fn new_from(alloc: Global, limits: Limits, next_action: u64) -> Result<Self, AllocError>
        requires { 1 ≤ next_action }
        ensures empty { IfOk result
            (λ core. IsEmpty limits.cells limits.sessions limits.resources limits.soft_age next_action core) }
    {
        Ok(Core {
            state: State::new(alloc, limits, next_action)?,
        })
    }

    /// One event. The choice says what was chosen; it has room for every cell. Only `Prepare` where the table of
    /// resources has no room, `Bind` of a new name, `Names`, `Notes` and `Faults`, which copy a list, and `Array`, for
    /// its elements, may find no memory, and only where they are not refused. A piece of marking changes nothing but
    /// marks: in an open cycle it follows grey cells, one tick each, and of an array one for each 64 elements, by the
    /// soft policy, and is Done where none is left; without one it is Idle, and as many condemned cells become free, or
    /// all where there are no more. A `Collect` keeps exactly what is marked, and is answered yes exactly where a cycle
    /// is open and no cell is grey.
    #[inline(always)]
    pub fn step(&mut self, event: Event<R>, choice: &mut Choice) -> Reply<R>
        requires room { length self.old.machine.objects ≤ choice.old.cells }
        ensures step { IsStep self.old event result choice.new.chosen self.new }
        ensures room { choice.new.cells ≡ choice.old.cells }
        ensures cells { length self.new.machine.objects ≡ length self.old.machine.objects }
    {
        choice.clear();
        step(&mut self.state, event, choice)
    }

    /// One ask that hands in no resource: what `step` does for it. It is lent.
    #[inline(always)]
    pub fn step_ask(&mut self, ask: &Ask, choice: &mut Choice) -> Reply<R>
        requires plain { hands_in ask.now ≡ false }
        requires room { length self.old.machine.objects ≤ choice.old.cells }
        ensures step { IsStep self.old (Event.Ask ask.now) result choice.new.chosen self.new }
        ensures room { choice.new.cells ≡ choice.old.cells }
        ensures cells { length self.new.machine.objects ≡ length self.old.machine.objects }
    {
        choice.clear();
        step_ask(&mut self.state, ask, choice)
    }

    /// One ask of those that carry no resource, neither in nor out: what `step` does for it, and what it is answered.
    /// It is lent.
    #[inline(always)]
    pub fn answer(&mut self, ask: &Ask, choice: &mut Choice) -> Answer
        requires plain { carries_none ask.now ≡ true }
        requires room { length self.old.machine.objects ≤ choice.old.cells }
        ensures step { IsStep self.old (Event.Ask ask.now) (Reply.Answered result None) choice.new.chosen self.new }
        ensures room { choice.new.cells ≡ choice.old.cells }
        ensures cells { length self.new.machine.objects ≡ length self.old.machine.objects }
    {
        choice.clear();
        answer_to(step_plain(&mut self.state, ask, choice))
    }

    /// A piece of marking of at most so many ticks: what `step` does for a `Mark`, which chooses nothing. Nothing is
    /// moved for it but its budget.
    pub fn mark(&mut self, budget: u32) -> Progress
        ensures step { IsStep self.old (Event.Mark budget) (Reply.Marked result) no_choice self.new }
        ensures cells { length self.new.machine.objects ≡ length self.old.machine.objects }
    {
        self.state.mark(budget)
    }

    /// A step of the handler: what `step` does for `HandOver`, which chooses nothing and is never refused.
    pub fn hand_over(&mut self) -> Handed
        ensures step { IsStep self.old (Event.Ask Ask.HandOver) (Reply.Answered (Answer.Handed result) None) no_choice
            self.new }
        ensures cells { length self.new.machine.objects ≡ length self.old.machine.objects }
    {
        step_handler(&mut self.state)
    }

    /// A step of the cleaner: what `step` does for `TakeUp`, which chooses nothing. The job that was taken up, with its
    /// resource; none where no cleanable of the line is Lined.
    ///
    /// # Errors
    /// `Busy` where the cleaner has a job that has not ended.
    pub fn take_up(&mut self) -> Result<Option<Job<R>>, Refusal>
        ensures step { IsStep self.old (Event.Ask Ask.TakeUp)
            (Reply.Answered (take_up_answered result) (handed_out result)) no_choice self.new }
        ensures cells { length self.new.machine.objects ≡ length self.old.machine.objects }
    {
        step_cleaner(&mut self.state)
    }

    /// The end of a job that a mutator took up, or, by 255, the cleaner: what `step` does for `Finish`, which chooses
    /// nothing. It is refused `NoSession` where the taker is no joined mutator, and `NotOut` where it runs no such job.
    pub fn finish(&mut self, by: u8, action: ActionNo, outcome: Outcome) -> Answer
        ensures step { IsStep self.old (Event.Ask (Ask.Finish by action outcome)) (Reply.Answered result None) no_choice
            self.new }
        ensures cells { length self.new.machine.objects ≡ length self.old.machine.objects }
    {
        step_finish(&mut self.state, by, action, outcome)
    }

    /// Whether an ask may come with a collection: a full collection, a `Collect` in an open cycle, and an ask whose
    /// objects find no room. It looks at no refusal. A step of an ask for which it answers no chooses no collection.
    pub fn will_collect(&self, ask: &Ask) -> bool
        ensures { result ≡ may_collect self.now.machine (Some ask.now) }
    {
        match ask {
            Ask::Full { .. } => true,
            Ask::Collect => self.state.cycle_open,
            _ => self.state.heap.vacant_count() < ask.cells(),
        }
    }

    /// Whether a `Remove` of a mutator on a queue would be refused `WouldWait`.
    pub fn would_wait(&self, by: Mutator, queue: Handle) -> bool
        ensures { IsTrue result ↔ (refusal self.now.machine (Ask.Remove by queue) ≡ Some Refusal.WouldWait) }
    {
        queries::would_wait(&self.state, by, queue)
    }

    /// Whether nothing is pending, so that a step of the handler would find nothing.
    pub fn pending_empty(&self) -> bool
        ensures { IsTrue result ↔ (self.now.machine.pending ≡ []) }
    {
        self.state.heap.first_pending().is_none()
    }

    /// Whether nothing stands in the cleaner's line, so that the cleaner would find nothing to take up.
    pub fn line_empty(&self) -> bool
        ensures { IsTrue result ↔ (self.now.machine.line ≡ []) }
    {
        self.state.heap.first_lined().is_none()
    }

    /// Whether a cycle is open.
    pub fn cycle_open(&self) -> bool
        ensures { result ≡ self.now.machine.cycle_open }
    {
        self.state.cycle_open
    }

    /// How many cells were taken since a collection finished last, or since the core was made where none has: a new
    /// guard takes two, any other new object one. At most 2^32 - 1. What a step does to it is said by the clock of
    /// `step`.
    pub fn since_collection(&self) -> u32
        ensures { result ≡ self.now.clock.since }
    {
        self.state.heap.since_collection()
    }

    /// The machine that the core stands for, as plain data, with nothing seen.
    ///
    /// # Errors
    /// `AllocError` where there is no memory for it.
    pub fn image(&self, alloc: Global) -> Result<Machine, AllocError>
        ensures exact { IfOk result (λ machine. machine ≡ self.now.machine) }
        ensures image { (m : Machine) → StandsIn self.now m
            → IfOk result (λ machine. machine ≡ record m { seen = [] }) }
    {
        self.state.image(alloc)
    }
}
