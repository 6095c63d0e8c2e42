//! Background cycles: one is opened, marked in pieces, collected, or given up.
ghost use Rattle.std.specs.Prelude.{◌≡◌, ◌≤◌, ◌&&◌, Ok, false, length, not, true};
ghost use Rattle.jlr_machine.specs.WellFormed.{IsWellFormed};
ghost use Rattle.jlr_machine.specs.Choices.{nothing_chosen};
ghost use Rattle.jlr_state.specs.Collecting.{after_choice};
ghost use Rattle.jlr_state.specs.Marks.{BeginsCycle, MarksPiece, MarksReached, has_grey};
ghost use Rattle.jlr_state.specs.Policy.{KeepsMarked};
ghost use Rattle.jlr_state.specs.State.{Answered, MeetsSeen};

use crate::state::State;
use jlr_machine::ask::{Answer, Ask};
use jlr_machine::choice::Choice;
use jlr_soft::{Mode, Policy};
use jlr_types::{Meter, Progress};

impl<R> State<R> {
    ghost use Rattle.jlr_state.specs.Machines.{machine_of};

    /// Opens a cycle, whose marking begins with the roots. Answers whether none was open.
    pub fn begin(&mut self) -> bool
        requires { IsWellFormed (machine_of self.old) }
        ensures answered { Answered (machine_of self.old) Ask.Begin (Ok (Answer.Truth result)) (machine_of self.new) }
        ensures age { self.new.soft_age ≡ self.old.soft_age }
        ensures cleaner { self.new.cleaner ≡ self.old.cleaner }
        ensures graph { self.new.heap.graph ≡ self.old.heap.graph }
        ensures clock { self.new.heap.clock ≡ self.old.heap.clock }
        ensures reached { MarksReached (machine_of self.old) self.old.heap.marking (machine_of self.new)
            self.new.heap.marking }
        ensures begins { self.old.cycle_open ≡ false → BeginsCycle (machine_of self.new) self.new.heap.marking }
        ensures stays { self.old.cycle_open ≡ true → self.new.heap.marking ≡ self.old.heap.marking }
    {
        if self.cycle_open {
            return false;
        }
        jlr_marker::begin(&mut self.heap);
        self.cycle_open = true;
        true
    }

    /// Gives an open cycle up. Answers whether one was open.
    pub fn abandon(&mut self) -> bool
        ensures answered { Answered (machine_of self.old) Ask.Abandon (Ok (Answer.Truth result)) (machine_of self.new) }
        ensures age { self.new.soft_age ≡ self.old.soft_age }
        ensures cleaner { self.new.cleaner ≡ self.old.cleaner }
        ensures heap { self.new.heap ≡ self.old.heap }
    {
        let was_open = self.cycle_open;
        self.cycle_open = false;
        was_open
    }

    /// A piece of the marking of an open cycle, by the soft policy: at most so many ticks. Answers how far it is. Where
    /// no cycle is open, condemned cells are swept: so many, or all where there are no more.
    pub fn mark(&mut self, budget: u32) -> Progress
        requires { IsWellFormed (machine_of self.old) }
        ensures machine { machine_of self.new ≡ machine_of self.old }
        ensures age { self.new.soft_age ≡ self.old.soft_age }
        ensures cleaner { self.new.cleaner ≡ self.old.cleaner }
        ensures graph { self.new.heap.graph ≡ self.old.heap.graph }
        ensures clock { self.new.heap.clock ≡ self.old.heap.clock }
        ensures reached { MarksReached (machine_of self.old) self.old.heap.marking (machine_of self.new)
            self.new.heap.marking }
        ensures piece { MarksPiece budget self.old.soft_age self.old.heap.clock (machine_of self.old)
            self.old.heap.marking self.old.heap.condemned result self.new.heap.marking self.new.heap.condemned }
    {
        if !self.cycle_open {
            jlr_sweep::sweep(&mut self.heap, budget);
            return Progress::Idle;
        }
        let policy = Policy::new(self.soft_age, Mode::Policy);
        let mut meter = Meter::new();
        jlr_marker::mark(&mut self.heap, self.cycle_open, &policy, &mut meter, budget)
    }

    /// The collection of an open cycle in which all is marked. It keeps what is marked, and closes the cycle. Answers
    /// whether there was one.
    pub fn collect_cycle(&mut self, choice: &mut Choice) -> bool
        requires fit { IsWellFormed (machine_of self.old) }
        requires nothing { choice.old ≡ nothing_chosen choice.old.cells }
        requires room { length self.old.heap.graph.objects ≤ choice.old.cells }
        ensures meets { MeetsSeen (machine_of self.old) self.old.heap.marking Ask.Collect (Answer.Truth result)
            choice.new.chosen (machine_of self.new) }
        ensures answer { result ≡ (self.old.cycle_open && not (has_grey self.old.heap.marking)) }
        ensures kept { KeepsMarked (machine_of self.old) self.old.heap.marking choice.new.chosen }
        ensures room { choice.new.cells ≡ choice.old.cells }
        ensures cells { length self.new.heap.graph.objects ≡ length self.old.heap.graph.objects }
        ensures age { self.new.soft_age ≡ self.old.soft_age }
        ensures cleaner { self.new.cleaner ≡ self.old.cleaner }
        ensures clock { self.new.heap.clock ≡ after_choice choice.new.chosen self.old.heap.clock }
        ensures marking { self.new.heap.marking ≡ self.old.heap.marking }
    {
        if !self.cycle_open || self.heap.has_grey() {
            return false;
        }
        jlr_process::flip(&mut self.heap, choice);
        self.cycle_open = false;
        true
    }
}
