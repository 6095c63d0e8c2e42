//! The full collections that an ask makes: one that is asked for, and one that makes room for a new object.
ghost use Rattle.std.specs.Prelude.{◌≡◌, ◌≤◌, ◌++◌, ℕ, None, Some, length, option_to_list, IfOk, IfErr};
ghost use Rattle.jlr_machine.specs.Objects.{◌∈◌, any_referent, occupied};
ghost use Rattle.jlr_machine.specs.Edges.{slots_in, strong_edges};
ghost use Rattle.jlr_machine.specs.declared.object.Contents.TheVariants.{Elements as ElementsOf};
ghost use Rattle.jlr_machine.specs.declared.object.Object.TheVariants.{Plain};
ghost use Rattle.jlr_roots.specs.Walk.{slots_held};
ghost use Rattle.jlr_marks.specs.Marking.{IsMarked};
ghost use Rattle.jlr_cells.specs.Contents.{object_of};
ghost use Rattle.jlr_soft.specs.declared.policy.Policy.{Policy};
ghost use Rattle.jlr_machine.specs.WellFormed.{IsWellFormed};
ghost use Rattle.jlr_machine.specs.Choices.{nothing_chosen};
ghost use Rattle.jlr_sweep.specs.Collecting.{Collects};
ghost use Rattle.jlr_state.specs.Collecting.{MakesRoom, Allocates, FindsNoRoom, after_collected, mode_of};
ghost use Rattle.jlr_barrier.specs.Graphs.{counted};
ghost use Rattle.jlr_marker.specs.Following.{keeps};
ghost use Rattle.jlr_state.specs.Policy.{KeepsIn};
ghost use Rattle.jlr_state.specs.State.{Meets, answer_of};
ghost use Rattle.jlr_state.specs.Marks.{BlackensMade, MarksNew, SweepsAll};

use crate::state::State;
use jlr_cells::{Elements, Shape};
use jlr_machine::ask::{Answer, Ask, FullMode};
use jlr_machine::choice::Choice;
use jlr_soft::{Mode, Policy};
use jlr_types::{Mutator, Refusal, Slot};

impl<R> State<R> {
    ghost use Rattle.jlr_state.specs.Machines.{machine_of};
    ghost use Rattle.jlr_state.specs.Rest.{LeavesRestMaking};

    /// A full collection (see `jlr_sweep`). An open cycle is over then.
    pub(crate) fn collect(&mut self, mode: Mode, choice: &mut Choice)
        requires fit { IsWellFormed (machine_of self.old) }
        requires nothing { choice.old ≡ nothing_chosen choice.old.cells }
        requires room { length self.old.heap.graph.objects ≤ choice.old.cells }
        ensures collects { Collects (keeps (record { soft_age = self.old.soft_age; mode = mode }) self.old.heap.clock)
            (machine_of self.old) choice.old choice.new (machine_of self.new) }
        ensures clock { self.new.heap.clock ≡ counted self.old.heap.clock }
        ensures room { choice.new.cells ≡ choice.old.cells }
        ensures cells { length self.new.heap.graph.objects ≡ length self.old.heap.graph.objects }
        ensures age { self.new.soft_age ≡ self.old.soft_age }
        ensures cleaner { self.new.cleaner ≡ self.old.cleaner }
        ensures swept { self.new.heap.condemned ≡ 0 }
    {
        let policy = Policy::new(self.soft_age, mode);
        jlr_sweep::full(&mut self.heap, &policy, choice);
        self.cycle_open = false;
    }

    /// Where fewer cells are free, a full collection that clears all soft references.
    pub(crate) fn make_room(&mut self, cells: u32, choice: &mut Choice)
        requires fit { IsWellFormed (machine_of self.old) }
        requires nothing { choice.old ≡ nothing_chosen choice.old.cells }
        requires room { length self.old.heap.graph.objects ≤ choice.old.cells }
        ensures made { MakesRoom (machine_of self.old) cells choice.old choice.new (machine_of self.new) }
        ensures clock { self.new.heap.clock ≡ after_collected choice.new.chosen self.old.heap.clock }
        ensures room { choice.new.cells ≡ choice.old.cells }
        ensures cells { length self.new.heap.graph.objects ≡ length self.old.heap.graph.objects }
        ensures age { self.new.soft_age ≡ self.old.soft_age }
        ensures cleaner { self.new.cleaner ≡ self.old.cleaner }
        ensures marks { choice.new.chosen.collected ≡ None → self.new.heap.marking ≡ self.old.heap.marking }
    {
        if self.heap.vacant_count() < cells {
            self.collect(Mode::ClearAll, choice);
        }
    }

    /// A full collection that clears all soft references, where every cell holds an object.
    fn collect_when_full(&mut self, choice: &mut Choice)
        requires fit { IsWellFormed (machine_of self.old) }
        requires nothing { choice.old ≡ nothing_chosen choice.old.cells }
        requires room { length self.old.heap.graph.objects ≤ choice.old.cells }
        requires full { occupied self.old.heap.graph.objects ≡ length self.old.heap.graph.objects }
        ensures made { MakesRoom (machine_of self.old) 1 choice.old choice.new (machine_of self.new) }
        ensures clock { self.new.heap.clock ≡ after_collected choice.new.chosen self.old.heap.clock }
        ensures room { choice.new.cells ≡ choice.old.cells }
        ensures cells { length self.new.heap.graph.objects ≡ length self.old.heap.graph.objects }
        ensures age { self.new.soft_age ≡ self.old.soft_age }
        ensures cleaner { self.new.cleaner ≡ self.old.cleaner }
        ensures marks { choice.new.chosen.collected ≡ None → self.new.heap.marking ≡ self.old.heap.marking }
    {
        self.collect(Mode::ClearAll, choice);
    }

    /// A new object in a free cell, after a full collection where none is free; refused where that leaves none free.
    /// What it refers to is held by a mutator.
    pub fn allocate(&mut self, shape: &Shape, choice: &mut Choice) -> Result<Slot, Refusal>
        requires fit { IsWellFormed (machine_of self.old) }
        requires nothing { choice.old ≡ nothing_chosen choice.old.cells }
        requires room { length self.old.heap.graph.objects ≤ choice.old.cells }
        requires held { (s : ℕ) → s ∈ (strong_edges (object_of shape.now)
            ++ option_to_list (any_referent (object_of shape.now))) → s ∈ slots_held self.old.heap.graph.mutators }
        ensures allocates { IfOk result (λ slot. Allocates (machine_of self.old) (object_of shape.now) choice.new slot
            (machine_of self.new)) }
        ensures rest { LeavesRestMaking self.old choice.old choice.new self.new }
        ensures black { IfOk result (λ slot. IsMarked self.new.heap.marking slot) }
        ensures full { IfErr result (λ r. (r ≡ Refusal.HeapFull)
            × FindsNoRoom (machine_of self.old) 1 choice.new (machine_of self.new)) }
        ensures one { IfOk result (λ slot. BlackensMade choice.new.chosen slot self.old.heap.marking
            self.new.heap.marking) }
    {
        match self.heap.allocate(shape) {
            Some(slot) => {
                choice.add_fresh(slot);
                Ok(slot)
            }
            None => self.collect_and_allocate(shape, choice),
        }
    }

    /// The same where every cell holds an object, so that there is a collection.
    #[inline(never)]
    fn collect_and_allocate(&mut self, shape: &Shape, choice: &mut Choice) -> Result<Slot, Refusal>
        requires fit { IsWellFormed (machine_of self.old) }
        requires nothing { choice.old ≡ nothing_chosen choice.old.cells }
        requires room { length self.old.heap.graph.objects ≤ choice.old.cells }
        requires full { occupied self.old.heap.graph.objects ≡ length self.old.heap.graph.objects }
        requires held { (s : ℕ) → s ∈ (strong_edges (object_of shape.now)
            ++ option_to_list (any_referent (object_of shape.now))) → s ∈ slots_held self.old.heap.graph.mutators }
        ensures allocates { IfOk result (λ slot. Allocates (machine_of self.old) (object_of shape.now) choice.new slot
            (machine_of self.new)) }
        ensures rest { LeavesRestMaking self.old choice.old choice.new self.new }
        ensures black { IfOk result (λ slot. IsMarked self.new.heap.marking slot) }
        ensures full { IfErr result (λ r. (r ≡ Refusal.HeapFull)
            × FindsNoRoom (machine_of self.old) 1 choice.new (machine_of self.new)) }
        ensures one { IfOk result (λ slot. BlackensMade choice.new.chosen slot self.old.heap.marking
            self.new.heap.marking) }
    {
        self.collect_when_full(choice);
        let Some(slot) = self.heap.allocate(shape) else {
            return Err(Refusal::HeapFull);
        };
        choice.add_fresh(slot);
        Ok(slot)
    }

    /// As `allocate`, for an array of these elements, which refer to nothing. Where no cell is left, they are let go.
    pub fn allocate_array(
        &mut self,
        elements: Elements,
        choice: &mut Choice,
    ) -> Result<Slot, Refusal>
        requires fit { IsWellFormed (machine_of self.old) }
        requires nothing { choice.old ≡ nothing_chosen choice.old.cells }
        requires room { length self.old.heap.graph.objects ≤ choice.old.cells }
        requires null { (s : ℕ) → s ∈ slots_in (ElementsOf elements) → ⊥ }
        ensures allocates { IfOk result (λ slot. Allocates (machine_of self.old) (Plain (ElementsOf elements))
            choice.new slot (machine_of self.new)) }
        ensures rest { LeavesRestMaking self.old choice.old choice.new self.new }
        ensures black { IfOk result (λ slot. IsMarked self.new.heap.marking slot) }
        ensures full { IfErr result (λ r. (r ≡ Refusal.HeapFull)
            × FindsNoRoom (machine_of self.old) 1 choice.new (machine_of self.new)) }
        ensures one { IfOk result (λ slot. BlackensMade choice.new.chosen slot self.old.heap.marking
            self.new.heap.marking) }
    {
        match self.heap.allocate_array(elements) {
            Ok(slot) => {
                choice.add_fresh(slot);
                Ok(slot)
            }
            Err(elements) => self.collect_and_allocate_array(elements, choice),
        }
    }

    /// The same where every cell holds an object, so that there is a collection.
    #[inline(never)]
    fn collect_and_allocate_array(
        &mut self,
        elements: Elements,
        choice: &mut Choice,
    ) -> Result<Slot, Refusal>
        requires fit { IsWellFormed (machine_of self.old) }
        requires nothing { choice.old ≡ nothing_chosen choice.old.cells }
        requires room { length self.old.heap.graph.objects ≤ choice.old.cells }
        requires full { occupied self.old.heap.graph.objects ≡ length self.old.heap.graph.objects }
        requires null { (s : ℕ) → s ∈ slots_in (ElementsOf elements) → ⊥ }
        ensures allocates { IfOk result (λ slot. Allocates (machine_of self.old) (Plain (ElementsOf elements))
            choice.new slot (machine_of self.new)) }
        ensures rest { LeavesRestMaking self.old choice.old choice.new self.new }
        ensures black { IfOk result (λ slot. IsMarked self.new.heap.marking slot) }
        ensures full { IfErr result (λ r. (r ≡ Refusal.HeapFull)
            × FindsNoRoom (machine_of self.old) 1 choice.new (machine_of self.new)) }
        ensures one { IfOk result (λ slot. BlackensMade choice.new.chosen slot self.old.heap.marking
            self.new.heap.marking) }
    {
        self.collect_when_full(choice);
        let Ok(slot) = self.heap.allocate_array(elements) else {
            return Err(Refusal::HeapFull);
        };
        choice.add_fresh(slot);
        Ok(slot)
    }

    /// A full collection that is asked for.
    pub fn full(
        &mut self,
        by: Mutator,
        mode: FullMode,
        choice: &mut Choice,
    ) -> Result<Answer, Refusal>
        requires fit { IsWellFormed (machine_of self.old) }
        requires nothing { choice.old ≡ nothing_chosen choice.old.cells }
        requires room { length self.old.heap.graph.objects ≤ choice.old.cells }
        ensures meets { Meets (machine_of self.old) (Ask.Full by mode) (answer_of result) choice.new.chosen
            (machine_of self.new) }
        ensures memory { answer_of result ≡ Answer.Refused Refusal.NoMemory → ⊥ }
        ensures rest { LeavesRestMaking self.old choice.old choice.new self.new }
        ensures policy { KeepsIn (mode_of mode) self.old.soft_age self.old.heap.clock (machine_of self.old)
            choice.new.chosen }
        ensures marks { MarksNew (machine_of self.old) self.old.heap.marking choice.new.chosen (machine_of self.new)
            self.new.heap.marking }
        ensures swept { SweepsAll (Some (Ask.Full by mode)) (Some (answer_of result)) self.new.heap.condemned }
    {
        self.check_session(by)?;
        self.check_no_call(by)?;
        self.collect(mode_of(mode), choice);
        Ok(Answer::Done)
    }
}

/// Which soft references a collection keeps that is asked for.
fn mode_of(mode: FullMode) -> Mode
    ensures { result ≡ mode_of mode }
{
    match mode {
        FullMode::Policy => Mode::Policy,
        FullMode::ClearAll => Mode::ClearAll,
    }
}
