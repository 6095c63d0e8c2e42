//! The start of an open: a guard is made, with a cleanable and a resource that is Opening.
ghost use Rattle.std.specs.Prelude.{◌≡◌, ◌≤◌, ◌-◌, ◌^◌, [], MatchResult, None, Some, false, length, nat_le, true};
ghost use Rattle.jlr_machine.specs.Refusals.{is_joined, refusal};
ghost use Rattle.jlr_machine.specs.Choices.{nothing_chosen};
ghost use Rattle.jlr_machine.specs.WellFormed.{IsWellFormed};
ghost use Rattle.jlr_resource.specs.Resources.{resources, values};
ghost use Rattle.jlr_state.specs.Events.{MayWantMemory};
ghost use Rattle.jlr_state.specs.Collecting.{after_choice, after_fresh};
ghost use Rattle.jlr_state.specs.State.{Meets, answer_of};
ghost use Rattle.jlr_state.specs.Flows.{LieAsBefore};
ghost use Rattle.jlr_state.specs.Waiting.{AllWait, Registers, WaitsOn};
ghost use Rattle.jlr_state.specs.Preparing.{HasRoomForGuard, Places};
ghost use Rattle.jlr_state.specs.Marks.{MarksNew};

use crate::state::State;
use jlr_machine::ask::{Answer, Ask};
use jlr_machine::choice::Choice;
use jlr_machine::machine::Call;
use jlr_types::{ActionNo, Mutator, Refusal, Rid};

/// The cells that a guard and its cleanable take.
const GUARD_CELLS: u32 = 2;

impl<R> State<R> {
    ghost use Rattle.jlr_state.specs.Machines.{machine_of};

    /// A file or socket may be opened, as far as no memory is concerned.
    fn check_prepare(&self, by: Mutator) -> Result<(), Refusal>
        ensures { MatchResult result
            (λ _. (refusal (machine_of self.now) (Ask.Prepare by) ≡ None) × (is_joined (machine_of self.now) by ≡ true)
            × (nat_le self.now.cleaner.table.limit (length (resources self.now.cleaner.table)) ≡ false)
            × (nat_le (2 ^ 64 - 1) self.now.cleaner.next_action ≡ false))
            (λ r. refusal (machine_of self.now) (Ask.Prepare by) ≡ Some r) }
    {
        self.check_session(by)?;
        self.check_no_call(by)?;
        self.check_free_handle(by)?;
        if self.cleaner.is_full() {
            return Err(Refusal::ResourcesFull);
        }
        self.check_numbers()
    }

    /// A file or socket is about to be opened. Its place and its number are taken, and the mutator's call holds its
    /// guard.
    pub fn prepare(&mut self, by: Mutator, choice: &mut Choice) -> Result<Answer, Refusal>
        requires fit { IsWellFormed (machine_of self.old) }
        requires nothing { choice.old ≡ nothing_chosen choice.old.cells }
        requires room { length self.old.heap.graph.objects ≤ choice.old.cells }
        requires waits { AllWait (machine_of self.old) self.old.cleaner.waiting }
        ensures meets { Meets (machine_of self.old) (Ask.Prepare by) (answer_of result) choice.new.chosen
            (machine_of self.new) }
        ensures memory { answer_of result ≡ Answer.Refused Refusal.NoMemory
            → MayWantMemory (machine_of self.old) self.old.cleaner.table (Ask.Prepare by) }
        ensures values { values self.new.cleaner.table ≡ values self.old.cleaner.table }
        ensures lies { LieAsBefore self.old.cleaner.table self.new.cleaner.table }
        ensures room { choice.new.cells ≡ choice.old.cells }
        ensures cells { length self.new.heap.graph.objects ≡ length self.old.heap.graph.objects }
        ensures age { self.new.soft_age ≡ self.old.soft_age }
        ensures table_room { self.old.cleaner.table.room ≤ self.new.cleaner.table.room }
        ensures clock { self.new.heap.clock ≡ after_choice choice.new.chosen self.old.heap.clock }
        ensures waits { WaitsOn (machine_of self.new) self.old.cleaner self.new.cleaner }
        ensures marks { MarksNew (machine_of self.old) self.old.heap.marking choice.new.chosen (machine_of self.new)
            self.new.heap.marking }
    {
        self.check_prepare(by)?;
        self.cleaner.reserve()?;
        self.make_room(GUARD_CELLS, choice);
        if self.heap.vacant_count() < GUARD_CELLS {
            return Err(Refusal::HeapFull);
        }
        Ok(Answer::Prepared(self.place_guard(by, choice)))
    }

    /// The guard and its cleanable come into two free cells, and the resource into its place.
    fn place_guard(&mut self, by: Mutator, choice: &mut Choice) -> Rid
        requires places { HasRoomForGuard self.old.cleaner (machine_of self.old) by }
        requires fresh { choice.old.chosen.fresh ≡ [] }
        requires room { length self.old.heap.graph.objects ≤ choice.old.cells }
        requires waits { length self.old.cleaner.waiting ≡ length self.old.heap.graph.objects }
        ensures placed { Places (machine_of self.old) by choice.old choice.new result (machine_of self.new) }
        ensures values { values self.new.cleaner.table ≡ values self.old.cleaner.table }
        ensures lies { LieAsBefore self.old.cleaner.table self.new.cleaner.table }
        ensures cells { length self.new.heap.graph.objects ≡ length self.old.heap.graph.objects }
        ensures age { self.new.soft_age ≡ self.old.soft_age }
        ensures table_room { self.old.cleaner.table.room ≤ self.new.cleaner.table.room }
        ensures clock { self.new.heap.clock ≡ after_fresh choice.new.chosen.fresh self.old.heap.clock }
        ensures waits { Registers (machine_of self.new) self.old.cleaner self.new.cleaner }
        ensures marks { MarksNew (machine_of self.old) self.old.heap.marking choice.new.chosen (machine_of self.new)
            self.new.heap.marking }
    {
        let action = ActionNo::new(self.cleaner.next_action());
        let Ok(rid) = self.cleaner.prepare(action) else {
            unreachable!()
        };
        let Some(made) = self.heap.allocate_guard(rid, action) else {
            unreachable!()
        };
        let (guard, cleanable) = made;
        let _action = self.cleaner.register(cleanable);
        choice.add_fresh(guard);
        choice.add_fresh(cleanable);
        self.heap.begin_call(by, Some(guard), Call::Opening(rid));
        rid
    }
}
