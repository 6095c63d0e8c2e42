//! Guards over what is the program's own, and jobs.
ghost use Rattle.std.specs.Prelude.{◌≡◌, Err, Ok, false};
ghost use Rattle.jlr_machine.specs.Data.{is_data_outcome};
ghost use Rattle.jlr_event.specs.Events.{outcome_of};
ghost use Rattle.jlr_heap.specs.Entries.{GivesNothing, IsDone};
ghost use Rattle.jlr_heap.specs.Guards.{IsTold, TellsBack, TellsGuarded, TellsTaken, TellsLent, outcome_of_call};

use crate::handles::{Cleanable, Guard};
use crate::heap::{Heap, me};
use crate::jobs::{Declined, Job, given_back, lent, taken};
use crate::keeper::Keeper;
use crate::told;
use jlr_event::event::{Event, ended};
use jlr_machine::ask::{Answer, Ask, CLEANER, CallOutcome};
use jlr_machine::text::WriteCount;
use jlr_types::{ActionNo, Fault, Refusal};

/// How a call ended.
fn call_ended(ended: Result<(), Fault>) -> CallOutcome
    ensures is { result ≡ outcome_of_call ended }
    ensures none { is_data_outcome result ≡ false }
{
    match ended {
        Ok(()) => CallOutcome::Wrote(nothing_written()),
        Err(fault) => CallOutcome::Failed(fault),
    }
}

/// No bytes.
fn nothing_written() -> WriteCount
    ensures { result ≡ 0 }
{
    WriteCount::new(0).unwrap()
}

impl<K: Keeper> Heap<K> {
    /// Room is made for one thing more that a guard holds. It may take memory. Nothing else is asked before `adopt` or
    /// `give_up`.
    pub fn prepare(&mut self) -> Result<(), Refusal>
        ensures { IsDone K.asking self.old (Ask.Prepare 0) result self.new }
    {
        self.does(Ask::Prepare { mutator: me() })
    }

    /// Something is handed in: its guard.
    ///
    /// # Errors
    /// Where it is refused, it comes back.
    pub fn adopt(&mut self, held: K::Held) -> Result<Guard, Declined<K::Held>>
        ensures { IsTold K.asking TellsGuarded self.old (Event.Opened 0 (Ok held)) result self.new }
    {
        let (answer, back) = self.keeper.carry(
            Event::Opened {
                mutator: me(),
                outcome: Ok(held),
            },
            None,
        );
        self.follow();
        match answer {
            Answer::Handle(handle) => Ok(Guard::of(handle)),
            Answer::Refused(by) => Err(given_back(by, back)),
            _ => unreachable!(),
        }
    }

    /// What was to be adopted could not be opened: its room is let go.
    pub fn give_up(&mut self, fault: Fault) -> Result<(), Refusal>
        ensures { IsTold K.asking (λ result answer _. GivesNothing result answer) self.old (Event.Opened 0 (Err fault))
            result
            self.new }
    {
        let (answer, _) = self.keeper.carry(
            Event::Opened {
                mutator: me(),
                outcome: Err(fault),
            },
            None,
        );
        self.follow();
        told::end(&answer)
    }

    /// What a guard holds is lent, and nothing else asked, until `check_in`.
    pub fn check_out(&mut self, guard: Guard) -> Result<K::Held, Refusal>
        ensures { IsTold K.asking TellsLent self.old (Event.Ask (Ask.CheckOut 0 guard)) result self.new }
    {
        let (answer, held) = self.keeper.carry(
            Event::ask(Ask::CheckOut {
                mutator: me(),
                guard: guard.handle(),
            }),
            None,
        );
        self.follow();
        lent(&answer, held)
    }

    /// A call on what was lent ended, and it comes back.
    ///
    /// # Errors
    /// Where it is refused, the program has it still.
    pub fn check_in(
        &mut self,
        held: K::Held,
        ended: Result<(), Fault>,
    ) -> Result<(), Declined<K::Held>>
        ensures { IsTold K.asking TellsBack self.old (Event.CheckIn 0 (outcome_of_call ended) held) result self.new }
    {
        let (answer, back) = self.keeper.carry(
            Event::CheckIn {
                mutator: me(),
                outcome: call_ended(ended),
                resource: held,
            },
            None,
        );
        self.follow();
        match answer {
            Answer::Refused(by) => Err(given_back(by, back)),
            _ => Ok(()),
        }
    }

    /// A guard is closed, and what it held given back for good; none where it was given back before. Nothing else is
    /// asked before `finish`.
    pub fn stop(&mut self, guard: Guard) -> Result<Option<Job<K::Held>>, Refusal>
        ensures { IsTold K.asking TellsTaken self.old (Event.Ask (Ask.Close 0 guard)) result self.new }
    {
        let (answer, held) = self.keeper.carry(
            Event::ask(Ask::Close {
                mutator: me(),
                guard: guard.handle(),
            }),
            None,
        );
        self.follow();
        taken(&answer, held)
    }

    /// An action is taken up now; none where it was taken up before. Nothing else is asked before `finish`.
    pub fn clean(&mut self, cleanable: Cleanable) -> Result<Option<Job<K::Held>>, Refusal>
        ensures { IsTold K.asking TellsTaken self.old (Event.Ask (Ask.Clean 0 cleanable)) result self.new }
    {
        let (answer, held) = self.keeper.carry(
            Event::ask(Ask::Clean {
                mutator: me(),
                cleanable: cleanable.handle(),
            }),
            None,
        );
        self.follow();
        taken(&answer, held)
    }

    /// The next action in line, whose object was reclaimed; none where nothing stands in line. Its end is told by
    /// `finish_cleaner`.
    pub fn next_job(&mut self) -> Result<Option<Job<K::Held>>, Refusal>
        ensures { IsTold K.asking TellsTaken self.old (Event.Ask Ask.TakeUp) result self.new }
    {
        let (answer, held) = self.keeper.carry(Event::ask(Ask::TakeUp), None);
        self.follow();
        taken(&answer, held)
    }

    /// The end of a job of `next_job`.
    pub fn finish_cleaner(
        &mut self,
        action: ActionNo,
        outcome: Result<(), Fault>,
    ) -> Result<(), Refusal>
        ensures { IsDone K.asking self.old (Ask.Finish 255 action (outcome_of outcome)) result self.new }
    {
        self.does(Ask::Finish {
            by: CLEANER,
            action,
            outcome: ended(&outcome),
        })
    }

    /// The end of a job of `stop` or `clean`.
    pub fn finish(&mut self, action: ActionNo, outcome: Result<(), Fault>) -> Result<(), Refusal>
        ensures { IsDone K.asking self.old (Ask.Finish 0 action (outcome_of outcome)) result self.new }
    {
        self.does(Ask::Finish {
            by: 0,
            action,
            outcome: ended(&outcome),
        })
    }
}
