//! The book: the core, and the history that led to it.
ghost use Rattle.std.specs.Prelude.{◌≡◌, ◌⊎◌, ◌≤◌, ◌<◌, ◌+◌, ◌^◌, ◌↔◌, true, false, [], IfOk, IsErr, IsTrue, MatchBool};
ghost use Rattle.std.specs.Prelude.{MatchOption, OnOk, OnErr, None, Some, vec_len, vec_capacity};
ghost use Rattle.jlr_machine.specs.Data.{Brings};
ghost use Rattle.jlr_machine.specs.Refusals.{is_end, refusal};
ghost use Rattle.jlr_event.specs.Asks.{carries_none, hands_in};
ghost use Rattle.jlr_event.specs.Events.{ask_of, said_by};
ghost use Rattle.jlr_steps.specs.Events.{handed_out, take_up_answered};
ghost use Rattle.jlr_plain.specs.Records.{replayed};
ghost use Rattle.jlr_book.specs.Due.{IsCycleDue};
ghost use Rattle.jlr_book.specs.Kinds.{hands_in_or_marks, fits_fast_path};
ghost use Rattle.jlr_book.specs.Histories.{last, HasNumbers, IsHistory, IsNewBook};
ghost use Rattle.jlr_book.specs.Rules.{AsksBy, BookSteps, Cuts, EndsBy, MarksBy};
ghost use Rattle.jlr_book.specs.Writing.{Pieces};

use crate::cut::cut_to_image;
use crate::entry::{
    is_refused, record, record_asked_end, record_end, record_in_place, take_up_answer,
};
use crate::event::decline;
use crate::image::image::Image;
use crate::room::ChoiceRoom;
use jlr_cleaner::Job;
use jlr_event::event::{Event, Reply, ended, write_over};
use jlr_machine::ask::{Answer, Ask, Handed, Outcome};
use jlr_machine::choice::Choice;
use jlr_machine::data::{CopyRoom, Data};
use jlr_machine::entry::Chosen;
use jlr_machine::machine::Machine;
use jlr_plain::record::Record;
use jlr_steps::engine::Core;
use jlr_types::{ActionNo, Handle, Limits, Mutator, Progress, Refusal};
use std::alloc::{AllocError, Global};
use std::marker::Model;

/// So many entry numbers stay free for ends.
const SPARE_NUMBERS: u64 = 1_024;

/// The places that an entry asks for: its own, and one for each end that may be owed then.
const PLACES: usize = 130;

/// A core with its history. Contracts see what it tells: a machine, the entries since, and the core that stands where
/// they end.
pub struct Book<R> {
    alloc: Global,
    limits: Limits,
    core: Core<R>,
    choice: Choice,
    /// What a cut left, as far as it is followed.
    image: Image,
    base: u64,
    /// A record of each entry since.
    trace: Vec<Record>,
}

// By hand: each exit of a caller then has one call, where a derived drop writes out every field.
impl<R: Drop> Drop for Book<R> {
    fn drop(self) {
        let Book {
            alloc: _,
            limits: _,
            core: _,
            choice: _,
            image: _,
            base: _,
            trace: _,
        } = self;
    }
}

impl<R> Model for Book<R> {
    ghost use Rattle.jlr_plain.specs.Records.{replayed};
    ghost use Rattle.jlr_book.specs.Histories.{History};
    ghost use Rattle.jlr_book.specs.Keeping.{KeepsBook};

    ghost Value = { History R };

    ghost view = { λ b. record {
      limits = b.limits;
      base = b.base;
      image = b.image;
      entries = replayed b.image b.trace.items;
      core = b.core;
    } };

    ghost invariant = { λ b. KeepsBook b.limits b.base b.image b.trace b.core b.choice.cells };
}

impl<R: Drop> Book<R> {
    /// The book of an empty machine: no entry, and none before.
    ///
    /// # Errors
    /// `AllocError` where the room cannot be had.
    pub fn new(alloc: Global, limits: Limits) -> Result<Self, AllocError>
        ensures { IfOk result (λ book. IsNewBook limits book) }
    {
        let choice = Choice::new(alloc, limits.cells)?;
        let core = Core::new(alloc, limits)?;
        Ok(Book {
            alloc,
            limits,
            core,
            choice,
            image: Image::new(alloc, limits),
            base: 0,
            trace: Vec::new(alloc),
        })
    }

    /// What is true of each book, for callers: the entries are a run from the image, which is a well-formed machine
    /// with no open cycle and at base 0 the empty one; and the core stands for the machine where they end.
    pub fn is_history(&self)
        ensures { IsHistory self.now }
    {
        let _base = &self.base;
    }

    /// Where its memory comes from.
    pub fn alloc(&self) -> Global {
        self.alloc
    }

    /// The limits that it was made with.
    pub fn limits(&self) -> Limits
        ensures { result ≡ self.now.limits }
    {
        self.limits
    }

    /// The number of the last entry since opening, 0 where there was none.
    pub fn last(&self) -> u64
        ensures { result ≡ last self.now }
    {
        self.base + self.trace.len() as u64
    }

    /// The number of the last entry before the trace.
    pub fn base(&self) -> u64
        ensures { result ≡ self.now.base }
    {
        self.base
    }

    /// A copy of the machine from which the trace leads on.
    ///
    /// # Errors
    /// `AllocError` where there is no memory for it.
    pub fn image(&self) -> Result<Machine, AllocError>
        ensures { IfOk result (λ image. image ≡ self.now.image) }
    {
        self.image.copy(self.alloc)
    }

    /// The trace: a record of each entry.
    pub fn records(&self) -> &[Record]
        ensures { replayed self.now.image result.now ≡ self.now.entries }
    {
        self.trace.as_slice()
    }

    /// Whether a `Remove` of a mutator on a queue would be refused `WouldWait`.
    pub fn would_wait(&self, by: Mutator, queue: Handle) -> bool
        ensures { IsTrue result ↔ (refusal self.now.core.machine (Ask.Remove by queue) ≡ Some Refusal.WouldWait) }
    {
        self.core.would_wait(by, queue)
    }

    /// Whether nothing is pending, so that the handler would find nothing.
    pub fn pending_empty(&self) -> bool
        ensures { IsTrue result ↔ (self.now.core.machine.pending ≡ []) }
    {
        self.core.pending_empty()
    }

    /// Whether nothing stands in the cleaner's line, so that the cleaner would find nothing.
    pub fn line_empty(&self) -> bool
        ensures { IsTrue result ↔ (self.now.core.machine.line ≡ []) }
    {
        self.core.line_empty()
    }

    /// Whether a cycle is open, which is to be marked and collected.
    pub fn cycle_open(&self) -> bool
        ensures { result ≡ self.now.core.machine.cycle_open }
    {
        self.core.cycle_open()
    }

    /// Whether a cycle is to begin: none is open, and of the cells a quarter or more was taken since a collection
    /// finished last.
    pub fn marker_due(&self) -> bool
        ensures { IsTrue result ↔ IsCycleDue self.now }
    {
        let taken = u64::from(self.core.since_collection());
        !self.core.cycle_open() && u64::from(self.limits.cells) <= 4 * taken
    }
}

impl<R: Drop> Book<R> {
    /// One event of a seat. An ask that is no end is exactly one entry, perhaps after a cut, or the book refuses it and
    /// nothing has changed: with `Exhausted` just where fewer than 1,024 numbers are left, with `NoMemory` where a
    /// place or an image cannot be had. An end is one entry, and finds its place always; where the core refuses it, it
    /// is none. A piece of marking is none. With the end of a call that read comes the room in which its entry tells
    /// what was read: whoever asks it makes that room before the call.
    pub fn step(&mut self, seat: u8, event: Event<R>, room: Option<CopyRoom>) -> Reply<R>
        requires { Brings room (ask_of event) }
        ensures { BookSteps seat self.old event result self.new }
    {
        if self.image.is_behind() {
            self.follow_some();
        }
        let Event::Ask(ask) = event else {
            return self.step_with_resource(seat, event, room);
        };
        let mut answer = Answer::Done;
        match self.try_in_place(seat, ask.into_ask(), &mut answer) {
            Some(ask) => self.step_slow(seat, ask),
            None => Reply::Answered {
                answer,
                resource: None,
            },
        }
    }

    /// The image follows a few entries that a cut let go. Nothing of it is seen.
    #[inline(never)]
    fn follow_some(&mut self)
        ensures { self.new ≡ self.old }
    {
        self.image.follow_some();
    }

    /// What `step` does for an ask that carries no resource, neither in nor out, with its answer in the place of
    /// another.
    #[tactic(auto, using(jlr_event::proofs::Carrying::hands_nothing_in))]
    pub fn answer(&mut self, seat: u8, ask: Ask, answer: &mut Answer)
        requires plain { carries_none ask ≡ true }
        ensures { (reply : Reply R) × BookSteps seat self.old (Event.Ask ask) reply self.new
            × (answer.new ≡ said_by reply) }
    {
        if self.image.is_behind() {
            self.follow_some();
        }
        if let Some(ask) = self.try_in_place(seat, ask, answer) {
            self.step_slow(seat, ask).answer_into(answer);
        }
    }

    /// An ask whose entry needs its place alone, if it finds it and nothing is collected or cut: its answer comes in
    /// the place of another. Else nothing is done, and the ask comes back.
    #[inline(always)]
    fn try_in_place(&mut self, seat: u8, ask: Ask, answer: &mut Answer) -> Option<Ask>
        ensures { MatchOption result
            (BookSteps seat self.old (Event.Ask ask) (Reply.Answered answer.new None) self.new)
            (λ back. (back ≡ ask) × (self.new ≡ self.old)) }
    {
        if fits_fast_path(&ask)
            && self.has_numbers()
            && has_reserved_places(&self.trace, self.limits.trace)
            && !self.core.will_collect(&ask)
        {
            let said = record_in_place(
                &mut self.core,
                &mut self.choice,
                &mut self.trace,
                seat,
                ask,
            );
            write_over(answer, said);
            return None;
        }
        Some(ask)
    }

    /// The same for any ask that hands in no resource: the room of its entry is made first, and the trace is cut where
    /// it is as long as it may be.
    #[inline(never)]
    fn step_slow(&mut self, seat: u8, ask: Ask) -> Reply<R>
        requires plain { hands_in ask ≡ false }
        ensures { BookSteps seat self.old (Event.Ask ask) result self.new }
    {
        if ask.is_end() {
            return self.end_asked(seat, ask);
        }
        self.enter_with_room(seat, ask)
    }

    /// The same for the end of an open or a call, and for a piece of marking.
    #[inline(never)]
    fn step_with_resource(&mut self, seat: u8, event: Event<R>, room: Option<CopyRoom>) -> Reply<R>
        requires brought { Brings room (ask_of event) }
        requires hands_in { hands_in_or_marks event ≡ true }
        ensures { BookSteps seat self.old event result self.new }
    {
        let Some(ask) = end_of(&event, CopyRoom::into_data(room)) else {
            return self.mark_piece(event);
        };
        self.end(seat, ask, event)
    }

    /// A piece of marking of at most so many cells, which is no entry. Takes no memory.
    pub fn mark(&mut self, budget: u32) -> Progress
        ensures { MarksBy self.old budget result self.new }
    {
        self.core.mark(budget)
    }

    /// The core's machine becomes the image, and the trace is let go. An open cycle is given up before, which takes a
    /// number.
    ///
    /// # Errors
    /// `AllocError` where there is no memory for the image, and where fewer than 1,024 numbers are left. Nothing has
    /// changed then.
    pub fn cut(&mut self) -> Result<(), AllocError>
        ensures few { 2 ^ 64 ≤ last self.old + 1024 → IsErr result }
        ensures ok { OnOk result (Cuts self.old self.new) }
        ensures err { OnErr result (self.new ≡ self.old) }
    {
        if !self.has_numbers() {
            return Err(AllocError);
        }
        let Ok(used) = cut_to_image(
            self.alloc,
            &mut self.core,
            &mut self.choice,
            &mut self.trace,
            &mut self.image,
        ) else {
            return Err(AllocError);
        };
        self.base += used;
        Ok(())
    }
}

impl<R: Drop> Book<R> {
    /// Why an ask that is no end is declined for which there is no memory: for that, unless fewer than 1,024 numbers
    /// are left.
    pub fn memory_refusal(&self) -> Refusal
        ensures { (HasNumbers self.now × (result ≡ Refusal.NoMemory))
            ⊎ ((2 ^ 64 ≤ last self.now + 1024) × (result ≡ Refusal.Exhausted)) }
    {
        if self.has_numbers() {
            Refusal::NoMemory
        } else {
            Refusal::Exhausted
        }
    }

    /// Whether at least 1,024 entry numbers are left.
    fn has_numbers(&self) -> bool
        ensures { MatchBool result (HasNumbers self.now) (2 ^ 64 ≤ last self.now + 1024) }
    {
        u64::MAX - self.last() >= SPARE_NUMBERS
    }

    /// A step of the handler, if its entry finds its place and nothing has to be cut: what `step` does for `HandOver`
    /// then. Else nothing is done.
    pub fn try_hand_over(&mut self, seat: u8) -> Option<Handed>
        ensures { MatchOption result (self.new ≡ self.old)
            (λ handed. BookSteps seat self.old (Event.Ask Ask.HandOver) (Reply.Answered (Answer.Handed handed) None)
            self.new) }
    {
        if self.image.is_behind() {
            self.follow_some();
        }
        self.hand_over_on(seat)
    }

    /// The same, without a look at the image.
    #[inline(always)]
    fn hand_over_on(&mut self, seat: u8) -> Option<Handed>
        ensures { MatchOption result (self.new ≡ self.old)
            (λ handed. BookSteps seat self.old (Event.Ask Ask.HandOver) (Reply.Answered (Answer.Handed handed) None)
            self.new) }
    {
        if !self.has_numbers() || !has_reserved_places(&self.trace, self.limits.trace) {
            return None;
        }
        let handed = self.core.hand_over();
        let answer = Answer::Handed(handed);
        self.trace.push_reserved(Record::new(seat, Ask::HandOver, &answer, Chosen::nothing()));
        Some(handed)
    }

    /// A step of the cleaner, if its entry finds its place and nothing has to be cut: what `step` does for `TakeUp`
    /// then. Else nothing is done.
    pub fn try_take_up(&mut self, seat: u8) -> Option<Result<Option<Job<R>>, Refusal>>
        ensures { MatchOption result (self.new ≡ self.old)
            (λ taken. BookSteps seat self.old (Event.Ask Ask.TakeUp)
            (Reply.Answered (take_up_answered taken) (handed_out taken)) self.new) }
    {
        if self.image.is_behind() {
            self.follow_some();
        }
        self.take_up_on(seat)
    }

    /// The same, without a look at the image.
    #[inline(always)]
    fn take_up_on(&mut self, seat: u8) -> Option<Result<Option<Job<R>>, Refusal>>
        ensures { MatchOption result (self.new ≡ self.old)
            (λ taken. BookSteps seat self.old (Event.Ask Ask.TakeUp)
            (Reply.Answered (take_up_answered taken) (handed_out taken)) self.new) }
    {
        if !self.has_numbers() || !has_reserved_places(&self.trace, self.limits.trace) {
            return None;
        }
        let taken = self.core.take_up();
        let answer = take_up_answer(&taken);
        self.trace
            .push_reserved(Record::new(seat, Ask::TakeUp, &answer, Chosen::nothing()));
        Some(taken)
    }

    /// The end of a job: what `step` does for a `Finish`, which finds its place always. Where the core refuses it, it
    /// is no entry.
    pub fn end_job(&mut self, seat: u8, by: u8, action: ActionNo, outcome: Outcome)
        ensures { (reply : Reply R) × BookSteps seat self.old (Event.Ask (Ask.Finish by action outcome)) reply
            self.new }
    {
        let answer = self.core.finish(by, action, outcome);
        if is_refused(&answer) {
            return;
        }
        let ask = Ask::Finish {
            by,
            action,
            outcome,
        };
        self.trace
            .push_reserved(Record::new(seat, ask, &answer, Chosen::nothing()));
    }

    /// A piece of marking, which is no entry.
    #[inline(never)]
    fn mark_piece(&mut self, event: Event<R>) -> Reply<R>
        requires { ask_of event ≡ None }
        ensures { Pieces self.old event result self.new }
    {
        self.core.step(event, &mut self.choice)
    }

    /// The end of a session or a job has its place and its number, or is refused by the core.
    #[inline(never)]
    fn end_asked(&mut self, seat: u8, ask: Ask) -> Reply<R>
        requires plain { hands_in ask ≡ false }
        requires end { is_end ask ≡ true }
        ensures { EndsBy seat self.old (Event.Ask ask) result self.new }
    {
        record_asked_end(&mut self.core, &mut self.choice, &mut self.trace, seat, ask)
    }

    /// The end of an open or a call has its place and its number, or is refused by the core.
    #[inline(never)]
    fn end(&mut self, seat: u8, ask: Ask, event: Event<R>) -> Reply<R>
        requires ask { ask_of event ≡ Some ask }
        requires end { is_end ask ≡ true }
        ensures { EndsBy seat self.old event result self.new }
    {
        record_end(
            &mut self.core,
            &mut self.choice,
            &mut self.trace,
            seat,
            ask,
            event,
        )
    }

    /// The room of its entry, its place, and one for each end that may be owed then are made before anything changes.
    #[inline(never)]
    fn enter_with_room(&mut self, seat: u8, ask: Ask) -> Reply<R>
        requires plain { hands_in ask ≡ false }
        requires end { is_end ask ≡ false }
        ensures { AsksBy seat self.old (Event.Ask ask) result self.new }
    {
        if !self.has_numbers() {
            return decline(Refusal::Exhausted);
        }
        let Ok(room) = ChoiceRoom::for_ask(self.alloc, &self.core, self.limits.cells, &ask) else {
            return decline(Refusal::NoMemory);
        };
        if self.trace.reserve(PLACES).is_err() {
            drop(room);
            return decline(Refusal::NoMemory);
        }
        if self.trace.len() < self.limits.trace as usize {
            return record(
                &mut self.core,
                &mut self.choice,
                room,
                &mut self.trace,
                seat,
                ask,
            );
        }
        let Ok(used) = cut_to_image(
            self.alloc,
            &mut self.core,
            &mut self.choice,
            &mut self.trace,
            &mut self.image,
        ) else {
            drop(room);
            return decline(Refusal::NoMemory);
        };
        self.base += used;
        record(
            &mut self.core,
            &mut self.choice,
            room,
            &mut self.trace,
            seat,
            ask,
        )
    }
}

/// Whether a trace of at most so many entries has a place for one more, and for each end that may be owed then.
#[inline(always)]
fn has_reserved_places(trace: &Vec<Record>, limit: u32) -> bool
    ensures { MatchBool result ((vec_len trace.now < limit) × (vec_len trace.now + 130 ≤ vec_capacity trace.now))
        ((limit ≤ vec_len trace.now) ⊎ (vec_capacity trace.now < vec_len trace.now + 130)) }
{
    trace.len() < limit as usize && trace.capacity() - trace.len() >= PLACES
}

/// Whether the entry of an ask needs no more than its place, unless it collects, and no resource goes in or out: it is
/// no end, and asks for no resource.
#[inline(always)]
fn fits_fast_path(ask: &Ask) -> bool
    ensures { result ≡ fits_fast_path ask.now }
{
    match ask {
        Ask::Leave { .. } | Ask::Opened { .. } | Ask::CheckIn { .. } | Ask::Finish { .. } => false,
        Ask::Clean { .. } | Ask::CheckOut { .. } | Ask::Close { .. } | Ask::TakeUp => false,
        _ => true,
    }
}

/// The end of an open or a call, which an event tells; none of a piece of marking. Takes no memory, and the room where
/// it tells what a call read.
fn end_of<R>(event: &Event<R>, room: Option<Data>) -> Option<Ask>
    requires brought { Brings room (ask_of event.now) }
    requires hands_in { hands_in_or_marks event.now ≡ true }
    ensures { result ≡ ask_of event.now }
{
    match event {
        Event::Opened { mutator, outcome } => Some(Ask::Opened {
            mutator: *mutator,
            outcome: ended(outcome),
        }),
        Event::CheckIn {
            mutator,
            outcome,
            ..
        } => Some(Ask::CheckIn {
            mutator: *mutator,
            outcome: outcome.copy_into(room),
        }),
        Event::Mark { .. } => None,
        Event::Ask(_) => unreachable!(),
    }
}
