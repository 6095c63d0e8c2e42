//! A book that one session has for itself, as what its asks go to.
ghost use Rattle.std.specs.Prelude.{◌≡◌, ◌≢◌, ◌<◌, false, true, [], IfErr, IfOk, MatchBool, None, length};
ghost use Rattle.jlr_machine.specs.Data.{Brings, tells_data};
ghost use Rattle.jlr_machine.specs.declared.ask.Answer.TheVariants.{Refused};
ghost use Rattle.jlr_event.specs.Asks.{carries_none};
ghost use Rattle.jlr_event.specs.Events.{ask_of, said_by};
ghost use Rattle.jlr_machine.specs.declared.ask.Ask.TheVariants.{CheckOut, HandOver};
ghost use Rattle.jlr_event.specs.declared.event.Event.TheVariants.{Ask as Asks};
ghost use Rattle.jlr_event.specs.declared.event.Reply.TheVariants.{Answered};
ghost use Rattle.jlr_session.specs.Asks.{TellsFinished};
ghost use Rattle.jlr_book.specs.Histories.{IsHistory, IsNewBook};
ghost use Rattle.jlr_book.specs.Rules.{BookSteps};
ghost use Rattle.jlr_prog.specs.Settling.{CannotHandOver, CleansUp, HandsAllOver, HandsOver, Works};
ghost use Rattle.jlr_prog.specs.Solos.{at_book, by_book};
ghost use Rattle.jlr_book.specs.Histories.{cleaner_seat, handler_seat};
ghost use Rattle.jlr_prog.specs.OneTurn.{IsTurn, turn_by};

use jlr_book::book::Book;
use jlr_cleaner::Job;
use jlr_device::Resource;
use jlr_event::event::{Event, Reply, ended};
use jlr_machine::ask::{Answer, Ask, CLEANER};
use jlr_machine::data::CopyRoom;
use jlr_session::job::{finish, job_of};
use jlr_session::port::{Port, ReadRoom};
use jlr_types::{Handle, Limits, Mutator, Refusal};
use std::alloc::{AllocError, Global};
use std::marker::Model;

/// A book that one session has for itself: mutator 0 asks, and after each reply the handler and the cleaner do what is
/// due. Contracts see the book.
#[derive(Drop)]
pub struct Solo<R> {
    book: Book<R>,
}

impl<R> Model for Solo<R> {
    ghost use Rattle.jlr_book.specs.Histories.{History};

    ghost Value = { History R };

    ghost view = { λ s. s.book };
}

/// What a turn of the handler or of the cleaner came to.
#[derive(Clone, Copy)]
enum Turn {
    /// Something was done.
    Worked,
    /// The ask was refused.
    Refused,
}

impl<R: Drop> Solo<R> {
    /// Over the book of the empty machine.
    ///
    /// # Errors
    /// `AllocError` where the room cannot be had.
    pub fn new(alloc: Global, limits: Limits) -> Result<Self, AllocError>
        ensures { IfOk result (λ solo. IsNewBook limits solo) }
    {
        Ok(Solo {
            book: Book::new(alloc, limits)?,
        })
    }

    /// The book, as the asks left it.
    pub fn into_book(self) -> Book<R>
        ensures { result ≡ self }
    {
        self.book
    }

    /// The handler's seat.
    fn handler(&self) -> u8
        ensures { result ≡ handler_seat self.now }
    {
        self.book.limits().sessions as u8 + 1
    }

    /// The cleaner's seat.
    fn cleaner(&self) -> u8
        ensures { result ≡ cleaner_seat self.now }
    {
        self.book.limits().sessions as u8 + 2
    }

    /// One step of the book. What led to it is a history, and what it leads to.
    #[inline(always)]
    fn step(&mut self, seat: u8, event: Event<R>) -> Reply<R>
        requires { tells_data (ask_of event) ≡ false }
        ensures steps { BookSteps seat self.old event result self.new }
        ensures before { IsHistory self.old }
        ensures after { IsHistory self.new }
    {
        self.book.is_history();
        let reply = self.book.step(seat, event, None);
        self.book.is_history();
        reply
    }
}

impl<R: Resource + Drop> Solo<R> {
    /// Steps of the handler, until nothing is pending or one is refused. Whether nothing is pending.
    fn hand_all_over(&mut self) -> bool
        ensures { MatchBool result (HandsAllOver at_book self.old self.new) (CannotHandOver at_book self.old self.new) }
    {
        while !self.book.pending_empty() {
            match self.hand_over() {
                Turn::Worked => {}
                Turn::Refused => return false,
            }
        }
        true
    }

    /// One step of the handler, where something is pending.
    #[inline(never)]
    fn hand_over(&mut self) -> Turn
        requires { self.old.core.machine.pending ≢ [] }
        ensures turn { IsTurn at_book.hands (HandsOver at_book) (Asks HandOver) result self.old self.new }
        ensures shorter { result ≡ Turn.Worked → length self.new.core.machine.pending < length
            self.old.core.machine.pending }
    {
        let seat = self.handler();
        self.book.is_history();
        match self.book.try_hand_over(seat) {
            Some(_) => Turn::Worked,
            None => self.hand_over_at_length(),
        }
    }

    /// The same, whether its entry finds its place or not.
    #[inline(never)]
    fn hand_over_at_length(&mut self) -> Turn
        requires { self.old.core.machine.pending ≢ [] }
        ensures turn { IsTurn at_book.hands (HandsOver at_book) (Asks HandOver) result self.old self.new }
        ensures shorter { result ≡ Turn.Worked → length self.new.core.machine.pending < length
            self.old.core.machine.pending }
    {
        let seat = self.handler();
        match self.step(seat, Event::ask(Ask::HandOver)) {
            Reply::Answered { answer, .. } => turn_after(&answer),
            Reply::Marked(_) => Turn::Refused,
        }
    }

    /// Turns of the cleaner, until its line is empty or one is refused.
    fn clean_all(&mut self)
        ensures { CleansUp at_book R.handling self.old self.new }
    {
        while !self.book.line_empty() {
            match self.clean() {
                Turn::Worked => {}
                Turn::Refused => return,
            }
        }
    }

    /// One job, where the line is not empty. If none of it is Lined, it is let go.
    #[inline(never)]
    fn clean(&mut self) -> Turn
        requires { self.old.core.machine.line ≢ [] }
        ensures turn { IsTurn at_book.cleans (Works at_book R.handling) (Event.Ask Ask.TakeUp) result self.old
            self.new }
        ensures shorter { result ≡ Turn.Worked → length self.new.core.machine.line < length self.old.core.machine.line }
    {
        let seat = self.cleaner();
        self.book.is_history();
        match self.book.try_take_up(seat) {
            Some(Ok(Some(job))) => {
                self.finish(seat, job);
                Turn::Worked
            }
            Some(Ok(None)) => Turn::Worked,
            Some(Err(_)) => Turn::Refused,
            None => self.clean_at_length(),
        }
    }

    /// The same, whether the entry of the take-up finds its place or not.
    #[inline(never)]
    fn clean_at_length(&mut self) -> Turn
        requires { self.old.core.machine.line ≢ [] }
        ensures turn { IsTurn at_book.cleans (Works at_book R.handling) (Event.Ask Ask.TakeUp) result self.old
            self.new }
        ensures shorter { result ≡ Turn.Worked → length self.new.core.machine.line < length self.old.core.machine.line }
    {
        let seat = self.cleaner();
        match job_of(self.step(seat, Event::ask(Ask::TakeUp))) {
            Ok(job) => {
                self.finish(seat, job);
                Turn::Worked
            }
            Err(answer) => turn_after(&answer),
        }
    }

    /// The work of a job that the cleaner took up is done, and its outcome told. What led to it is a history.
    fn finish(&mut self, seat: u8, job: Job<R>)
        ensures told { (event : Event R) × (reply : Reply R)
            × TellsFinished R.handling 255 job event × BookSteps seat self.old event reply self.new }
        ensures before { IsHistory self.old }
    {
        self.book.is_history();
        let Job {
            action,
            resource,
            ..
        } = job;
        let outcome = ended(&finish(resource));
        self.book.end_job(seat, CLEANER, action, outcome);
    }
}

impl<R: Resource + Drop> Port<R> for Solo<R> {
    ghost asking = { by_book R.handling };

    fn mutator(&self) -> Mutator {
        Mutator::new(0)
    }

    fn read_room(&self, guard: Handle) -> Result<ReadRoom, Refusal>
        ensures declined { IfErr result (λ by. BookSteps 0 self.now (Asks (CheckOut 0 guard))
            (Answered (Refused by) None) self.now) }
    {
        let _declined = guard;
        match ReadRoom::new(self.book.alloc()) {
            Ok(room) => Ok(room),
            Err(_) => Err(self.book.memory_refusal()),
        }
    }

    fn ask(&mut self, event: Event<R>, room: Option<CopyRoom>) -> Reply<R>
        requires { Brings room (ask_of event) }
        ensures asked { BookSteps 0 self.old event result self.new }
        ensures named { (by_book R.handling).mutator self.new ≡ (by_book R.handling).mutator self.old }
    {
        self.book.step(0, event, room)
    }

    fn answer(&mut self, ask: Ask, answer: &mut Answer)
        requires plain { carries_none ask ≡ true }
        ensures answered { (reply : Reply R) × BookSteps 0 self.old (Asks ask) reply self.new
            × (answer.new ≡ said_by reply) }
        ensures named { (by_book R.handling).mutator self.new ≡ (by_book R.handling).mutator self.old }
    {
        self.book.answer(0, ask, answer);
    }

    fn settle(&mut self) {
        if self.hand_all_over() {
            self.clean_all();
        }
    }
}

/// What an answer says of a turn.
fn turn_after(answer: &Answer) -> Turn
    ensures { result ≡ turn_by answer.now }
{
    match answer {
        Answer::Refused(_) => Turn::Refused,
        _ => Turn::Worked,
    }
}
