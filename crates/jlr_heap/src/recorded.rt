//! The history of a heap: a `Heap` over a `Recorded` leaves a book of all that was asked, which an audit can read. Its
//! methods are those of every heap, and each ask is a step of the book, which takes memory for its entries.
ghost use Rattle.std.specs.Prelude.{◌≡◌, ◌≢◌, ◌<◌, [], length};
ghost use Rattle.std.specs.Prelude.{IfOk, IsTrue, MatchBool, None, Some, false, is_none, true};
ghost use Rattle.jlr_machine.specs.Data.{Brings};
ghost use Rattle.jlr_event.specs.Events.{ask_of, resource_of_event};
ghost use Rattle.jlr_steps.specs.Events.{carries_none};
ghost use Rattle.jlr_embed.specs.Kinds.{GoesBack, is_told, kind_asked, suits};
ghost use Rattle.jlr_book.specs.Histories.{IsHistory, IsNewBook};
ghost use Rattle.jlr_book.specs.Rules.{BookSteps};
ghost use Rattle.jlr_heap.specs.Recording.{CannotHand, HandsOne, SettlesBook};
ghost use Rattle.jlr_book.specs.Histories.{handler_seat};

use crate::keeper::Keeper;
use jlr_book::book::Book;
use jlr_event::event::{Event, Reply};
use jlr_machine::ask::{Answer, Ask};
use jlr_machine::data::CopyRoom;
use jlr_types::Limits;
use std::alloc::{AllocError, Global};
use std::marker::Model;

/// A book that answers for a heap. Contracts see the book.
#[derive(Drop)]
pub struct Recorded<R> {
    book: Book<R>,
}

impl<R> Model for Recorded<R> {
    ghost use Rattle.jlr_book.specs.Histories.{History};

    ghost Value = { History R };

    ghost view = { λ s. s.book };
}

impl<R: Drop> Recorded<R> {
    /// Over the book of the empty machine.
    ///
    /// # Errors
    /// `AllocError` where the room cannot be had.
    pub fn new(alloc: Global, limits: Limits) -> Result<Self, AllocError>
        ensures { IfOk result (λ recorded. IsNewBook limits recorded) }
    {
        Ok(Recorded {
            book: Book::new(alloc, limits)?,
        })
    }

    /// The book, as the asks left it.
    pub fn into_book(self) -> Book<R>
        ensures { result ≡ self }
    {
        self.book
    }

    /// The handler's seat.
    fn handler(&self) -> u8
        ensures { result ≡ handler_seat self.now }
    {
        self.book.limits().sessions as u8 + 1
    }

    /// One step of the book, but no piece of marking. What led to it is a history.
    fn step(&mut self, seat: u8, event: Event<R>, room: Option<CopyRoom>) -> (Answer, Option<R>)
        requires asks { is_none (ask_of event) ≡ false }
        requires room { Brings room (ask_of event) }
        ensures steps { BookSteps seat self.old event (Reply.Answered result.0 result.1) self.new }
        ensures kind { is_told (kind_asked (ask_of event)) result.0 ≡ true }
        ensures suits { suits result.0 result.1 ≡ true }
        ensures back { GoesBack (resource_of_event event) result.0 result.1 }
        ensures before { IsHistory self.old }
    {
        self.book.is_history();
        match self.book.step(seat, event, room) {
            Reply::Answered { answer, resource } => (answer, resource),
            Reply::Marked(_) => unreachable!(),
        }
    }

    /// A step of the handler, where something is pending: whether it handed something over.
    fn hand_over(&mut self) -> bool
        requires { self.old.core.machine.pending ≢ [] }
        ensures turn { MatchBool result (HandsOne self.old self.new) (CannotHand self.old self.new) }
        ensures less { IsTrue result → length self.new.core.machine.pending < length self.old.core.machine.pending }
    {
        let seat = self.handler();
        let (answer, _) = self.step(seat, Event::ask(Ask::HandOver), None);
        match answer {
            Answer::Handed(_) => true,
            Answer::Refused(_) => false,
            _ => unreachable!(),
        }
    }

    /// Steps of the handler, until nothing is pending or one is refused.
    fn hand_all_over(&mut self)
        ensures { SettlesBook self.old self.new }
    {
        while !self.book.pending_empty() {
            if !self.hand_over() {
                return;
            }
        }
    }
}

impl<R: Drop> Keeper for Recorded<R> {
    ghost use Rattle.jlr_heap.specs.Recording.{recorded_asking};

    type Held = R;

    ghost asking = { recorded_asking };

    fn ask(&mut self, ask: Ask) -> Answer
        requires plain { carries_none ask ≡ true }
        ensures asked { BookSteps 0 self.old (Event.Ask ask) (Reply.Answered result None) self.new }
        ensures kind { is_told (kind_asked (Some ask)) result ≡ true }
    {
        let (answer, _) = self.step(0, Event::ask(ask), None);
        answer
    }

    fn carry(&mut self, event: Event<R>, room: Option<CopyRoom>) -> (Answer, Option<R>)
        requires asks { is_none (ask_of event) ≡ false }
        requires room { Brings room (ask_of event) }
        ensures asked { BookSteps 0 self.old event (Reply.Answered result.0 result.1) self.new }
        ensures kind { is_told (kind_asked (ask_of event)) result.0 ≡ true }
        ensures suits { suits result.0 result.1 ≡ true }
        ensures back { GoesBack (resource_of_event event) result.0 result.1 }
    {
        self.step(0, event, room)
    }

    fn settle(&mut self) {
        self.hand_all_over();
    }
}
