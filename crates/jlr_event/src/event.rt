//! What comes to the core, and what goes back: an ask or an answer with the resource that it carries.
ghost use Rattle.std.specs.Prelude.{◌≡◌, false};
ghost use Rattle.jlr_event.specs.Asks.{hands_in};
ghost use Rattle.jlr_event.specs.Events.{answer_in, no_answer, outcome_of, resource_of_reply, said_by};

use jlr_machine::ask::{Answer, Ask, CallOutcome, Handed, Outcome};
use jlr_types::{Fault, Mutator, Progress};
use std::marker::Model;

/// An ask that hands in no resource: any but the end of an open and of a call. Contracts see the ask.
#[derive(Drop)]
pub struct PlainAsk {
    ask: Ask,
}

impl Model for PlainAsk {
    ghost use Rattle.std.specs.Prelude.{◌≡◌, false};
    ghost use Rattle.jlr_machine.specs.declared.ask.Ask.{Ask};
    ghost use Rattle.jlr_event.specs.Asks.{hands_in};

    ghost Value = { Ask };

    ghost view = { λ p. p.ask };

    ghost invariant = { λ p. hands_in p.ask ≡ false };
}

impl PlainAsk {
    /// The ask.
    #[inline(always)]
    pub fn get(&self) -> &Ask
        ensures ask { result.now ≡ self.now }
        ensures plain { hands_in result.now ≡ false }
    {
        &self.ask
    }

    /// The ask itself.
    #[inline(always)]
    pub fn into_ask(self) -> Ask
        ensures ask { result ≡ self }
        ensures plain { hands_in result ≡ false }
    {
        let PlainAsk { ask } = self;
        ask
    }
}

/// An event: an ask, with the resource that is handed in where one is, or a piece of marking.
#[derive(Drop)]
pub enum Event<R> {
    /// An ask that hands in no resource.
    Ask(PlainAsk),
    /// An open ended: with the resource, or with a fault.
    Opened {
        mutator: Mutator,
        outcome: Result<R, Fault>,
    },
    /// A call on a resource ended: the resource comes back, well or not.
    CheckIn {
        mutator: Mutator,
        outcome: CallOutcome,
        resource: R,
    },
    /// A piece of marking of at most so many ticks. The machine does not see it.
    Mark {
        budget: u32,
    },
}

/// What an event is answered, with the resource that is handed out where one is.
#[derive(Drop)]
pub enum Reply<R> {
    /// The answer of an ask.
    Answered { answer: Answer, resource: Option<R> },
    /// How far a piece of marking came.
    Marked(Progress),
}

impl<R> Event<R> {
    /// The event of an ask that hands in no resource.
    #[inline(always)]
    pub fn ask(ask: Ask) -> Self
        requires plain { hands_in ask ≡ false }
        ensures { result ≡ Event.Ask ask }
    {
        Event::Ask(PlainAsk { ask })
    }
}

impl<R> Reply<R> {
    /// The answer, and the resource that goes with it. There are none for `Mark`. Takes no memory.
    pub fn plain(self) -> (Option<Answer>, Option<R>)
        ensures { result ≡ (answer_in self, resource_of_reply self) }
    {
        match self {
            Reply::Answered { answer, resource } => (Some(answer), resource),
            Reply::Marked(_) => (None, None),
        }
    }
}

impl<R: Drop> Reply<R> {
    /// The answer, or what stands for that of a piece of marking. A resource that comes with it is dropped.
    #[inline(always)]
    pub fn into_answer(self) -> Answer
        ensures { result ≡ said_by self }
    {
        match self {
            Reply::Answered { answer, .. } => answer,
            Reply::Marked(_) => unanswered(),
        }
    }

    /// Puts the answer in the place of another, which is dropped, and so is a resource that comes with it.
    #[inline(always)]
    pub fn answer_into(self, answer: &mut Answer)
        ensures { answer.new ≡ said_by self }
    {
        match self {
            Reply::Answered { answer: said, .. } => write_over(answer, said),
            Reply::Marked(_) => write_over(answer, unanswered()),
        }
    }
}

/// What stands for the answer of a piece of marking, which has none. It has no line, so that a session ends by it.
pub fn unanswered() -> Answer
    ensures { result ≡ no_answer }
{
    Answer::Handed(Handed::Nothing)
}

/// Writes an answer over another, which is let go here, and not by each caller.
#[inline(always)]
pub fn write_over(answer: &mut Answer, said: Answer)
    ensures { answer.new ≡ said }
{
    *answer = said;
}

/// How it ended, without what it gave.
pub fn ended<T>(outcome: &Result<T, Fault>) -> Outcome
    ensures { result ≡ outcome_of outcome.now }
{
    match outcome {
        Ok(_) => Outcome::Ok,
        Err(fault) => Outcome::Failed(*fault),
    }
}
