//! How a book refuses an ask by itself.
ghost use Rattle.std.specs.Prelude.{◌≡◌, None};
ghost use Rattle.jlr_event.specs.declared.event.Reply.TheVariants.{Answered};
ghost use Rattle.jlr_machine.specs.declared.ask.Answer.TheVariants.{Refused};

use jlr_event::event::Reply;
use jlr_machine::ask::Answer;
use jlr_types::Refusal;

/// A refusal by the book itself of an ask that hands in nothing.
pub fn decline<R>(by: Refusal) -> Reply<R>
    ensures { result ≡ Answered (Refused by) None }
{
    Reply::Answered {
        answer: Answer::Refused(by),
        resource: None,
    }
}
