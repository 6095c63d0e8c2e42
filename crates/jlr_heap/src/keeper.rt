//! What answers for a heap: with a history of what was asked, or with none.
ghost use Rattle.std.specs.Prelude.{◌≡◌, false, is_none, true, None, Some};
ghost use Rattle.jlr_machine.specs.Data.{Brings};
ghost use Rattle.jlr_steps.specs.Events.{carries_none};
ghost use Rattle.jlr_steps.specs.Steps.{Steps};
ghost use Rattle.jlr_event.specs.Events.{ask_of, resource_of_event};
ghost use Rattle.jlr_event.specs.declared.event.Event.TheVariants.{Ask as Asks};
ghost use Rattle.jlr_event.specs.declared.event.Reply.TheVariants.{Answered};
ghost use Rattle.jlr_embed.specs.Kinds.{GoesBack, is_told, kind_asked, suits};

use jlr_embed::Unrecorded;
use jlr_event::event::Event;
use jlr_machine::ask::{Answer, Ask};
use jlr_machine::data::CopyRoom;
use std::mem;

/// What answers for a heap with one mutator, 0. `Unrecorded` keeps no history.
pub trait Keeper {
    ghost use Rattle.std.specs.Prelude.{◌≡◌, false, is_none, true, None, Some};
    ghost use Rattle.jlr_machine.specs.Data.{Brings};
    ghost use Rattle.jlr_steps.specs.Events.{carries_none};
    ghost use Rattle.jlr_event.specs.Events.{ask_of, resource_of_event};
    ghost use Rattle.jlr_event.specs.declared.event.Event.TheVariants.{Ask as Asks};
    ghost use Rattle.jlr_event.specs.declared.event.Reply.TheVariants.{Answered};
    ghost use Rattle.jlr_embed.specs.Kinds.{GoesBack, is_told, kind_asked, suits};
    ghost use Rattle.jlr_session.specs.Asks.{Asking};

    /// What its guards hold.
    type Held: Drop;

    // what an ask and its reply do, and what a settling does
    ghost asking: { Asking Self Self.Held };

    /// One ask that carries nothing that a guard holds, neither in nor out. The answer is of the ask's kind.
    fn ask(&mut self, ask: Ask) -> Answer
        requires plain { carries_none ask ≡ true }
        ensures asked { asking.asks self.old (Asks ask) (Answered result None) self.new }
        ensures kind { is_told (kind_asked (Some ask)) result ≡ true };

    /// One event of any other kind, but no piece of marking: its answer, and what goes out with it. With the end of a
    /// call that read comes the room in which a history tells what was read.
    fn carry(
        &mut self,
        event: Event<Self::Held>,
        room: Option<CopyRoom>,
    ) -> (Answer, Option<Self::Held>)
        requires asks { is_none (ask_of event) ≡ false }
        requires room { Brings room (ask_of event) }
        ensures asked { asking.asks self.old event (Answered result.0 result.1) self.new }
        ensures kind { is_told (kind_asked (ask_of event)) result.0 ≡ true }
        ensures suits { suits result.0 result.1 ≡ true }
        ensures back { GoesBack (resource_of_event event) result.0 result.1 };

    /// The handler's steps, until nothing is pending.
    fn settle(&mut self)
        ensures { asking.settling self.old self.new };
}

impl<R: Drop> Keeper for Unrecorded<R> {
    ghost use Rattle.jlr_heap.specs.Entries.{unrecorded};

    type Held = R;

    ghost asking = { unrecorded };

    #[inline(always)]
    fn ask(&mut self, ask: Ask) -> Answer
        requires plain { carries_none ask ≡ true }
        ensures asked { Steps self.old (Asks ask) (Answered result None) self.new }
        ensures kind { is_told (kind_asked (Some ask)) result ≡ true }
    {
        let answer = self.answer(&ask);
        mem::forget(ask);
        answer
    }

    fn carry(&mut self, event: Event<R>, room: Option<CopyRoom>) -> (Answer, Option<R>)
        requires asks { is_none (ask_of event) ≡ false }
        requires room { Brings room (ask_of event) }
        ensures asked { Steps self.old event (Answered result.0 result.1) self.new }
        ensures kind { is_told (kind_asked (ask_of event)) result.0 ≡ true }
        ensures suits { suits result.0 result.1 ≡ true }
        ensures back { GoesBack (resource_of_event event) result.0 result.1 }
    {
        let _no_history = room;
        Unrecorded::carry(self, event)
    }

    #[inline]
    fn settle(&mut self) {
        Unrecorded::settle(self);
    }
}
