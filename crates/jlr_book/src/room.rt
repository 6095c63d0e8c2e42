//! What an entry takes beyond its place, made before its ask: the room of a collection. So it takes no memory then.
ghost use Rattle.std.specs.Prelude.{◌≤◌, IfOk, Some, length};
ghost use Rattle.jlr_book.specs.Making.{SuitsChoice};

use jlr_machine::ask::Ask;
use jlr_machine::choice::Choice;
use jlr_steps::engine::Core;
use std::alloc::{AllocError, Global};

/// Room for what is chosen.
#[derive(Drop)]
pub(crate) enum ChoiceRoom {
    /// A collection may come.
    Collecting(Box<Choice>),
    /// None comes: the slots of new objects take no room.
    Plain,
}

impl ChoiceRoom {
    /// Room for what an ask may choose. Only where it may collect it is a whole choice.
    ///
    /// # Errors
    /// `AllocError` where the room cannot be had.
    #[inline(always)]
    pub(crate) fn for_ask<R>(
        alloc: Global,
        core: &Core<R>,
        cells: u32,
        ask: &Ask,
    ) -> Result<Self, AllocError>
        requires { length core.now.machine.objects ≤ cells }
        ensures { IfOk result (λ room. SuitsChoice core.now.machine (Some ask.now) room) }
    {
        if core.will_collect(ask) {
            let choice = Choice::new(alloc, cells)?;
            return Ok(ChoiceRoom::Collecting(Box::new(alloc, choice)?));
        }
        Ok(ChoiceRoom::Plain)
    }
}
