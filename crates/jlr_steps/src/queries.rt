//! What a caller may look at before it asks: whether an ask would wait.
ghost use Rattle.std.specs.Prelude.{◌≡◌, ◌↔◌, IsTrue, Some};
ghost use Rattle.jlr_machine.specs.Refusals.{refusal};
ghost use Rattle.jlr_machine.specs.WellFormed.{IsWellFormed};
ghost use Rattle.jlr_state.specs.Machines.{machine_of};

use crate::references;
use jlr_machine::ask::Ask;
use jlr_state::state::State;
use jlr_types::{Handle, Mutator, Refusal};

/// Whether a `Remove` would be refused because its queue is empty, and nothing that comes before it in the order of
/// refusals.
pub(crate) fn would_wait<R>(state: &State<R>, by: Mutator, queue: Handle) -> bool
    requires { IsWellFormed (machine_of state.now) }
    ensures { IsTrue result ↔ (refusal (machine_of state.now) (Ask.Remove by queue) ≡ Some Refusal.WouldWait) }
{
    match references::check_remove(state, by, queue) {
        Ok(_) => false,
        Err(refusal) => refusal == Refusal::WouldWait,
    }
}
