//! The answers of a history, given once more.
ghost use Rattle.std.specs.Prelude.{◌≡◌, IfOk};
ghost use Rattle.jlr_plain.specs.Records.{entry_in};

use crate::record::{Record, ShortAnswer, stand_in};
use jlr_machine::ask::Answer;
use jlr_machine::machine::Machine;
use jlr_plain_asks::answers::replies::{replay_counts, replay_reply};
use std::alloc::{AllocError, Global};

/// The answer of the entry that a record keeps, in the machine in which it came.
///
/// # Errors
/// `AllocError` where there is no memory for the answer.
pub fn replay_answer(alloc: Global, machine: &Machine, kept: &Record) -> Result<Answer, AllocError>
    ensures { IfOk result (λ answer. answer ≡ (entry_in machine.now kept.now).answer) }
{
    match kept.answer {
        ShortAnswer::Counted => replay_counts(alloc, machine, &kept.ask, u64::from(kept.number)),
        ShortAnswer::Replayed => replay_reply(alloc, machine, &kept.ask),
        _ => Ok(stand_in(kept)),
    }
}
