//! What is counted.
ghost use Rattle.std.specs.Prelude.{◌≡◌};
ghost use Rattle.jlr_state.specs.State.{Answered, answer_of};
ghost use Rattle.jlr_state.specs.Machines.{machine_of};

use jlr_machine::ask::{Answer, Ask, Stat};
use jlr_state::state::State;
use jlr_types::{Mutator, Refusal};

/// How many objects and resources there are, and what became of the cleaning actions.
pub(crate) fn stat<R>(state: &State<R>, by: Mutator) -> Result<Answer, Refusal>
    ensures answered { Answered (machine_of state.now) (Ask.Stat by) result (machine_of state.now) }
    ensures memory { answer_of result ≡ Answer.Refused Refusal.NoMemory → ⊥ }
{
    state.check_session(by)?;
    state.check_no_call(by)?;
    let objects = state.heap.cell_count() - state.heap.vacant_count();
    let totals = state.cleaner.totals();
    Ok(Answer::Stat(Stat {
        objects: u64::from(objects),
        resources: state.cleaner.count() as u64,
        taken: totals.taken,
        ok: totals.ok,
        failed: totals.failed,
    }))
}
