//! A whole list of events, from an empty machine.
ghost use Rattle.std.specs.Prelude.{◌≡◌, ◌++◌, IfOk, length};
ghost use Rattle.std.specs.List.Sorted.{IsPermutation};
ghost use Rattle.jlr_resource.specs.Resources.{values};
ghost use Rattle.jlr_steps.specs.Steps.{IsEmpty};
ghost use Rattle.jlr_core.specs.Runs.{IsRunOf, resources_of_events, resources_of_replies};

use jlr_event::event::{Event, Reply};
use jlr_machine::choice::Choice;
use jlr_steps::engine::Core;
use jlr_types::Limits;
use std::alloc::{AllocError, Global};

/// Runs the events in order from the empty machine of the limits. There are choices with which the replies and the core
/// that is left are a run of the machine of java.lang.ref, which keeps the promises of its package: references are
/// cleared only in allowed sets, each is enqueued at most once and only when cleared, each cleaning action is taken up
/// at most once, and its outcome recorded once or its job runs. Each event is a step of the core. No resource is made
/// or lost: those handed in were handed out, or lie in the core, each as often.
///
/// # Errors
/// `AllocError` where there is no room for the core, for a choice or for the replies.
pub fn run<R: Drop>(
    alloc: Global,
    limits: Limits,
    events: Vec<Event<R>>,
) -> Result<(Vec<Reply<R>>, Core<R>), AllocError>
    ensures run { IfOk result (λ out. IsRunOf limits events.items out.0.items out.1) }
    ensures cells { IfOk result (λ out. length out.1.machine.objects ≡ limits.cells) }
    ensures age { IfOk result (λ out. out.1.soft_age ≡ limits.soft_age) }
    ensures flow { IfOk result (λ out. IsPermutation (resources_of_events events.items)
        (resources_of_replies out.0.items ++ values out.1.table)) }
{
    let mut choice = Choice::new(alloc, limits.cells)?;
    let mut core = Core::new(alloc, limits)?;
    match answer_all(alloc, limits, &mut core, &mut choice, events) {
        Ok(replies) => Ok((replies, core)),
        Err(memory_refusal) => {
            drop(core);
            Err(memory_refusal)
        }
    }
}

/// The replies to events in order, by a core of the empty machine of the limits.
///
/// # Errors
/// `AllocError` where there is no room for the replies.
fn answer_all<R: Drop>(
    alloc: Global,
    limits: Limits,
    core: &mut Core<R>,
    choice: &mut Choice,
    events: Vec<Event<R>>,
) -> Result<Vec<Reply<R>>, AllocError>
    requires empty { IsEmpty limits.cells limits.sessions limits.resources limits.soft_age 1 core.old }
    requires room { choice.old.cells ≡ limits.cells }
    ensures run { IfOk result (λ replies. IsRunOf limits events.items replies.items core.new) }
    ensures cells { IfOk result (λ _. length core.new.machine.objects ≡ limits.cells) }
    ensures age { IfOk result (λ _. core.new.soft_age ≡ limits.soft_age) }
    ensures flow { IfOk result (λ replies. IsPermutation
        (resources_of_events events.items) (resources_of_replies replies.items ++ values core.new.table)) }
{
    let mut replies = Vec::with_capacity(alloc, events.len())?;
    for event in events {
        replies.push(core.step(event, choice))?;
    }
    Ok(replies)
}
