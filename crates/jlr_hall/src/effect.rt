//! What an event may change of who waits and of what is owed, and what its reply says of that.
ghost use Rattle.std.specs.Prelude.{◌≡◌, is_some, MatchOption, None, Some};
ghost use Rattle.jlr_event.specs.Events.{answer_in, resource_of_reply};
ghost use Rattle.jlr_hall.specs.OneHistory.{is_refused_reply};
ghost use Rattle.jlr_hall.specs.Due.{is_collected, is_given_up, is_resources_full, answers_handle};
ghost use Rattle.jlr_hall.specs.Locking.{effect_of, effect_of_ask};

use jlr_event::event::{Event, Reply};
use jlr_machine::ask::{Answer, Ask, Handed};
use jlr_types::Refusal;

/// What an event may change of who waits and of what is owed.
#[derive(Clone, Copy)]
pub(crate) enum Effect {
    Nothing,
    /// A reference may come on a queue.
    Queues,
    Joins,
    Leaves,
    /// A resource is opened.
    Opens,
    /// Room for a resource is asked for.
    Prepares,
    /// A job is taken up, perhaps on a resource.
    Closes,
    /// A job ends.
    Finishes,
    /// What is unreachable is found out.
    Collects,
    /// An open cycle is given up.
    Abandons,
}

impl Effect {
    /// That of an event.
    pub(crate) fn of<R>(event: &Event<R>) -> Self
        ensures { result ≡ effect_of event.now }
    {
        match event {
            Event::Ask(ask) => Effect::of_ask(ask.get()),
            Event::Opened { .. } => Effect::Opens,
            Event::CheckIn { .. } | Event::Mark { .. } => Effect::Nothing,
        }
    }

    /// That of an ask that hands in no resource.
    fn of_ask(ask: &Ask) -> Self
        ensures { result ≡ effect_of_ask ask.now }
    {
        match ask {
            Ask::Enqueue { .. } | Ask::HandOver => Effect::Queues,
            Ask::Join { .. } => Effect::Joins,
            Ask::Leave { .. } => Effect::Leaves,
            Ask::Prepare { .. } => Effect::Prepares,
            Ask::Clean { .. } | Ask::Close { .. } => Effect::Closes,
            Ask::Finish { .. } => Effect::Finishes,
            Ask::Begin | Ask::Full { .. } => Effect::Collects,
            Ask::Abandon => Effect::Abandons,
            _ => Effect::Nothing,
        }
    }
}

/// The answer of a reply; a piece of marking has none.
fn answer_of<R>(reply: &Reply<R>) -> Option<&Answer>
    ensures { MatchOption result (answer_in reply.now ≡ None) (λ answer. answer_in reply.now ≡ Some answer.now) }
{
    match reply {
        Reply::Answered { answer, .. } => Some(answer),
        Reply::Marked(_) => None,
    }
}

/// Whether an event was refused.
pub(crate) fn was_refused<R>(reply: &Reply<R>) -> bool
    ensures { result ≡ is_refused_reply (answer_in reply.now) }
{
    matches!(answer_of(reply), Some(Answer::Refused(_)))
}

/// Whether an answer says that a reference came into its queue.
pub(crate) fn says_queued<R>(reply: &Reply<R>) -> bool {
    matches!(
        answer_of(reply),
        Some(Answer::Truth(true) | Answer::Handed(Handed::Queued))
    )
}

/// Whether a cycle began, or a whole collection was done.
pub(crate) fn says_collected<R>(reply: &Reply<R>) -> bool
    ensures { result ≡ is_collected (answer_in reply.now) }
{
    matches!(answer_of(reply), Some(Answer::Truth(true) | Answer::Done))
}

/// Whether an open cycle was given up.
pub(crate) fn says_given_up<R>(reply: &Reply<R>) -> bool
    ensures { result ≡ is_given_up (answer_in reply.now) }
{
    matches!(answer_of(reply), Some(Answer::Truth(true)))
}

/// Whether a handle was given.
pub(crate) fn gave_handle<R>(reply: &Reply<R>) -> bool
    ensures { result ≡ answers_handle (answer_in reply.now) }
{
    matches!(answer_of(reply), Some(Answer::Handle(_)))
}

/// Whether a resource was handed out.
pub(crate) fn gave_resource<R>(reply: &Reply<R>) -> bool
    ensures { result ≡ is_some (resource_of_reply reply.now) }
{
    matches!(
        reply,
        Reply::Answered {
            resource: Some(_),
            ..
        }
    )
}

/// Whether there was no room for a resource.
pub(crate) fn lacks_resources<R>(reply: &Reply<R>) -> bool
    ensures { result ≡ is_resources_full (answer_in reply.now) }
{
    matches!(
        answer_of(reply),
        Some(Answer::Refused(Refusal::ResourcesFull))
    )
}
