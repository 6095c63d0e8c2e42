//! What replies say, and what they lead on to.
ghost use Rattle.std.specs.Prelude.{◌≡◌};
ghost use Rattle.jlr_session.specs.Asks.{prepared_by, out_by, out_with};

use jlr_event::event::{Reply, unanswered};
use jlr_machine::ask::Answer;

/// Whether room was made for a resource.
///
/// # Errors
/// The answer, where it says something else.
pub(crate) fn prepared<R: Drop>(reply: Reply<R>) -> Result<(), Answer>
    ensures { result ≡ prepared_by reply }
{
    match reply.into_answer() {
        Answer::Prepared(_) => Ok(()),
        answer => Err(answer),
    }
}

/// The resource that was handed out for a call.
///
/// # Errors
/// The answer, where none was. A resource that comes with it is dropped.
pub(crate) fn handed_out<R: Drop>(reply: Reply<R>) -> Result<R, Answer>
    ensures { result ≡ out_by reply }
{
    match reply {
        Reply::Answered { answer, resource } => handed_out_with(answer, resource),
        Reply::Marked(_) => Err(unanswered()),
    }
}

fn handed_out_with<R: Drop>(answer: Answer, resource: Option<R>) -> Result<R, Answer>
    ensures { result ≡ out_with answer resource }
{
    match answer {
        Answer::Out(rid) => resource.ok_or(Answer::Out(rid)),
        answer => Err(answer),
    }
}
