//! Cleaning actions that were taken up, and their work.
ghost use Rattle.std.specs.Prelude.{◌≡◌};
ghost use Rattle.jlr_session.specs.Asks.{TellsFinished, job_by};
ghost use Rattle.jlr_session.specs.Calls.{Finishes};

use jlr_cleaner::Job;
use jlr_device::Resource;
use jlr_device::guarded::guarded_finish;
use jlr_event::event::{Event, Reply, ended, unanswered};
use jlr_machine::ask::{Answer, Ask};
use jlr_types::Fault;

/// The job of a cleaning action that was taken up.
///
/// # Errors
/// The answer, where none was. A resource that comes with it is dropped.
pub fn job_of<R: Drop>(reply: Reply<R>) -> Result<Job<R>, Answer>
    ensures { result ≡ job_by reply }
{
    match reply {
        Reply::Answered { answer, resource } => match answer {
            Answer::Job { action, work } => Ok(Job {
                action,
                work,
                resource,
            }),
            answer => Err(answer),
        },
        Reply::Marked(_) => Err(unanswered()),
    }
}

/// Does the work of a job that `by` took up, a mutator or 255 for the cleaner, and gives the event that tells its
/// outcome.
///
/// A resource is finished, once, and its outcome told; where its count of failures is at its last value it is dropped,
/// and the outcome is `other`. A job without one, a note, ends well.
pub fn carry_out<R: Resource + Drop>(by: u8, job: Job<R>) -> Event<R>
    ensures { TellsFinished R.handling by job result }
{
    let Job {
        action,
        resource,
        ..
    } = job;
    Event::ask(Ask::Finish {
        by,
        action,
        outcome: ended(&finish(resource)),
    })
}

/// Does the work of a job: finishes its resource, once, where it has one. A note, which has none, ends well.
///
/// # Errors
/// How the finishing failed, `other` where the count of failures is at its last value.
pub fn finish<R: Resource + Drop>(resource: Option<R>) -> Result<(), Fault>
    ensures { Finishes R.handling resource result }
{
    match resource {
        Some(resource) => guarded_finish(resource).outcome,
        None => Ok(()),
    }
}
