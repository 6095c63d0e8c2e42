//! What goes out: cleaning actions that were taken up, and what was handed in and declined.
ghost use Rattle.std.specs.Prelude.{◌≡◌, Some, true};
ghost use Rattle.jlr_embed.specs.Kinds.{GoesBack, is_job_answer, is_lent, is_told, job_suits, suits};
ghost use Rattle.jlr_machine.specs.declared.ask.Answer.TheVariants as answer;
ghost use Rattle.jlr_heap.specs.Guards.{TellsTaken, TellsLent, TellsWorkOf};

use jlr_machine::ask::Answer;
use jlr_types::{ActionNo, Refusal, Work};

/// A cleaning action that was taken up. The program does it, and tells its end by `finish` or `finish_cleaner`.
#[derive(Drop)]
pub struct Job<R> {
    /// Its number.
    pub action: ActionNo,
    /// What is to be done.
    pub what: What<R>,
}

/// What a job is about.
#[derive(Drop)]
pub enum What<R> {
    /// What the program knows by this note.
    Note(u32),
    /// What a guard held is to be let go: the heap gives it back.
    Held(R),
}

/// What was handed in and not taken.
#[derive(Drop)]
pub struct Declined<R> {
    /// Why it was not.
    pub by: Refusal,
    /// It, given back.
    pub held: R,
}

/// What a job is about.
fn job_of<R: Drop>(action: ActionNo, work: Work, held: Option<R>) -> Job<R>
    requires { job_suits work held ≡ true }
    ensures { TellsWorkOf result action work held }
{
    match held {
        Some(held) => Job {
            action,
            what: What::Held(held),
        },
        None => match work {
            Work::Note(note) => Job {
                action,
                what: What::Note(note),
            },
            Work::Resource(_) => unreachable!(),
        },
    }
}

/// A job, or that there is none.
pub(crate) fn taken<R: Drop>(answer: &Answer, held: Option<R>) -> Result<Option<Job<R>>, Refusal>
    requires kind { is_told is_job_answer answer.now ≡ true }
    requires suits { suits answer.now held ≡ true }
    ensures { TellsTaken result answer.now held }
{
    match answer {
        Answer::Job { action, work } => Ok(Some(job_of(*action, *work, held))),
        Answer::AlreadyDone | Answer::Handed(_) => Ok(None),
        Answer::Refused(by) => Err(*by),
        _ => unreachable!(),
    }
}

/// What is lent.
pub(crate) fn lent<R: Drop>(answer: &Answer, held: Option<R>) -> Result<R, Refusal>
    requires kind { is_told is_lent answer.now ≡ true }
    requires suits { suits answer.now held ≡ true }
    ensures { TellsLent result answer.now held }
{
    match answer {
        Answer::Out(_) => match held {
            Some(held) => Ok(held),
            None => unreachable!(),
        },
        Answer::Refused(by) => Err(*by),
        _ => unreachable!(),
    }
}

/// What was declined, with what comes back.
pub(crate) fn given_back<R>(by: Refusal, back: Option<R>) -> Declined<R>
    requires { (came : R) × GoesBack (Some came) (answer.Refused by) back }
    ensures by { result.by ≡ by }
    ensures held { back ≡ Some result.held }
{
    match back {
        Some(held) => Declined { by, held },
        None => unreachable!(),
    }
}
