//! How an answer is told.
ghost use Rattle.std.specs.Prelude.{◌≡◌, ◌≤◌, false, length, true};
ghost use Rattle.jlr_types.specs.Numbers.{number_of};
ghost use Rattle.jlr_embed.specs.Kinds.{is_stat, is_faults, is_handle, is_integer, is_job_answer, is_names, is_notes};
ghost use Rattle.jlr_embed.specs.Kinds.{is_lent};
ghost use Rattle.jlr_embed.specs.Kinds.{is_told, is_truth, job_suits, suits};
ghost use Rattle.jlr_machine.specs.Refusals.{is_refusal};
ghost use Rattle.jlr_embed.specs.Tells.{TellsCounts, TellsEnd, TellsFault, TellsHanded, TellsHandle, TellsInteger};
ghost use Rattle.jlr_embed.specs.Tells.{TellsJob, TellsName, TellsNote, TellsProgress, TellsToken, TellsTruth};
ghost use Rattle.jlr_embed.specs.Tells.{TellsWork, fault_status, fault_numbered, holds_memory};
ghost use Rattle.jlr_embed.specs.Tells.{outcome_numbered, padded};

use crate::handle::out::{Counts, Failed, Taken};
use crate::handle::status::IDLE;
use jlr_machine::ask::{Answer, Handed, Outcome};
use jlr_types::{ActionNo, Fault, Progress, Refusal, Work};
use std::mem;

/// How a call ended. The answer holds no memory, so that nothing is lost where it is not let go.
#[inline(always)]
pub(crate) fn end(answer: Answer) -> u32
    requires { holds_memory answer ≡ false }
    ensures { TellsEnd result answer }
{
    match answer {
        Answer::Refused(by) => refused(by),
        other => {
            mem::forget(other);
            0
        }
    }
}

/// The number of a refusal. It stands apart, so that a call that is not refused does not work it out.
#[inline(never)]
fn refused(by: Refusal) -> u32
    ensures { result ≡ number_of by }
{
    u32::from(by.number())
}

/// The number of the refusal that an answer is.
#[inline(never)]
fn refusal(answer: Answer) -> u32
    requires { is_refusal answer ≡ true }
    ensures { TellsEnd result answer }
{
    match answer {
        Answer::Refused(by) => refused(by),
        _ => unreachable!(),
    }
}

/// A handle.
#[inline(always)]
pub(crate) fn handle(answer: Answer, out: &mut u8) -> u32
    requires { is_told is_handle answer ≡ true }
    ensures { TellsHandle result out.old out.new answer }
{
    match answer {
        Answer::Handle(handle) => {
            *out = handle.number();
            0
        }
        other => refusal(other),
    }
}

/// A truth.
#[inline(always)]
pub(crate) fn truth(answer: &Answer, out: &mut bool) -> u32
    requires { is_told is_truth answer.now ≡ true }
    ensures { TellsTruth result out.old out.new answer.now }
{
    match answer {
        Answer::Truth(holds) => {
            *out = *holds;
            0
        }
        Answer::Refused(by) => u32::from(by.number()),
        _ => unreachable!(),
    }
}

/// An integer.
#[inline(always)]
pub(crate) fn integer(answer: &Answer, out: &mut i64) -> u32
    requires { is_told is_integer answer.now ≡ true }
    ensures { TellsInteger result out.old out.new answer.now }
{
    match answer {
        Answer::Int(number) => {
            *out = *number;
            0
        }
        Answer::Refused(by) => u32::from(by.number()),
        _ => unreachable!(),
    }
}

/// Counts.
pub(crate) fn counts(answer: &Answer, out: &mut Counts) -> u32
    requires { is_told is_stat answer.now ≡ true }
    ensures { TellsCounts result out.old out.new answer.now }
{
    match answer {
        Answer::Stat(stat) => {
            *out = Counts {
                objects: stat.objects,
                resources: stat.resources,
                taken: stat.taken,
                ok: stat.ok,
                failed: stat.failed,
            };
            0
        }
        Answer::Refused(by) => u32::from(by.number()),
        _ => unreachable!(),
    }
}

/// What a step of the handler came to.
#[inline(always)]
pub(crate) fn handed(what: Handed) -> u32
    ensures { TellsHanded result what }
{
    match what {
        Handed::Nothing => IDLE,
        Handed::Queued | Handed::Lined | Handed::Skipped => 0,
    }
}

/// How far a piece of marking came.
pub(crate) fn progress(came: Progress, done: &mut bool) -> u32
    ensures { TellsProgress result done.old done.new came }
{
    match came {
        Progress::More => {
            *done = false;
            0
        }
        Progress::Done => {
            *done = true;
            0
        }
        Progress::Idle => IDLE,
    }
}

/// A job, with the token that goes out with it.
pub(crate) fn job(answer: &Answer, token: Option<u64>, out: &mut Taken) -> u32
    requires kind { is_told is_job_answer answer.now ≡ true }
    requires suits { suits answer.now token ≡ true }
    ensures { TellsJob result out.old out.new answer.now token }
{
    match answer {
        Answer::Job { action, work } => taken(*action, *work, token, out),
        Answer::AlreadyDone | Answer::Handed(_) => IDLE,
        Answer::Refused(by) => u32::from(by.number()),
        _ => unreachable!(),
    }
}

/// What a job is about.
fn taken(action: ActionNo, work: Work, token: Option<u64>, out: &mut Taken) -> u32
    requires { job_suits work token ≡ true }
    ensures { TellsWork result out.new action work token }
{
    let action = action.number();
    *out = match (token, work) {
        (Some(token), _) => Taken {
            action,
            value: token,
            is_token: true,
        },
        (None, Work::Note(note)) => Taken {
            action,
            value: u64::from(note),
            is_token: false,
        },
        (None, Work::Resource(_)) => unreachable!(),
    };
    0
}

/// The token that goes out for a call.
pub(crate) fn token(answer: &Answer, token: Option<u64>, out: &mut u64) -> u32
    requires kind { is_told is_lent answer.now ≡ true }
    requires suits { suits answer.now token ≡ true }
    ensures { TellsToken result out.old out.new answer.now token }
{
    match answer {
        Answer::Out(_) => match token {
            Some(held) => {
                *out = held;
                0
            }
            None => unreachable!(),
        },
        Answer::Refused(by) => u32::from(by.number()),
        _ => unreachable!(),
    }
}

/// The name of this index.
pub(crate) fn name(answer: &Answer, index: usize, out: &mut [u8; 33]) -> u32
    requires { is_told is_names answer.now ≡ true }
    ensures { TellsName result out.old out.new index answer.now }
{
    match answer {
        Answer::Names(names) => match names.as_slice().get(index) {
            Some(name) => {
                pad(name.as_slice(), out);
                0
            }
            None => IDLE,
        },
        Answer::Refused(by) => u32::from(by.number()),
        _ => unreachable!(),
    }
}

/// Writes a name, and zeros behind it.
fn pad(name: &[u8], out: &mut [u8; 33])
    requires { length name.now ≤ 32 }
    ensures { out.new ≡ padded name.now }
{
    *out = [0; 33];
    out[..name.len()].copy_from_slice(name);
}

/// The note of this index.
pub(crate) fn note(answer: &Answer, index: usize, out: &mut u32) -> u32
    requires { is_told is_notes answer.now ≡ true }
    ensures { TellsNote result out.old out.new index answer.now }
{
    match answer {
        Answer::Notes(notes) => match notes.as_slice().get(index) {
            Some(note) => {
                *out = *note;
                0
            }
            None => IDLE,
        },
        Answer::Refused(by) => u32::from(by.number()),
        _ => unreachable!(),
    }
}

/// The failure of this index.
pub(crate) fn failure(answer: &Answer, index: usize, out: &mut Failed) -> u32
    requires { is_told is_faults answer.now ≡ true }
    ensures { TellsFault result out.old out.new index answer.now }
{
    match answer {
        Answer::Faults(faults) => match faults.as_slice().get(index) {
            Some(failure) => {
                *out = Failed {
                    action: failure.action.number(),
                    fault: number_of(failure.fault),
                };
                0
            }
            None => IDLE,
        },
        Answer::Refused(by) => u32::from(by.number()),
        _ => unreachable!(),
    }
}

/// The number of a fault.
fn number_of(fault: Fault) -> u32
    ensures { result ≡ fault_status fault }
{
    match fault {
        Fault::NotFound => 1,
        Fault::Denied => 2,
        Fault::Other => 3,
    }
}

/// The fault of a number, 1 to 3.
pub fn fault(number: u32) -> Option<Fault>
    ensures { result ≡ fault_numbered number }
{
    match number {
        1 => Some(Fault::NotFound),
        2 => Some(Fault::Denied),
        3 => Some(Fault::Other),
        _ => None,
    }
}

/// How something ended: well, by 0, or by the fault of a number, 1 to 3.
pub fn outcome(number: u32) -> Option<Outcome>
    ensures { result ≡ outcome_numbered number }
{
    if number == 0 {
        return Some(Outcome::Ok);
    }
    match fault(number) {
        Some(fault) => Some(Outcome::Failed(fault)),
        None => None,
    }
}
