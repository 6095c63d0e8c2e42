//! Whether an answer is this one.
ghost use Rattle.std.specs.Prelude.{◌≡◌, bytes_eq};
ghost use Rattle.jlr_types.specs.declared.Work.TheVariants.{Note, Resource};
ghost use Rattle.std.specs.Cmp.Lexicographic.{pointwise};
ghost use Rattle.jlr_machine.specs.declared.ask.Answer.TheVariants.{Done, Handle, Truth, Int, Data, Wrote, Faulted};
ghost use Rattle.jlr_machine.specs.declared.ask.Answer.TheVariants.{Names, Notes, Faults, Stat as StatAnswer, Job};
ghost use Rattle.jlr_machine.specs.declared.ask.Answer.TheVariants.{AlreadyDone, Out, Handed as HandedAnswer, Refused};
ghost use Rattle.jlr_machine.specs.Calls.{call_answer};
ghost use Rattle.jlr_laws.specs.Same.{same_answer, same_truth, same_fault, same_work, same_handed, same_failure};
ghost use Rattle.jlr_laws.specs.Same.{same_stat};
ghost use Rattle.jlr_machine.specs.Lookups.{bound_names};

use jlr_machine::ask::{Answer, CallOutcome, Handed, Stat};
use jlr_machine::machine::{Binding, Failure};
use jlr_machine::text::Name;
use jlr_types::{ActionNo, Fault, Refusal, Rid, Work};

fn truths_agree(left: bool, right: bool) -> bool
    ensures { result ≡ same_truth left right }
{
    if left { right } else { !right }
}

fn faults_agree(left: Fault, right: Fault) -> bool
    ensures { result ≡ same_fault left right }
{
    match left {
        Fault::NotFound => matches!(right, Fault::NotFound),
        Fault::Denied => matches!(right, Fault::Denied),
        Fault::Other => matches!(right, Fault::Other),
    }
}

fn is_note(work: Work, note: u32) -> bool
    ensures { result ≡ same_work work (Note note) }
{
    match work {
        Work::Note(x) => x == note,
        Work::Resource(_) => false,
    }
}

fn is_work_on(work: Work, rid: Rid) -> bool
    ensures { result ≡ same_work work (Resource rid) }
{
    match work {
        Work::Note(_) => false,
        Work::Resource(x) => x.number() == rid.number(),
    }
}

fn works_agree(left: Work, right: Work) -> bool
    ensures { result ≡ same_work left right }
{
    match right {
        Work::Note(note) => is_note(left, note),
        Work::Resource(rid) => is_work_on(left, rid),
    }
}

fn steps_agree(left: Handed, right: Handed) -> bool
    ensures { result ≡ same_handed left right }
{
    match left {
        Handed::Queued => matches!(right, Handed::Queued),
        Handed::Lined => matches!(right, Handed::Lined),
        Handed::Skipped => matches!(right, Handed::Skipped),
        Handed::Nothing => matches!(right, Handed::Nothing),
    }
}

fn failures_agree(left: &Failure, right: &Failure) -> bool
    ensures { result ≡ same_failure left.now right.now }
{
    left.action.number() == right.action.number() && faults_agree(left.fault, right.fault)
}

fn all_failures_agree(left: &[Failure], right: &[Failure]) -> bool
    ensures { result ≡ pointwise same_failure left.now right.now }
{
    if left.len() != right.len() {
        return false;
    }
    for i in 0..left.len() {
        if !failures_agree(&left[i], &right[i]) {
            return false;
        }
    }
    true
}

fn counts_agree(left: Stat, right: Stat) -> bool
    ensures { result ≡ same_stat left right }
{
    left.objects == right.objects
        && left.resources == right.resources
        && left.taken == right.taken
        && left.ok == right.ok
        && left.failed == right.failed
}

fn texts_agree(left: &[u8], right: &[u8]) -> bool
    ensures { result ≡ bytes_eq left.now right.now }
{
    left == right
}

fn notes_agree(left: &[u32], right: &[u32]) -> bool
    ensures { result ≡ bytes_eq left.now right.now }
{
    left == right
}

fn all_names_agree(left: &[Name], right: &[Binding]) -> bool
    ensures { result ≡ pointwise bytes_eq left.now (bound_names right.now) }
{
    if left.len() != right.len() {
        return false;
    }
    for i in 0..left.len() {
        if !texts_agree(left[i].as_slice(), right[i].name.as_slice()) {
            return false;
        }
    }
    true
}

pub(crate) fn is_done(answer: &Answer) -> bool
    ensures { result ≡ same_answer answer.now Done }
{
    match answer {
        Answer::Done => true,
        _ => false,
    }
}

pub fn is_handle(answer: &Answer, handle: usize) -> bool
    ensures { result ≡ same_answer answer.now (Handle handle) }
{
    match answer {
        Answer::Handle(x) => x.number() as usize == handle,
        _ => false,
    }
}

pub fn is_truth(answer: &Answer, truth: bool) -> bool
    ensures { result ≡ same_answer answer.now (Truth truth) }
{
    match answer {
        Answer::Truth(x) => truths_agree(*x, truth),
        _ => false,
    }
}

pub fn is_int(answer: &Answer, value: i64) -> bool
    ensures { result ≡ same_answer answer.now (Int value) }
{
    match answer {
        Answer::Int(x) => *x == value,
        _ => false,
    }
}

fn is_data(answer: &Answer, bytes: &[u8]) -> bool
    ensures { result ≡ same_answer answer.now (Data bytes.now) }
{
    match answer {
        Answer::Data(x) => texts_agree(x.as_slice(), bytes),
        _ => false,
    }
}

fn is_wrote(answer: &Answer, count: u8) -> bool
    ensures { result ≡ same_answer answer.now (Wrote count) }
{
    match answer {
        Answer::Wrote(x) => x.number() == count,
        _ => false,
    }
}

pub fn is_faulted(answer: &Answer, fault: Fault) -> bool
    ensures { result ≡ same_answer answer.now (Faulted fault) }
{
    match answer {
        Answer::Faulted(x) => faults_agree(*x, fault),
        _ => false,
    }
}

/// Whether it says how a call on a resource ended.
pub(crate) fn is_outcome(answer: &Answer, outcome: &CallOutcome) -> bool
    ensures { result ≡ same_answer answer.now (call_answer outcome.now) }
{
    match outcome {
        CallOutcome::Data(bytes) => is_data(answer, bytes.as_slice()),
        CallOutcome::Wrote(count) => is_wrote(answer, count.number()),
        CallOutcome::Failed(fault) => is_faulted(answer, *fault),
    }
}

pub fn is_names(answer: &Answer, names: &[Binding]) -> bool
    ensures { result ≡ same_answer answer.now (Names (bound_names names.now)) }
{
    match answer {
        Answer::Names(x) => all_names_agree(x.as_slice(), names),
        _ => false,
    }
}

pub fn is_notes(answer: &Answer, notes: &[u32]) -> bool
    ensures { result ≡ same_answer answer.now (Notes notes.now) }
{
    match answer {
        Answer::Notes(x) => notes_agree(x.as_slice(), notes),
        _ => false,
    }
}

pub fn is_faults(answer: &Answer, faults: &[Failure]) -> bool
    ensures { result ≡ same_answer answer.now (Faults faults.now) }
{
    match answer {
        Answer::Faults(x) => all_failures_agree(x.as_slice(), faults),
        _ => false,
    }
}

pub fn is_stat(answer: &Answer, stat: Stat) -> bool
    ensures { result ≡ same_answer answer.now (StatAnswer stat) }
{
    match answer {
        Answer::Stat(x) => counts_agree(*x, stat),
        _ => false,
    }
}

pub fn is_job(answer: &Answer, action: ActionNo, work: Work) -> bool
    ensures { result ≡ same_answer answer.now (Job action work) }
{
    match answer {
        Answer::Job { action: x, work: y } => x.number() == action.number()
            && works_agree(*y, work),
        _ => false,
    }
}

pub(crate) fn is_already_done(answer: &Answer) -> bool
    ensures { result ≡ same_answer answer.now AlreadyDone }
{
    match answer {
        Answer::AlreadyDone => true,
        _ => false,
    }
}

pub(crate) fn is_given_out(answer: &Answer, rid: Rid) -> bool
    ensures { result ≡ same_answer answer.now (Out rid) }
{
    match answer {
        Answer::Out(x) => x.number() == rid.number(),
        _ => false,
    }
}

pub fn is_handed(answer: &Answer, handed: Handed) -> bool
    ensures { result ≡ same_answer answer.now (HandedAnswer handed) }
{
    match answer {
        Answer::Handed(x) => steps_agree(*x, handed),
        _ => false,
    }
}

pub fn is_refused_by(answer: &Answer, by: Refusal) -> bool
    ensures { result ≡ same_answer answer.now (Refused by) }
{
    match answer {
        Answer::Refused(x) => x.number() == by.number(),
        _ => false,
    }
}
