//! Entries as a history keeps them: without the answers that take much room and that the machine gives once more.
ghost use Rattle.std.specs.Prelude.{◌≡◌, cond};
ghost use Rattle.jlr_machine.specs.declared.ask.Answer.TheVariants.{Done};
ghost use Rattle.jlr_plain.specs.declared.record.ShortAnswer.TheVariants.{Counted, Replayed};
ghost use Rattle.jlr_plain.specs.Records.{answer_from, has_short_count, number_told, record_of, short_of};

use jlr_machine::ask::{Answer, Ask, Handed};
use jlr_machine::entry::Chosen;
use jlr_machine::text::WriteCount;
use jlr_types::{Fault, Handle, Refusal, Rid};

/// An answer that takes a byte at most, or none where it is replayed. A number stands beside it.
#[derive(Clone, Copy, PartialEq, Eq, Debug)]
pub enum ShortAnswer {
    Done,
    Handle(Handle),
    Truth(bool),
    Wrote(WriteCount),
    Faulted(Fault),
    AlreadyDone,
    Prepared,
    Handed(Handed),
    Refused(Refusal),
    /// Counts: the machine gives them once more, but for the objects, whose number stands beside it.
    Counted,
    /// A number, a list, a job, a resource, or what was read: the machine gives it once more.
    Replayed,
}

/// An entry without the answer that is replayed, in 64 bytes.
pub struct Record {
    /// The seat that asked.
    pub seat: u8,
    pub answer: ShortAnswer,
    /// The Rid of a `Prepared`, the objects of a `Counted`, else 0.
    pub number: u32,
    pub ask: Ask,
    pub choice: Chosen,
}

// By hand: each exit of a caller then has one call, where a derived drop writes out every field.
impl Drop for Record {
    fn drop(self) {
        let Record {
            seat: _,
            answer: _,
            number: _,
            ask: _,
            choice: _,
        } = self;
    }
}

impl Record {
    /// The record of an entry. Takes no memory.
    #[inline(always)]
    pub fn new(seat: u8, ask: Ask, answer: &Answer, choice: Chosen) -> Self
        ensures { result ≡ record_of (record { seat = seat; ask = ask; answer = answer.now; choice = choice }) }
    {
        Record {
            seat,
            answer: short(answer),
            number: number(answer),
            ask,
            choice,
        }
    }
}

/// What is kept of an answer.
#[inline(always)]
fn short(answer: &Answer) -> ShortAnswer
    ensures { result ≡ short_of answer.now }
{
    match answer {
        Answer::Done => ShortAnswer::Done,
        Answer::Handle(handle) => ShortAnswer::Handle(*handle),
        Answer::Truth(truth) => ShortAnswer::Truth(*truth),
        Answer::Wrote(count) => ShortAnswer::Wrote(*count),
        Answer::Faulted(fault) => ShortAnswer::Faulted(*fault),
        Answer::AlreadyDone => ShortAnswer::AlreadyDone,
        Answer::Prepared(_) => ShortAnswer::Prepared,
        Answer::Handed(handed) => ShortAnswer::Handed(*handed),
        Answer::Refused(by) => ShortAnswer::Refused(*by),
        Answer::Stat(counts) => counted(counts.objects),
        _ => ShortAnswer::Replayed,
    }
}

fn has_short_count(objects: u64) -> bool
    ensures { result ≡ has_short_count objects }
{
    objects < 1 << 32
}

fn counted(objects: u64) -> ShortAnswer
    ensures { result ≡ cond (has_short_count objects) Counted Replayed }
{
    if has_short_count(objects) {
        ShortAnswer::Counted
    } else {
        ShortAnswer::Replayed
    }
}

/// The number that stands beside what is kept.
#[inline(always)]
fn number(answer: &Answer) -> u32
    ensures { result ≡ number_told answer.now }
{
    match answer {
        Answer::Prepared(rid) => rid.number(),
        Answer::Stat(counts) if has_short_count(counts.objects) => counts.objects as u32,
        _ => 0,
    }
}

/// An answer that changes the machine as that of the record does: `Done` in the place of one that is replayed.
pub(crate) fn stand_in(kept: &Record) -> Answer
    ensures { result ≡ answer_from Done kept.now.answer kept.now.number }
{
    match kept.answer {
        ShortAnswer::Done | ShortAnswer::Counted | ShortAnswer::Replayed => Answer::Done,
        ShortAnswer::Handle(handle) => Answer::Handle(handle),
        ShortAnswer::Truth(truth) => Answer::Truth(truth),
        ShortAnswer::Wrote(count) => Answer::Wrote(count),
        ShortAnswer::Faulted(fault) => Answer::Faulted(fault),
        ShortAnswer::AlreadyDone => Answer::AlreadyDone,
        ShortAnswer::Prepared => Answer::Prepared(Rid::new(kept.number)),
        ShortAnswer::Handed(handed) => Answer::Handed(handed),
        ShortAnswer::Refused(by) => Answer::Refused(by),
    }
}
