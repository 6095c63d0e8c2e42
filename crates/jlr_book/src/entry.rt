//! One step of the core, and the record of its entry behind the others.
ghost use Rattle.std.specs.Prelude.{◌≡◌, ◌≤◌, ◌<◌, ◌+◌, true, false, length, vec_len, vec_capacity, None, Some};
ghost use Rattle.jlr_machine.specs.Refusals.{is_end};
ghost use Rattle.jlr_event.specs.Asks.{hands_in};
ghost use Rattle.jlr_machine.specs.declared.ask.Answer.{Answer as AnswerOf};
ghost use Rattle.jlr_event.specs.Events.{answer_in, ask_of};
ghost use Rattle.jlr_steps.specs.Events.{take_up_answered};
ghost use Rattle.jlr_histories.specs.Collecting.{may_collect};
ghost use Rattle.jlr_histories.specs.Owing.{owed};
ghost use Rattle.jlr_steps.specs.Steps.{IsStep};
ghost use Rattle.jlr_book.specs.Kinds.{fits_fast_path};
ghost use Rattle.jlr_book.specs.Making.{SuitsChoice};
ghost use Rattle.jlr_book.specs.Writing.{AddsEnd, AddsRecord, Stands};
ghost use Rattle.jlr_machine.specs.Refusals.{is_refusal};

use crate::room::ChoiceRoom;
use jlr_cleaner::Job;
use jlr_event::event::{Event, Reply};
use jlr_machine::ask::{Answer, Ask, Handed};
use jlr_machine::choice::Choice;
use jlr_machine::entry::Chosen;
use jlr_plain::record::Record;
use jlr_steps::engine::Core;
use jlr_types::Refusal;

/// An ask that is no end: one entry, in a place that is there. The core is lent the ask.
#[inline(always)]
pub(crate) fn record<R: Drop>(
    core: &mut Core<R>,
    choice: &mut Choice,
    room: ChoiceRoom,
    trace: &mut Vec<Record>,
    seat: u8,
    ask: Ask,
) -> Reply<R>
    requires plain { hands_in ask ≡ false }
    requires place { vec_len trace.old < vec_capacity trace.old }
    requires stands { Stands core.old }
    requires choice { length core.old.machine.objects ≤ choice.old.cells }
    requires room { SuitsChoice core.old.machine (Some ask) room }
    ensures writes { AddsRecord seat core.old trace.old.items (Event.Ask ask) result core.new trace.new.items }
    ensures cells { length core.new.machine.objects ≡ length core.old.machine.objects }
    ensures room { vec_capacity trace.new ≡ vec_capacity trace.old }
    ensures choice { choice.new.cells ≡ choice.old.cells }
{
    match room {
        ChoiceRoom::Plain => record_plainly(core, choice, trace, seat, ask),
        ChoiceRoom::Collecting(own) => record_collecting(core, own, trace, seat, ask),
    }
}

/// An entry that needs its place alone, without a collection. The core is lent the ask, and a choice.
#[inline(always)]
pub(crate) fn record_in_place<R>(
    core: &mut Core<R>,
    lent: &mut Choice,
    trace: &mut Vec<Record>,
    seat: u8,
    ask: Ask,
) -> Answer
    requires brief { fits_fast_path ask ≡ true }
    requires place { vec_len trace.old < vec_capacity trace.old }
    requires stands { Stands core.old }
    requires choice { length core.old.machine.objects ≤ lent.old.cells }
    requires plain { may_collect core.old.machine (Some ask) ≡ false }
    ensures writes { AddsRecord seat core.old trace.old.items (Event.Ask ask) (Reply.Answered result None) core.new
        trace.new.items }
    ensures cells { length core.new.machine.objects ≡ length core.old.machine.objects }
    ensures room { vec_capacity trace.new ≡ vec_capacity trace.old }
    ensures choice { lent.new.cells ≡ lent.old.cells }
{
    let answer = core.answer(&ask, lent);
    let choice = Chosen::plain(lent.take_fresh());
    trace.push_reserved(Record::new(seat, ask, &answer, choice));
    answer
}

/// An entry without a collection. The core is lent a choice.
#[inline(always)]
pub(crate) fn record_plainly<R: Drop>(
    core: &mut Core<R>,
    lent: &mut Choice,
    trace: &mut Vec<Record>,
    seat: u8,
    ask: Ask,
) -> Reply<R>
    requires hands_in { hands_in ask ≡ false }
    requires place { vec_len trace.old < vec_capacity trace.old }
    requires stands { Stands core.old }
    requires choice { length core.old.machine.objects ≤ lent.old.cells }
    requires plain { may_collect core.old.machine (Some ask) ≡ false }
    ensures writes { AddsRecord seat core.old trace.old.items (Event.Ask ask) result core.new trace.new.items }
    ensures cells { length core.new.machine.objects ≡ length core.old.machine.objects }
    ensures room { vec_capacity trace.new ≡ vec_capacity trace.old }
    ensures choice { lent.new.cells ≡ lent.old.cells }
{
    let reply = core.step_ask(&ask, lent);
    let choice = Chosen::plain(lent.take_fresh());
    trace.push_reserved(Record::new(seat, ask, answer_of(&reply), choice));
    reply
}

/// An entry that may come with a collection. Its choice stays in it.
#[inline(never)]
fn record_collecting<R: Drop>(
    core: &mut Core<R>,
    own: Box<Choice>,
    trace: &mut Vec<Record>,
    seat: u8,
    ask: Ask,
) -> Reply<R>
    requires hands_in { hands_in ask ≡ false }
    requires place { vec_len trace.old < vec_capacity trace.old }
    requires stands { Stands core.old }
    requires choice { length core.old.machine.objects ≤ own.value.cells }
    ensures writes { AddsRecord seat core.old trace.old.items (Event.Ask ask) result core.new trace.new.items }
    ensures cells { length core.new.machine.objects ≡ length core.old.machine.objects }
    ensures room { vec_capacity trace.new ≡ vec_capacity trace.old }
{
    let mut own = Box::into_inner(own);
    let reply = core.step_ask(&ask, &mut own);
    trace.push_reserved(Record::new(seat, ask, answer_of(&reply), own.into_chosen()));
    reply
}

/// The end of a session or of a job: one entry, in the place that was kept for it, unless the core refuses it.
pub(crate) fn record_asked_end<R: Drop>(
    core: &mut Core<R>,
    choice: &mut Choice,
    trace: &mut Vec<Record>,
    seat: u8,
    ask: Ask,
) -> Reply<R>
    requires plain { hands_in ask ≡ false }
    requires end { is_end ask ≡ true }
    requires places { vec_len trace.old + owed core.old.machine ≤ vec_capacity trace.old }
    requires stands { Stands core.old }
    requires choice { length core.old.machine.objects ≤ choice.old.cells }
    ensures writes { AddsEnd seat core.old trace.old.items (Event.Ask ask) result core.new trace.new.items }
    ensures cells { length core.new.machine.objects ≡ length core.old.machine.objects }
    ensures room { vec_capacity trace.new ≡ vec_capacity trace.old }
    ensures choice { choice.new.cells ≡ choice.old.cells }
{
    match core.step_ask(&ask, choice) {
        Reply::Answered { answer, resource } => {
            if is_refused(&answer) {
                return Reply::Answered { answer, resource };
            }
            trace.push_reserved(Record::new(seat, ask, &answer, Chosen::nothing()));
            Reply::Answered { answer, resource }
        }
        Reply::Marked(progress) => Reply::Marked(progress),
    }
}

/// The end of an open or of a call: one entry, in the place that was kept for it, unless the core refuses it.
pub(crate) fn record_end<R: Drop>(
    core: &mut Core<R>,
    choice: &mut Choice,
    trace: &mut Vec<Record>,
    seat: u8,
    ask: Ask,
    event: Event<R>,
) -> Reply<R>
    requires ask { ask_of event ≡ Some ask }
    requires end { is_end ask ≡ true }
    requires places { vec_len trace.old + owed core.old.machine ≤ vec_capacity trace.old }
    requires stands { Stands core.old }
    requires choice { length core.old.machine.objects ≤ choice.old.cells }
    ensures writes { AddsEnd seat core.old trace.old.items event result core.new trace.new.items }
    ensures cells { length core.new.machine.objects ≡ length core.old.machine.objects }
    ensures room { vec_capacity trace.new ≡ vec_capacity trace.old }
    ensures choice { choice.new.cells ≡ choice.old.cells }
{
    match core.step(event, choice) {
        Reply::Answered { answer, resource } => {
            if is_refused(&answer) {
                return Reply::Answered { answer, resource };
            }
            trace.push_reserved(Record::new(seat, ask, &answer, Chosen::nothing()));
            Reply::Answered { answer, resource }
        }
        Reply::Marked(progress) => Reply::Marked(progress),
    }
}

/// The answer of a reply that has one.
#[inline(always)]
fn answer_of<R>(reply: &Reply<R>) -> &Answer
    requires { (answer : AnswerOf) × (answer_in reply.now ≡ Some answer) }
    ensures { answer_in reply.now ≡ Some result.now }
{
    match reply {
        Reply::Answered { answer, .. } => answer,
        Reply::Marked(_) => unreachable!(),
    }
}

/// Whether an answer is a refusal.
pub(crate) fn is_refused(answer: &Answer) -> bool
    ensures { result ≡ is_refusal answer.now }
{
    matches!(answer, Answer::Refused(_))
}

/// What a take-up by the cleaner is answered.
pub(crate) fn take_up_answer<R>(taken: &Result<Option<Job<R>>, Refusal>) -> Answer
    ensures { result ≡ take_up_answered taken.now }
{
    match taken {
        Ok(Some(job)) => Answer::Job {
            action: job.action,
            work: job.work,
        },
        Ok(None) => Answer::Handed(Handed::Nothing),
        Err(refusal) => Answer::Refused(*refusal),
    }
}
