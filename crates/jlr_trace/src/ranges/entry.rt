//! Asks, answers, choices and entries.
ghost use Rattle.std.specs.Prelude.{◌<◌, ◌≤◌, IfSome, length};
ghost use Rattle.jlr_machine.specs.Refusals.{asker};
ghost use Rattle.jlr_trace_fields.specs.declared.version.Version.TheVariants.{Two};
ghost use Rattle.jlr_trace_fields.specs.Spelling.{IsBytes, IsText};
ghost use Rattle.jlr_trace_entries.specs.Asks.{AskFits, CallOutcomeFits};
ghost use Rattle.jlr_trace_entries.specs.Answers.{StatFits};
ghost use Rattle.jlr_trace_entries.specs.Entries.{made_entry};
ghost use Rattle.jlr_trace.specs.Ranges.{AnswerRange, ChoiceRange, CollectedRange, EntryRange};

use crate::ranges::list::{Ranged, all_in_range};
use crate::ranges::object::work_in_range;
use jlr_machine::ask::{Answer, Ask, CallOutcome, Stat};
use jlr_machine::data::Data;
use jlr_machine::entry::Chosen;
use jlr_types::{Handle, Layout, Mutator};

// ---- Asks

fn mutator_in_range(mutator: Mutator)
    ensures { mutator < 256 }
{
    let _mutator = mutator.number();
}

fn handle_in_range(handle: Handle)
    ensures { handle < 256 }
{
    let _handle = handle.number();
}

/// An ask on an object.
fn on_object(mutator: Mutator, object: Handle)
    ensures mutator { mutator < 256 }
    ensures object { object < 256 }
{
    mutator_in_range(mutator);
    handle_in_range(object);
}

/// An ask on two objects.
fn on_two(mutator: Mutator, left: Handle, right: Handle)
    ensures mutator { mutator < 256 }
    ensures left { left < 256 }
    ensures right { right < 256 }
{
    on_object(mutator, left);
    handle_in_range(right);
}

fn bytes_in_range(bytes: &[u8])
    ensures { IsBytes bytes.now }
{}

fn data_in_range(text: &Data)
    ensures { IsText 0 200 text.now }
{
    bytes_in_range(text.as_slice());
}

fn call_outcome_in_range(outcome: &CallOutcome)
    ensures { CallOutcomeFits outcome.now }
{
    match outcome {
        CallOutcome::Data(data) => data_in_range(data),
        CallOutcome::Wrote(count) => {
            let _count = count.number();
        }
        CallOutcome::Failed(_) => {}
    }
}

fn new_in_range(mutator: Mutator, layout: &Layout)
    ensures mutator { mutator < 256 }
    ensures layout { length layout.now ≤ 8 }
{
    mutator_in_range(mutator);
    let _len = layout.len();
}

/// An ask that names nothing but its mutator.
fn asker_in_range(ask: &Ask)
    ensures { IfSome (asker ask.now) (λ mutator. mutator < 256) }
{
    if let Some(mutator) = ask.asker() {
        mutator_in_range(mutator);
    }
}

fn ask_in_range(ask: &Ask)
    ensures { AskFits Two ask.now }
{
    match ask {
        Ask::New { mutator, layout } => new_in_range(*mutator, layout),
        Ask::Put {
            mutator,
            object,
            field,
            value,
        } => {
            on_two(*mutator, *object, *value);
            let _field = field.number();
        }
        Ask::Get {
            mutator,
            object,
            field,
        }
        | Ask::Int {
            mutator,
            object,
            field,
        } => {
            on_object(*mutator, *object);
            let _field = field.number();
        }
        Ask::SetInt {
            mutator,
            object,
            field,
            value,
        } => {
            on_object(*mutator, *object);
            let _field = field.number();
            let _value = *value;
        }
        Ask::Dup { mutator, object } | Ask::Drop { mutator, object } => on_object(
            *mutator, *object,
        ),
        Ask::Same {
            mutator,
            left,
            right,
        } => on_two(*mutator, *left, *right),
        Ask::MakeRef {
            mutator,
            kind: _,
            referent,
            queue,
        } => on_two(*mutator, *referent, *queue),
        Ask::Refers {
            mutator,
            reference,
            object,
        } => on_two(*mutator, *reference, *object),
        Ask::Deref { mutator, reference }
        | Ask::Clear { mutator, reference }
        | Ask::Enqueue { mutator, reference }
        | Ask::Enqueued { mutator, reference } => on_object(*mutator, *reference),
        Ask::Poll { mutator, queue } | Ask::Remove { mutator, queue } => on_object(
            *mutator, *queue,
        ),
        Ask::Register {
            mutator,
            cleaner,
            object,
            note,
        } => {
            on_two(*mutator, *cleaner, *object);
            let _note = *note;
        }
        Ask::Clean { mutator, cleanable } => on_object(*mutator, *cleanable),
        Ask::CheckOut { mutator, guard } | Ask::Close { mutator, guard } => on_object(
            *mutator, *guard,
        ),
        Ask::CheckIn { mutator, outcome } => {
            mutator_in_range(*mutator);
            call_outcome_in_range(outcome);
        }
        Ask::Finish {
            by,
            action,
            outcome: _,
        } => {
            let _by = *by;
            let _action = action.number();
        }
        Ask::Bind {
            mutator,
            name,
            object,
        } => {
            on_object(*mutator, *object);
            name.in_range();
        }
        Ask::Find { mutator, name } | Ask::Unbind { mutator, name } => {
            mutator_in_range(*mutator);
            name.in_range();
        }
        Ask::Array { mutator, length } => {
            mutator_in_range(*mutator);
            let _length = length.number();
        }
        _ => asker_in_range(ask),
    }
}

// ---- Answers

fn stat_in_range(stat: &Stat)
    ensures { StatFits stat.now }
{
    let _objects = stat.objects;
    let _resources = stat.resources;
    let _taken = stat.taken;
    let _ok = stat.ok;
    let _failed = stat.failed;
}

fn answer_in_range(answer: &Answer)
    ensures { AnswerRange answer.now }
{
    match answer {
        Answer::Done => {}
        Answer::Handle(handle) => handle_in_range(*handle),
        Answer::Truth(_) => {}
        Answer::Int(number) => {
            let _number = *number;
        }
        Answer::Data(data) => data_in_range(data),
        Answer::Wrote(count) => {
            let _count = count.number();
        }
        Answer::Faulted(_) => {}
        Answer::Names(names) => all_in_range(names.as_slice()),
        Answer::Notes(notes) => all_in_range(notes.as_slice()),
        Answer::Faults(failures) => all_in_range(failures.as_slice()),
        Answer::Stat(stat) => stat_in_range(stat),
        Answer::Job { action, work } => {
            let _action = action.number();
            work_in_range(*work);
        }
        Answer::AlreadyDone => {}
        Answer::Prepared(rid) => {
            let _rid = rid.number();
        }
        Answer::Out(rid) => {
            let _rid = rid.number();
        }
        Answer::Handed(_) => {}
        Answer::Refused(_) => {}
    }
}

// ---- Choices

fn collected_in_range(choice: &Chosen)
    ensures { CollectedRange choice.now.collected }
{
    if let Some(collected) = choice.collected() {
        collected.kept.in_range();
        all_in_range(collected.pending.as_slice());
    }
}

fn choice_in_range(choice: &Chosen)
    ensures { ChoiceRange choice.now }
{
    collected_in_range(choice);
    all_in_range(choice.fresh().as_slice());
}

/// What their types say of the parts of an entry: its seat, its ask, its answer, and what was chosen.
pub fn parts_in_range(seat: u8, ask: &Ask, answer: &Answer, choice: &Chosen)
    ensures { EntryRange (made_entry seat ask.now answer.now choice.now) }
{
    let _seat = seat;
    ask_in_range(ask);
    answer_in_range(answer);
    choice_in_range(choice);
}
