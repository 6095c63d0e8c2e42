//! Which ask an event is.
ghost use Rattle.std.specs.Prelude.{◌≡◌, ◌≤◌, length, true, false, None, Some};
ghost use Rattle.jlr_machine.specs.Choices.{nothing_chosen};
ghost use Rattle.jlr_machine.specs.Run.{no_choice};
ghost use Rattle.jlr_machine.specs.WellFormed.{IsWellFormed};
ghost use Rattle.jlr_state.specs.State.{answer_of};
ghost use Rattle.jlr_state.specs.Machines.{machine_of};
ghost use Rattle.jlr_event.specs.Asks.{hands_in};
ghost use Rattle.jlr_event.specs.Events.{ask_of, answer_in, resource_of_reply};
ghost use Rattle.jlr_state.specs.Events.{StepsMachine, carries_none};
ghost use Rattle.jlr_steps.specs.Dispatch.{StepsState};
ghost use Rattle.jlr_state.specs.Marks.{AnswersPiece, budget_of};
ghost use Rattle.jlr_state.specs.TakeUps.{clean_answer, handed_out, take_up_answered};
ghost use Rattle.jlr_state.specs.Waiting.{AllWait};

use crate::{cleaning, counts, handles, names, objects, references};
use jlr_cleaner::Job;
use jlr_event::event::{Event, Reply};
use jlr_machine::ask::{Answer, Ask, Handed, Outcome};
use jlr_machine::choice::Choice;
use jlr_state::state::State;
use jlr_types::{ActionNo, Refusal};

/// One event.
#[tactic(auto, using(jlr_state::proofs::Shading::same_only))]
pub(crate) fn step<R>(state: &mut State<R>, event: Event<R>, choice: &mut Choice) -> Reply<R>
    requires fit { IsWellFormed (machine_of state.old) }
    requires waits { AllWait (machine_of state.old) state.old.cleaner.waiting }
    requires nothing { choice.old ≡ nothing_chosen choice.old.cells }
    requires room { length state.old.heap.graph.objects ≤ choice.old.cells }
    ensures entry { StepsMachine (machine_of state.old) state.old.heap.marking (ask_of event) (answer_in result)
        choice.new.chosen (machine_of state.new) }
    ensures rest { StepsState state.old event (answer_in result) choice.new.chosen
        (resource_of_reply result) state.new }
    ensures marking { AnswersPiece (budget_of event) state.old.soft_age state.old.heap.clock (machine_of state.old)
        state.old.heap.marking state.old.heap.condemned result state.new.heap.marking state.new.heap.condemned }
    ensures room { choice.new.cells ≡ choice.old.cells }
{
    match event {
        Event::Ask(ask) => step_ask(state, ask.get(), choice),
        Event::Opened { mutator, outcome } => state.opened(mutator, outcome),
        Event::CheckIn {
            mutator,
            outcome,
            resource,
        } => state.check_in(mutator, outcome, resource),
        Event::Mark { budget } => Reply::Marked(state.mark(budget)),
    }
}

/// One ask that hands in no resource. It is lent.
#[inline(always)]
#[tactic(auto, using(jlr_state::proofs::Shading::same_only))]
pub(crate) fn step_ask<R>(state: &mut State<R>, ask: &Ask, choice: &mut Choice) -> Reply<R>
    requires plain { hands_in ask.now ≡ false }
    requires fit { IsWellFormed (machine_of state.old) }
    requires waits { AllWait (machine_of state.old) state.old.cleaner.waiting }
    requires nothing { choice.old ≡ nothing_chosen choice.old.cells }
    requires room { length state.old.heap.graph.objects ≤ choice.old.cells }
    ensures entry { StepsMachine (machine_of state.old) state.old.heap.marking (Some ask.now)
        (answer_in result) choice.new.chosen (machine_of state.new) }
    ensures rest { StepsState state.old (Event.Ask ask.now) (answer_in result) choice.new.chosen
        (resource_of_reply result) state.new }
    ensures room { choice.new.cells ≡ choice.old.cells }
{
    match *ask {
        Ask::Clean { mutator, cleanable } => cleaned(cleaning::clean(state, mutator, cleanable)),
        Ask::CheckOut { mutator, guard } => state.check_out(mutator, guard),
        Ask::Close { mutator, guard } => cleaned(state.close(mutator, guard)),
        Ask::TakeUp => taken_up(cleaning::take_up(state)),
        _ => answered(step_plain(state, ask, choice)),
    }
}

/// The handler's step: what `step` does for `HandOver`, which chooses nothing. No event is moved for it, and no reply.
#[tactic(auto, using(jlr_state::proofs::Shading::same_only))]
pub(crate) fn step_handler<R>(state: &mut State<R>) -> Handed
    requires fit { IsWellFormed (machine_of state.old) }
    requires waits { AllWait (machine_of state.old) state.old.cleaner.waiting }
    ensures entry { StepsMachine (machine_of state.old) state.old.heap.marking (Some Ask.HandOver)
        (Some (Answer.Handed result)) no_choice (machine_of state.new) }
    ensures rest { StepsState state.old (Event.Ask Ask.HandOver) (Some (Answer.Handed result)) no_choice
        None state.new }
{
    references::hand_over(state)
}

/// The cleaner's step: what `step` does for `TakeUp`, which chooses nothing. The job goes out as it is.
#[tactic(auto, using(jlr_state::proofs::Shading::same_only))]
pub(crate) fn step_cleaner<R>(state: &mut State<R>) -> Result<Option<Job<R>>, Refusal>
    requires fit { IsWellFormed (machine_of state.old) }
    requires waits { AllWait (machine_of state.old) state.old.cleaner.waiting }
    ensures entry { StepsMachine (machine_of state.old) state.old.heap.marking (Some Ask.TakeUp)
        (Some (take_up_answered result)) no_choice (machine_of state.new) }
    ensures rest { StepsState state.old (Event.Ask Ask.TakeUp) (Some (take_up_answered result)) no_choice
        (handed_out result) state.new }
{
    cleaning::take_up(state)
}

/// The end of a job: what `step` does for `Finish`, which chooses nothing.
#[tactic(auto, using(jlr_state::proofs::Shading::same_only))]
pub(crate) fn step_finish<R>(
    state: &mut State<R>,
    by: u8,
    action: ActionNo,
    outcome: Outcome,
) -> Answer
    requires fit { IsWellFormed (machine_of state.old) }
    requires waits { AllWait (machine_of state.old) state.old.cleaner.waiting }
    ensures entry { StepsMachine (machine_of state.old) state.old.heap.marking (Some (Ask.Finish by action outcome))
        (Some result) no_choice (machine_of state.new) }
    ensures rest { StepsState state.old (Event.Ask (Ask.Finish by action outcome)) (Some result) no_choice
        None state.new }
{
    answer_to(cleaning::finish(state, by, action, outcome))
}

/// One ask of those that carry no resource, neither in nor out: what it is answered, or why it is refused. It is lent.
#[inline(never)]
#[tactic(auto, using(jlr_state::proofs::Shading::same_only))]
pub(crate) fn step_plain<R>(
    state: &mut State<R>,
    ask: &Ask,
    choice: &mut Choice,
) -> Result<Answer, Refusal>
    requires plain { carries_none ask.now ≡ true }
    requires fit { IsWellFormed (machine_of state.old) }
    requires waits { AllWait (machine_of state.old) state.old.cleaner.waiting }
    requires nothing { choice.old ≡ nothing_chosen choice.old.cells }
    requires room { length state.old.heap.graph.objects ≤ choice.old.cells }
    ensures entry { StepsMachine (machine_of state.old) state.old.heap.marking (Some ask.now)
        (Some (answer_of result)) choice.new.chosen (machine_of state.new) }
    ensures rest { StepsState state.old (Event.Ask ask.now) (Some (answer_of result)) choice.new.chosen
        None state.new }
    ensures room { choice.new.cells ≡ choice.old.cells }
{
    match *ask {
        Ask::Join { mutator } => handles::join(state, mutator),
        Ask::Leave { mutator } => handles::leave(state, mutator),
        Ask::New {
            mutator,
            ref layout,
        } => objects::new_object(state, mutator, layout.copy(), choice),
        Ask::Put {
            mutator,
            object,
            field,
            value,
        } => objects::put(state, mutator, object, field, value),
        Ask::Get {
            mutator,
            object,
            field,
        } => objects::get(state, mutator, object, field),
        Ask::SetInt {
            mutator,
            object,
            field,
            value,
        } => objects::set_int(state, mutator, object, field, value),
        Ask::Int {
            mutator,
            object,
            field,
        } => objects::int(state, mutator, object, field),
        Ask::Dup { mutator, object } => handles::dup(state, mutator, object),
        Ask::Drop { mutator, object } => handles::drop_handle(state, mutator, object),
        Ask::Same {
            mutator,
            left,
            right,
        } => handles::same(state, mutator, left, right),
        Ask::MakeRef {
            mutator,
            kind,
            referent,
            queue,
        } => references::make_reference(state, mutator, kind, referent, queue, choice),
        Ask::Deref { mutator, reference } => references::deref(state, mutator, reference),
        Ask::Refers {
            mutator,
            reference,
            object,
        } => references::refers(state, mutator, reference, object),
        Ask::Clear { mutator, reference } => references::clear(state, mutator, reference),
        Ask::Enqueue { mutator, reference } => references::enqueue(state, mutator, reference),
        Ask::Enqueued { mutator, reference } => references::enqueued(state, mutator, reference),
        Ask::MakeQueue { mutator } => references::make_queue(state, mutator, choice),
        Ask::Poll { mutator, queue } => references::poll(state, mutator, queue),
        Ask::HandOver => Ok(Answer::Handed(references::hand_over(state))),
        Ask::Remove { mutator, queue } => references::remove(state, mutator, queue),
        Ask::MakeCleaner { mutator } => cleaning::make_cleaner(state, mutator, choice),
        Ask::Register {
            mutator,
            cleaner,
            object,
            note,
        } => cleaning::register(state, mutator, cleaner, object, note, choice),
        Ask::Prepare { mutator } => state.prepare(mutator, choice),
        Ask::Finish {
            by,
            action,
            outcome,
        } => cleaning::finish(state, by, action, outcome),
        Ask::Bind {
            mutator,
            ref name,
            object,
        } => names::bind(state, mutator, name, object),
        Ask::Find { mutator, ref name } => names::find(state, mutator, name),
        Ask::Unbind { mutator, ref name } => names::unbind(state, mutator, name),
        Ask::Names { mutator } => names::names(state, mutator),
        Ask::Full { mutator, mode } => state.full(mutator, mode, choice),
        Ask::Stat { mutator } => counts::stat(state, mutator),
        Ask::Notes { mutator } => cleaning::notes(state, mutator),
        Ask::Faults { mutator } => cleaning::faults(state, mutator),
        Ask::Begin => Ok(Answer::Truth(state.begin())),
        Ask::Collect => Ok(Answer::Truth(state.collect_cycle(choice))),
        Ask::Abandon => Ok(Answer::Truth(state.abandon())),
        Ask::Array { mutator, length } => objects::new_array(state, mutator, length, choice),
        _ => unreachable!(),
    }
}

/// What an ask is answered.
#[inline(always)]
pub(crate) fn answer_to(outcome: Result<Answer, Refusal>) -> Answer
    ensures { result ≡ answer_of outcome }
{
    match outcome {
        Ok(answer) => answer,
        Err(refusal) => Answer::Refused(refusal),
    }
}

#[inline(always)]
fn answered<R>(outcome: Result<Answer, Refusal>) -> Reply<R>
    ensures { result ≡ Reply.Answered (answer_of outcome) None }
{
    Reply::Answered {
        answer: answer_to(outcome),
        resource: None,
    }
}

/// A take-up by a mutator. Without a job the action was taken up before.
fn cleaned<R>(outcome: Result<Option<Job<R>>, Refusal>) -> Reply<R>
    ensures { result ≡ Reply.Answered (clean_answer outcome) (handed_out outcome) }
{
    match outcome {
        Ok(Some(job)) => started(job),
        Ok(None) => answered(Ok(Answer::AlreadyDone)),
        Err(refusal) => answered(Err(refusal)),
    }
}

/// A take-up by the cleaner. Without a job no cleanable is Lined.
fn taken_up<R>(outcome: Result<Option<Job<R>>, Refusal>) -> Reply<R>
    ensures { result ≡ Reply.Answered (take_up_answered outcome) (handed_out outcome) }
{
    match outcome {
        Ok(Some(job)) => started(job),
        Ok(None) => answered(Ok(Answer::Handed(Handed::Nothing))),
        Err(refusal) => answered(Err(refusal)),
    }
}

fn started<R>(job: Job<R>) -> Reply<R>
    ensures { result ≡ Reply.Answered (Answer.Job job.action job.work) job.resource }
{
    let Job {
        action,
        work,
        resource,
    } = job;
    Reply::Answered {
        answer: Answer::Job { action, work },
        resource,
    }
}
