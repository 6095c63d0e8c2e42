//! Which answer is due.
ghost use Rattle.std.specs.Prelude.{◌≡◌, IfSome, true};
ghost use Rattle.jlr_laws.specs.Same.{same_answer};
ghost use Rattle.jlr_machine.specs.Objects.{some_and};
ghost use Rattle.jlr_machine.specs.Calls.{reply};

use jlr_machine::ask::{Answer, Ask, Handed};
use jlr_machine::machine::Machine;
use jlr_plain_asks::answers::replies::is_reply;
use jlr_plain_asks::lookups::named_field;
use jlr_types::{Fault, FieldValue, Handle};

/// The last handle.
const LAST_HANDLE: u8 = 250;

/// The answer, if it is the one that an ask gets.
fn if_reply(machine: &Machine, ask: &Ask, answer: Answer) -> Option<Answer>
    ensures { IfSome result (λ a. some_and (same_answer a) (reply machine.now ask.now) ≡ true) }
{
    let is_due = is_reply(machine, ask, &answer);
    if is_due {
        return Some(answer);
    }
    drop(answer);
    None
}

/// The handle that is due, or null.
fn due_handle(machine: &Machine, ask: &Ask) -> Option<Answer>
    ensures { IfSome result (λ a. some_and (same_answer a) (reply machine.now ask.now) ≡ true) }
{
    for number in 0..=LAST_HANDLE {
        let due = if_reply(machine, ask, Answer::Handle(Handle::new(number)));
        if due.is_some() {
            return due;
        }
        drop(due);
    }
    None
}

/// The integer that is due.
fn due_integer(machine: &Machine, ask: &Ask) -> Option<Answer>
    ensures { IfSome result (λ a. some_and (same_answer a) (reply machine.now ask.now) ≡ true) }
{
    let Ask::Int {
        mutator,
        object,
        field,
    } = ask
    else {
        return None;
    };
    match named_field(machine, *mutator, *object, *field) {
        Some(FieldValue::Int(value)) => if_reply(machine, ask, Answer::Int(value)),
        _ => None,
    }
}

/// An answer of few words that is due: that an ask was carried out, or before; yes, no; a fault; or what a step of the
/// handler did.
fn due_word(machine: &Machine, ask: &Ask, number: u8) -> Option<Answer>
    ensures { IfSome result (λ a. some_and (same_answer a) (reply machine.now ask.now) ≡ true) }
{
    let answer = match number {
        0 => Answer::Done,
        1 => Answer::AlreadyDone,
        2 => Answer::Truth(true),
        3 => Answer::Truth(false),
        4 => Answer::Faulted(Fault::NotFound),
        5 => Answer::Faulted(Fault::Denied),
        6 => Answer::Faulted(Fault::Other),
        7 => Answer::Handed(Handed::Queued),
        8 => Answer::Handed(Handed::Lined),
        9 => Answer::Handed(Handed::Skipped),
        _ => Answer::Handed(Handed::Nothing),
    };
    if_reply(machine, ask, answer)
}

fn due_words(machine: &Machine, ask: &Ask) -> Option<Answer>
    ensures { IfSome result (λ a. some_and (same_answer a) (reply machine.now ask.now) ≡ true) }
{
    for number in 0..11u8 {
        let due = due_word(machine, ask, number);
        if due.is_some() {
            return due;
        }
        drop(due);
    }
    None
}

/// The answer that an ask gets, unless it is a list, counts, bytes or a resource.
pub(crate) fn due_answer(machine: &Machine, ask: &Ask) -> Option<Answer>
    ensures { IfSome result (λ a. some_and (same_answer a) (reply machine.now ask.now) ≡ true) }
{
    if let Ask::Int { .. } = ask {
        return due_integer(machine, ask);
    }
    let word = due_words(machine, ask);
    if word.is_some() {
        return word;
    }
    drop(word);
    due_handle(machine, ask)
}
