//! Asks and answers, written in words.
use jlr_machine::ask::{Answer, Ask, CallOutcome, FullMode, Outcome};
use jlr_types::{Fault, FieldKind, FieldNo, Handle, Layout, Mutator, RefKind};
use std::alloc::{AllocError, Global};

// The mutator by its number, a word, and the numbers behind it.
fn line(
    alloc: Global,
    name: &str,
    mutator: &Mutator,
    numbers: &[i64],
) -> Result<String, AllocError> {
    let mut text = format!(in alloc; "by {} {name}", mutator.number())?;
    for number in numbers {
        let word = format!(in alloc; " {number}")?;
        text.push_str(word.as_str())?;
    }
    Ok(text)
}

// The same with a word behind.
fn ended(alloc: Global, name: &str, mutator: &Mutator, last: &str) -> Result<String, AllocError> {
    let mut text = line(alloc, name, mutator, &[])?;
    text.push_str(" ")?;
    text.push_str(last)?;
    Ok(text)
}

/// The text with the resource that goes with it.
pub(super) fn with_resource(
    alloc: Global,
    text: String,
    resource: Option<u32>,
) -> Result<String, AllocError> {
    match resource {
        Some(number) => format!(in alloc; "{text} with {number}"),
        None => Ok(text),
    }
}

fn held(handle: &Handle) -> i64 {
    i64::from(handle.number())
}

fn numbered(field: FieldNo) -> i64 {
    i64::from(field.number())
}

fn kind(kind: &RefKind) -> &'static str {
    match kind {
        RefKind::Soft => "soft",
        RefKind::Weak => "weak",
        RefKind::Phantom => "phantom",
    }
}

fn fault(fault: &Fault) -> &'static str {
    match fault {
        Fault::NotFound => "NotFound",
        Fault::Denied => "Denied",
        Fault::Other => "Other",
    }
}

fn outcome(outcome: &Outcome) -> &'static str {
    match outcome {
        Outcome::Ok => "ok",
        Outcome::Failed(of) => fault(of),
    }
}

fn letters(alloc: Global, layout: &Layout) -> Result<String, AllocError> {
    let mut text = String::new(alloc);
    for place in 0..layout.len() {
        text.push_str(match layout.get(place) {
            Some(FieldKind::Ref) => "r",
            Some(FieldKind::Int) => "i",
            None => "-",
        })?;
    }
    Ok(text)
}

fn words_of(bytes: &[u8]) -> &str {
    str::from_utf8(bytes).unwrap_or("no text")
}

fn check_in(alloc: Global, mutator: &Mutator, how: &CallOutcome) -> Result<String, AllocError> {
    match how {
        CallOutcome::Data(bytes) => {
            ended(alloc, "check_in data", mutator, words_of(bytes.as_slice()))
        }
        CallOutcome::Wrote(count) => line(
            alloc,
            "check_in wrote",
            mutator,
            &[i64::from(count.number())],
        ),
        CallOutcome::Failed(of) => ended(alloc, "check_in failed", mutator, fault(of)),
    }
}

/// An ask in words.
pub(super) fn ask_text(alloc: Global, ask: &Ask) -> Result<String, AllocError> {
    match ask {
        Ask::Join { mutator } => line(alloc, "join", mutator, &[]),
        Ask::Leave { mutator } => line(alloc, "leave", mutator, &[]),
        Ask::New { mutator, layout } => {
            ended(alloc, "new", mutator, letters(alloc, layout)?.as_str())
        }
        Ask::Array { mutator, length } => line(
            alloc,
            "array",
            mutator,
            &[i64::from(length.number())],
        ),
        Ask::Put {
            mutator,
            object,
            field,
            value,
        } => line(
            alloc,
            "put",
            mutator,
            &[held(object), numbered(*field), held(value)],
        ),
        Ask::Get {
            mutator,
            object,
            field,
        } => line(alloc, "get", mutator, &[held(object), numbered(*field)]),
        Ask::SetInt {
            mutator,
            object,
            field,
            value,
        } => line(
            alloc,
            "set_int",
            mutator,
            &[held(object), numbered(*field), *value],
        ),
        Ask::Int {
            mutator,
            object,
            field,
        } => line(alloc, "int", mutator, &[held(object), numbered(*field)]),
        Ask::Dup { mutator, object } => line(alloc, "dup", mutator, &[held(object)]),
        Ask::Drop { mutator, object } => line(alloc, "drop", mutator, &[held(object)]),
        Ask::Same {
            mutator,
            left,
            right,
        } => line(alloc, "same", mutator, &[held(left), held(right)]),
        _ => reference_text(alloc, ask),
    }
}

fn reference_text(alloc: Global, ask: &Ask) -> Result<String, AllocError> {
    match ask {
        Ask::MakeRef {
            mutator,
            kind: of,
            referent,
            queue,
        } => line(alloc, kind(of), mutator, &[held(referent), held(queue)]),
        Ask::Deref { mutator, reference } => { line(alloc, "deref", mutator, &[held(reference)]) }
        Ask::Refers {
            mutator,
            reference,
            object,
        } => line(alloc, "refers", mutator, &[held(reference), held(object)]),
        Ask::Clear { mutator, reference } => { line(alloc, "clear", mutator, &[held(reference)]) }
        Ask::Enqueue { mutator, reference } => {
            line(alloc, "enqueue", mutator, &[held(reference)])
        }
        Ask::Enqueued { mutator, reference } => {
            line(alloc, "enqueued", mutator, &[held(reference)])
        }
        Ask::MakeQueue { mutator } => line(alloc, "queue", mutator, &[]),
        Ask::Poll { mutator, queue } => line(alloc, "poll", mutator, &[held(queue)]),
        Ask::Remove { mutator, queue } => line(alloc, "remove", mutator, &[held(queue)]),
        _ => cleaning_text(alloc, ask),
    }
}

fn cleaning_text(alloc: Global, ask: &Ask) -> Result<String, AllocError> {
    match ask {
        Ask::MakeCleaner { mutator } => line(alloc, "cleaner", mutator, &[]),
        Ask::Register {
            mutator,
            cleaner,
            object,
            note,
        } => line(
            alloc,
            "register",
            mutator,
            &[held(cleaner), held(object), i64::from(*note)],
        ),
        Ask::Clean { mutator, cleanable } => { line(alloc, "clean", mutator, &[held(cleanable)]) }
        Ask::Prepare { mutator } => line(alloc, "prepare", mutator, &[]),
        Ask::Opened {
            mutator,
            outcome: how,
        } => ended(alloc, "opened", mutator, outcome(how)),
        Ask::CheckOut { mutator, guard } => { line(alloc, "check_out", mutator, &[held(guard)]) }
        Ask::CheckIn {
            mutator,
            outcome: how,
        } => check_in(alloc, mutator, how),
        Ask::Close { mutator, guard } => line(alloc, "close", mutator, &[held(guard)]),
        Ask::Finish {
            by: taker,
            action,
            outcome: how,
        } => format!(in alloc; "finish {taker} {} {}", action.number(), outcome(how)),
        _ => heap_text(alloc, ask),
    }
}

fn heap_text(alloc: Global, ask: &Ask) -> Result<String, AllocError> {
    match ask {
        Ask::Bind {
            mutator,
            name,
            object,
        } => {
            let name = words_of(name.as_slice());
            format!(in alloc; "by {} bind {name} {}", mutator.number(), held(object))
        }
        Ask::Find { mutator, name } => { ended(alloc, "find", mutator, words_of(name.as_slice())) }
        Ask::Unbind { mutator, name } => {
            ended(alloc, "unbind", mutator, words_of(name.as_slice()))
        }
        Ask::Names { mutator } => line(alloc, "names", mutator, &[]),
        Ask::Full { mutator, mode } => match mode {
            FullMode::Policy => line(alloc, "full", mutator, &[]),
            FullMode::ClearAll => line(alloc, "full_clearing", mutator, &[]),
        },
        Ask::Stat { mutator } => line(alloc, "stat", mutator, &[]),
        Ask::Notes { mutator } => line(alloc, "notes", mutator, &[]),
        Ask::Faults { mutator } => line(alloc, "faults", mutator, &[]),
        _ => String::from_str(alloc, background_word(ask)),
    }
}

fn background_word(ask: &Ask) -> &'static str {
    match ask {
        Ask::HandOver => "hand_over",
        Ask::TakeUp => "take_up",
        Ask::Begin => "begin",
        Ask::Collect => "collect",
        Ask::Abandon => "abandon",
        _ => "no word",
    }
}

/// An answer in words, if it is one of those of the rows.
pub(super) fn answer_text(alloc: Global, answer: &Answer) -> Result<String, AllocError> {
    match answer {
        Answer::Handle(handle) => format!(in alloc; "handle {}", handle.number()),
        Answer::Out(rid) => format!(in alloc; "out {}", rid.number()),
        _ => String::from_str(alloc, "another answer"),
    }
}
