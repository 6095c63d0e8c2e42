//! Events by their names.
use crate::calls::{check_in, finish, opened};
use crate::verbs::{Verb, verb_of};
use crate::words::{byte, field, handle, layout_of, name, number};
use jlr_event::event::{Event, ended};
use jlr_machine::ask::{Ask, AskKind};
use jlr_types::{Handle, Length, Mutator, RefKind};
use std::alloc::Global;
use std::str::SplitWhitespace;

/// The event that these words stand for.
pub fn event_of(alloc: Global, text: &str) -> Option<Event<u32>> {
    let mut words = text.split_whitespace();
    let event = told(alloc, &mut words);
    match words.next() {
        Some(_) => None,
        None => event,
    }
}

/// The ask of an event, and what it hands in.
pub fn parts_of(event: Event<u32>) -> (Option<Ask>, Option<u32>) {
    match event {
        Event::Ask(ask) => (Some(ask.into_ask()), None),
        Event::Opened { mutator, outcome } => {
            let ended = ended(&outcome);
            let ask = Ask::Opened {
                mutator,
                outcome: ended,
            };
            (Some(ask), outcome.ok())
        }
        Event::CheckIn {
            mutator,
            outcome,
            resource,
        } => (Some(Ask::CheckIn { mutator, outcome }), Some(resource)),
        Event::Mark { .. } => (None, None),
    }
}

// The event that the words begin with.
fn told(alloc: Global, words: &mut SplitWhitespace<'_>) -> Option<Event<u32>> {
    match words.next()? {
        "by" => {
            let mutator = Mutator::new(byte(words)?);
            asked(alloc, mutator, words.next()?, words)
        }
        ask => asked(alloc, Mutator::new(0), ask, words),
    }
}

fn asked(
    alloc: Global,
    mutator: Mutator,
    ask: &str,
    words: &mut SplitWhitespace<'_>,
) -> Option<Event<u32>> {
    match verb_of(ask)? {
        Verb::Ask(kind) => of_kind(alloc, mutator, kind, words),
        Verb::Full(mode) => Some(Event::ask(Ask::Full { mutator, mode })),
        Verb::Mark => mark(words),
        Verb::Reference(kind) => reference(mutator, kind, words),
    }
}

fn of_kind(
    alloc: Global,
    mutator: Mutator,
    kind: AskKind,
    words: &mut SplitWhitespace<'_>,
) -> Option<Event<u32>> {
    match kind {
        AskKind::Finish => finish(words),
        AskKind::Opened => opened(mutator, words),
        AskKind::CheckIn => check_in(alloc, mutator, words),
        AskKind::New => Some(new(mutator, words)),
        AskKind::Array => array(mutator, words),
        AskKind::SetInt => set_int(mutator, words),
        AskKind::Register => register(mutator, words),
        AskKind::Bind => bind(mutator, words),
        AskKind::Find => name(words).map(|name| Event::ask(Ask::Find { mutator, name })),
        AskKind::Unbind => name(words).map(|name| Event::ask(Ask::Unbind { mutator, name })),
        AskKind::Put => put(mutator, words),
        AskKind::Get => get(mutator, words),
        AskKind::Int => int(mutator, words),
        _ => short(mutator, kind, words),
    }
}

fn reference(
    mutator: Mutator,
    kind: RefKind,
    words: &mut SplitWhitespace<'_>,
) -> Option<Event<u32>> {
    let referent = handle(words)?;
    let queue = handle(words)?;
    Some(Event::ask(Ask::MakeRef {
        mutator,
        kind,
        referent,
        queue,
    }))
}

fn new(mutator: Mutator, words: &mut SplitWhitespace<'_>) -> Event<u32> {
    let layout = layout_of(words.next().unwrap_or(""));
    Event::ask(Ask::New { mutator, layout })
}

fn array(mutator: Mutator, words: &mut SplitWhitespace<'_>) -> Option<Event<u32>> {
    number(words)
        .and_then(Length::new)
        .map(|length| Event::ask(Ask::Array { mutator, length }))
}

fn set_int(mutator: Mutator, words: &mut SplitWhitespace<'_>) -> Option<Event<u32>> {
    let object = handle(words)?;
    let field = field(words)?;
    let value = number(words)?;
    Some(Event::ask(Ask::SetInt {
        mutator,
        object,
        field,
        value,
    }))
}

fn put(mutator: Mutator, words: &mut SplitWhitespace<'_>) -> Option<Event<u32>> {
    let object = handle(words)?;
    let field = field(words)?;
    let value = handle(words)?;
    Some(Event::ask(Ask::Put {
        mutator,
        object,
        field,
        value,
    }))
}

fn get(mutator: Mutator, words: &mut SplitWhitespace<'_>) -> Option<Event<u32>> {
    let object = handle(words)?;
    let field = field(words)?;
    Some(Event::ask(Ask::Get {
        mutator,
        object,
        field,
    }))
}

fn int(mutator: Mutator, words: &mut SplitWhitespace<'_>) -> Option<Event<u32>> {
    let object = handle(words)?;
    let field = field(words)?;
    Some(Event::ask(Ask::Int {
        mutator,
        object,
        field,
    }))
}

fn register(mutator: Mutator, words: &mut SplitWhitespace<'_>) -> Option<Event<u32>> {
    let cleaner = handle(words)?;
    let object = handle(words)?;
    let note = number(words)?;
    Some(Event::ask(Ask::Register {
        mutator,
        cleaner,
        object,
        note,
    }))
}

fn bind(mutator: Mutator, words: &mut SplitWhitespace<'_>) -> Option<Event<u32>> {
    let name = name(words)?;
    let object = handle(words)?;
    Some(Event::ask(Ask::Bind {
        mutator,
        name,
        object,
    }))
}

fn mark(words: &mut SplitWhitespace<'_>) -> Option<Event<u32>> {
    let budget = match words.next() {
        Some(budget) => budget.parse().ok()?,
        None => 64,
    };
    Some(Event::Mark { budget })
}

// An ask of no, one or two numbers.
fn short(mutator: Mutator, kind: AskKind, words: &mut SplitWhitespace<'_>) -> Option<Event<u32>> {
    let Some(first) = words.next() else {
        return alone(mutator, kind);
    };
    let first = first.parse().ok()?;
    match words.next() {
        None => with_one(mutator, kind, Handle::new(first)),
        Some(second) => with_two(mutator, kind, Handle::new(first), second.parse().ok()?),
    }
}

fn alone(mutator: Mutator, kind: AskKind) -> Option<Event<u32>> {
    let event = match kind {
        AskKind::Join => Event::ask(Ask::Join { mutator }),
        AskKind::Leave => Event::ask(Ask::Leave { mutator }),
        AskKind::MakeQueue => Event::ask(Ask::MakeQueue { mutator }),
        AskKind::MakeCleaner => Event::ask(Ask::MakeCleaner { mutator }),
        AskKind::Prepare => Event::ask(Ask::Prepare { mutator }),
        AskKind::Names => Event::ask(Ask::Names { mutator }),
        AskKind::Stat => Event::ask(Ask::Stat { mutator }),
        AskKind::Notes => Event::ask(Ask::Notes { mutator }),
        AskKind::Faults => Event::ask(Ask::Faults { mutator }),
        AskKind::HandOver => Event::ask(Ask::HandOver),
        AskKind::TakeUp => Event::ask(Ask::TakeUp),
        AskKind::Begin => Event::ask(Ask::Begin),
        AskKind::Collect => Event::ask(Ask::Collect),
        AskKind::Abandon => Event::ask(Ask::Abandon),
        _ => return None,
    };
    Some(event)
}

fn with_one(mutator: Mutator, kind: AskKind, handle: Handle) -> Option<Event<u32>> {
    let event = match kind {
        AskKind::Dup => Event::ask(Ask::Dup {
            mutator,
            object: handle,
        }),
        AskKind::Drop => Event::ask(Ask::Drop {
            mutator,
            object: handle,
        }),
        AskKind::Clean => Event::ask(Ask::Clean {
            mutator,
            cleanable: handle,
        }),
        AskKind::CheckOut => Event::ask(Ask::CheckOut {
            mutator,
            guard: handle,
        }),
        AskKind::Close => Event::ask(Ask::Close {
            mutator,
            guard: handle,
        }),
        _ => return on_reference(mutator, kind, handle),
    };
    Some(event)
}

fn on_reference(mutator: Mutator, kind: AskKind, reference: Handle) -> Option<Event<u32>> {
    let event = match kind {
        AskKind::Deref => Event::ask(Ask::Deref { mutator, reference }),
        AskKind::Clear => Event::ask(Ask::Clear { mutator, reference }),
        AskKind::Enqueue => Event::ask(Ask::Enqueue { mutator, reference }),
        AskKind::Enqueued => Event::ask(Ask::Enqueued { mutator, reference }),
        AskKind::Poll => Event::ask(Ask::Poll {
            mutator,
            queue: reference,
        }),
        AskKind::Remove => Event::ask(Ask::Remove {
            mutator,
            queue: reference,
        }),
        _ => return None,
    };
    Some(event)
}

fn with_two(mutator: Mutator, kind: AskKind, first: Handle, second: u8) -> Option<Event<u32>> {
    let event = match kind {
        AskKind::Same => Event::ask(Ask::Same {
            mutator,
            left: first,
            right: Handle::new(second),
        }),
        AskKind::Refers => Event::ask(Ask::Refers {
            mutator,
            reference: first,
            object: Handle::new(second),
        }),
        _ => return None,
    };
    Some(event)
}
