//! The names of asks: those of the commands that ask them.
use jlr_machine::ask::{Ask, AskKind, FullMode};
use jlr_types::RefKind;

/// The names, in the order of the table. What no command asks by itself has the name of its ask.
pub(crate) const NAMES: [&str; 45] = [
    "join", "leave", "new", "array", "put", "get", "setint", "int", "dup", "drop", "same", "soft",
    "weak", "phantom", "deref", "refers", "clear", "enqueue", "enqueued", "queue", "poll",
    "remove", "cleaner", "register", "clean", "prepare", "opened", "checkout", "checkin", "close",
    "finish", "bind", "find", "unbind", "names", "gc", "gc soft", "stat", "notes", "faults",
    "handover", "takeup", "begin", "collect", "abandon",
];

/// The name of an ask.
pub(crate) fn ask_name(ask: &Ask) -> &'static str {
    match NAMES.get(place_of(ask)) {
        Some(name) => name,
        None => "ask",
    }
}

/// The place of an ask's name among the names.
pub(crate) fn place_of(ask: &Ask) -> usize {
    match ask {
        Ask::MakeRef { kind, .. } => reference_place(*kind),
        Ask::Full { mode, .. } => collection_place(*mode),
        _ => place_of_kind(ask.kind()),
    }
}

/// The place of a kind; of references and collections it is that of the first.
fn place_of_kind(kind: AskKind) -> usize {
    match kind {
        AskKind::Join => 0,
        AskKind::Leave => 1,
        AskKind::New => 2,
        AskKind::Array => 3,
        AskKind::Put => 4,
        AskKind::Get => 5,
        AskKind::SetInt => 6,
        AskKind::Int => 7,
        AskKind::Dup => 8,
        AskKind::Drop => 9,
        AskKind::Same => 10,
        AskKind::MakeRef => 11,
        AskKind::Deref => 14,
        AskKind::Refers => 15,
        AskKind::Clear => 16,
        AskKind::Enqueue => 17,
        AskKind::Enqueued => 18,
        AskKind::MakeQueue => 19,
        AskKind::Poll => 20,
        AskKind::Remove => 21,
        AskKind::MakeCleaner => 22,
        AskKind::Register => 23,
        AskKind::Clean => 24,
        AskKind::Prepare => 25,
        AskKind::Opened => 26,
        AskKind::CheckOut => 27,
        AskKind::CheckIn => 28,
        AskKind::Close => 29,
        AskKind::Finish => 30,
        AskKind::Bind => 31,
        AskKind::Find => 32,
        AskKind::Unbind => 33,
        AskKind::Names => 34,
        AskKind::Full => 35,
        AskKind::Stat => 37,
        AskKind::Notes => 38,
        AskKind::Faults => 39,
        AskKind::HandOver => 40,
        AskKind::TakeUp => 41,
        AskKind::Begin => 42,
        AskKind::Collect => 43,
        AskKind::Abandon => 44,
    }
}

fn reference_place(kind: RefKind) -> usize {
    match kind {
        RefKind::Soft => 11,
        RefKind::Weak => 12,
        RefKind::Phantom => 13,
    }
}

fn collection_place(mode: FullMode) -> usize {
    match mode {
        FullMode::Policy => 35,
        FullMode::ClearAll => 36,
    }
}
