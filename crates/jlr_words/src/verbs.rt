//! The words that asks begin with.
use crate::words::named;
use jlr_machine::ask::{AskKind, FullMode};
use jlr_types::RefKind;

/// What an event is to do. A reference has a word for each kind, and a full collection one for each mode.
#[derive(Clone, Copy)]
pub(crate) enum Verb {
    Ask(AskKind),
    Full(FullMode),
    Mark,
    Reference(RefKind),
}

const VERBS: [(&str, Verb); 46] = [
    ("abandon", Verb::Ask(AskKind::Abandon)),
    ("array", Verb::Ask(AskKind::Array)),
    ("begin", Verb::Ask(AskKind::Begin)),
    ("bind", Verb::Ask(AskKind::Bind)),
    ("check_in", Verb::Ask(AskKind::CheckIn)),
    ("check_out", Verb::Ask(AskKind::CheckOut)),
    ("clean", Verb::Ask(AskKind::Clean)),
    ("cleaner", Verb::Ask(AskKind::MakeCleaner)),
    ("clear", Verb::Ask(AskKind::Clear)),
    ("close", Verb::Ask(AskKind::Close)),
    ("collect", Verb::Ask(AskKind::Collect)),
    ("deref", Verb::Ask(AskKind::Deref)),
    ("drop", Verb::Ask(AskKind::Drop)),
    ("dup", Verb::Ask(AskKind::Dup)),
    ("enqueue", Verb::Ask(AskKind::Enqueue)),
    ("enqueued", Verb::Ask(AskKind::Enqueued)),
    ("faults", Verb::Ask(AskKind::Faults)),
    ("find", Verb::Ask(AskKind::Find)),
    ("finish", Verb::Ask(AskKind::Finish)),
    ("full", Verb::Full(FullMode::Policy)),
    ("full_clearing", Verb::Full(FullMode::ClearAll)),
    ("get", Verb::Ask(AskKind::Get)),
    ("hand_over", Verb::Ask(AskKind::HandOver)),
    ("int", Verb::Ask(AskKind::Int)),
    ("join", Verb::Ask(AskKind::Join)),
    ("leave", Verb::Ask(AskKind::Leave)),
    ("mark", Verb::Mark),
    ("names", Verb::Ask(AskKind::Names)),
    ("new", Verb::Ask(AskKind::New)),
    ("notes", Verb::Ask(AskKind::Notes)),
    ("opened", Verb::Ask(AskKind::Opened)),
    ("phantom", Verb::Reference(RefKind::Phantom)),
    ("poll", Verb::Ask(AskKind::Poll)),
    ("prepare", Verb::Ask(AskKind::Prepare)),
    ("put", Verb::Ask(AskKind::Put)),
    ("queue", Verb::Ask(AskKind::MakeQueue)),
    ("refers", Verb::Ask(AskKind::Refers)),
    ("register", Verb::Ask(AskKind::Register)),
    ("remove", Verb::Ask(AskKind::Remove)),
    ("same", Verb::Ask(AskKind::Same)),
    ("set_int", Verb::Ask(AskKind::SetInt)),
    ("soft", Verb::Reference(RefKind::Soft)),
    ("stat", Verb::Ask(AskKind::Stat)),
    ("take_up", Verb::Ask(AskKind::TakeUp)),
    ("unbind", Verb::Ask(AskKind::Unbind)),
    ("weak", Verb::Reference(RefKind::Weak)),
];

/// The verb of this name.
pub(crate) fn verb_of(name: &str) -> Option<Verb> {
    named(&VERBS, name)
}
