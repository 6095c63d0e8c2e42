//! Commands held against words: the name of the case, and its parts.
use jlr_device::Mode;
use jlr_machine::ask::FullMode;
use jlr_types::{FieldKind, FieldNo, Handle, Layout};
use jlr_wire::command::{Command, Digits};
use std::str::SplitWhitespace;

/// Whether the command is the case of these words.
pub(super) fn is_case(command: &Command<'_>, wanted: &str) -> bool {
    let mut words = wanted.split_whitespace();
    match words.next() {
        Some(name) => {
            name == case_of(command) && has_parts(command, &mut words) && words.next().is_none()
        }
        None => false,
    }
}

fn case_of(command: &Command<'_>) -> &'static str {
    match command {
        Command::New { .. } => "New",
        Command::Array { .. } => "Array",
        Command::Put { .. } => "Put",
        Command::Get { .. } => "Get",
        Command::SetInt { .. } => "SetInt",
        Command::Int { .. } => "Int",
        Command::Dup { .. } => "Dup",
        Command::Drop { .. } => "Drop",
        Command::Same { .. } => "Same",
        Command::Soft { .. } => "Soft",
        Command::Weak { .. } => "Weak",
        Command::Phantom { .. } => "Phantom",
        Command::Deref { .. } => "Deref",
        Command::Refers { .. } => "Refers",
        Command::Clear { .. } => "Clear",
        Command::Enqueue { .. } => "Enqueue",
        Command::Enqueued { .. } => "Enqueued",
        Command::Queue => "Queue",
        Command::Poll { .. } => "Poll",
        Command::Remove { .. } => "Remove",
        Command::Cleaner => "Cleaner",
        Command::Register { .. } => "Register",
        Command::Clean { .. } => "Clean",
        Command::Open { .. } => "Open",
        Command::Connect { .. } => "Connect",
        Command::Read { .. } => "Read",
        Command::Write { .. } => "Write",
        Command::Close { .. } => "Close",
        Command::Bind { .. } => "Bind",
        Command::Find { .. } => "Find",
        Command::Unbind { .. } => "Unbind",
        Command::Names => "Names",
        Command::Notes => "Notes",
        Command::Faults => "Faults",
        Command::Full { .. } => "Full",
        Command::Stat => "Stat",
        Command::Bye => "Bye",
    }
}

// Whether the next word is this number.
fn is_number(number: u64, words: &mut SplitWhitespace<'_>) -> bool {
    match words.next() {
        Some(word) => word.parse() == Ok(number),
        None => false,
    }
}

fn is_handle(handle: &Handle, words: &mut SplitWhitespace<'_>) -> bool {
    is_number(u64::from(handle.number()), words)
}

fn is_byte(byte: u8, words: &mut SplitWhitespace<'_>) -> bool {
    is_number(u64::from(byte), words)
}

fn is_value(value: i64, words: &mut SplitWhitespace<'_>) -> bool {
    match words.next() {
        Some(word) => word.parse() == Ok(value),
        None => false,
    }
}

fn is_text(text: &[u8], words: &mut SplitWhitespace<'_>) -> bool {
    match words.next() {
        Some(word) => word.as_bytes() == text,
        None => false,
    }
}

// Two handles, left and right.
fn are_both(left: &Handle, right: &Handle, words: &mut SplitWhitespace<'_>) -> bool {
    is_handle(left, words) && is_handle(right, words)
}

fn is_kind(kind: Option<FieldKind>, letter: u8) -> bool {
    match kind {
        Some(FieldKind::Ref) => letter == b'r',
        Some(FieldKind::Int) => letter == b'i',
        None => false,
    }
}

fn has_fields(layout: &Layout, letters: &[u8]) -> bool {
    for (field, &letter) in letters.iter().enumerate() {
        if !is_kind(layout.get(field), letter) {
            return false;
        }
    }
    layout.len() == letters.len()
}

fn is_layout(layout: &Layout, words: &mut SplitWhitespace<'_>) -> bool {
    match words.next() {
        Some("-") => layout.is_empty(),
        Some(letters) => has_fields(layout, letters.as_bytes()),
        None => false,
    }
}

fn are_bytes(bytes: &[u8], words: &mut SplitWhitespace<'_>) -> bool {
    for &byte in bytes {
        if !is_byte(byte, words) {
            return false;
        }
    }
    true
}

fn are_spelled(digits: &Digits<'_>, words: &mut SplitWhitespace<'_>) -> bool {
    let bytes = digits.decode();
    are_bytes(bytes.as_slice(), words)
}

// A handle and the number of a field.
fn is_place(object: &Handle, field: FieldNo, words: &mut SplitWhitespace<'_>) -> bool {
    is_handle(object, words) && is_number(u64::from(field.number()), words)
}

fn mode_word(mode: &Mode) -> &'static str {
    match mode {
        Mode::Read => "Read",
        Mode::Write => "Write",
    }
}

fn full_word(mode: &FullMode) -> &'static str {
    match mode {
        FullMode::Policy => "Policy",
        FullMode::ClearAll => "ClearAll",
    }
}

// Two parts, of which both read their words.
fn both(first: bool, second: bool) -> bool {
    first && second
}

// Commands without parts, and those whose parts are handles and fields.
fn has_parts(command: &Command<'_>, words: &mut SplitWhitespace<'_>) -> bool {
    match command {
        Command::Queue
        | Command::Cleaner
        | Command::Names
        | Command::Notes
        | Command::Faults
        | Command::Stat
        | Command::Bye => true,
        Command::Dup { object: handle }
        | Command::Drop { object: handle }
        | Command::Deref { reference: handle }
        | Command::Clear { reference: handle }
        | Command::Enqueue { reference: handle }
        | Command::Enqueued { reference: handle }
        | Command::Poll { queue: handle }
        | Command::Remove { queue: handle }
        | Command::Clean { cleanable: handle }
        | Command::Close { guard: handle } => is_handle(handle, words),
        Command::Same { left, right }
        | Command::Soft {
            referent: left,
            queue: right,
        }
        | Command::Weak {
            referent: left,
            queue: right,
        }
        | Command::Phantom {
            referent: left,
            queue: right,
        }
        | Command::Refers {
            reference: left,
            object: right,
        } => are_both(left, right, words),
        Command::Get { object, field } | Command::Int { object, field } => is_place(
            object, *field, words,
        ),
        _ => has_numbers(command, words),
    }
}

// Commands with numbers that are no fields alone, and with layouts and modes.
fn has_numbers(command: &Command<'_>, words: &mut SplitWhitespace<'_>) -> bool {
    match command {
        Command::New { layout } => is_layout(layout, words),
        Command::Array { length } => is_number(u64::from(length.number()), words),
        Command::Put {
            object,
            field,
            value,
        } => { both(is_place(object, *field, words), is_handle(value, words)) }
        Command::SetInt {
            object,
            field,
            value,
        } => { both(is_place(object, *field, words), is_value(*value, words)) }
        Command::Register {
            cleaner,
            object,
            note,
        } => {
            both(
                are_both(cleaner, object, words),
                is_number(u64::from(*note), words),
            )
        }
        Command::Read { guard, count } => both(is_handle(guard, words), is_byte(*count, words)),
        Command::Full { mode } => words.next() == Some(full_word(mode)),
        _ => has_texts(command, words),
    }
}

// Commands with paths, names and bytes.
fn has_texts(command: &Command<'_>, words: &mut SplitWhitespace<'_>) -> bool {
    match command {
        Command::Open { mode, path } => both(
            words.next() == Some(mode_word(mode)),
            is_text(path.as_str().as_bytes(), words),
        ),
        Command::Connect { path } => is_text(path.as_str().as_bytes(), words),
        Command::Write { guard, bytes } => both(is_handle(guard, words), are_spelled(bytes, words)),
        Command::Bind { name, object } => {
            both(is_text(name.as_slice(), words), is_handle(object, words))
        }
        Command::Find { name } | Command::Unbind { name } => is_text(name.as_slice(), words),
        _ => false,
    }
}
