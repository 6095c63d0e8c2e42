//! Words that are no asks: numbers, faults, refusals, names and bytes.
ghost use Rattle.std.specs.Prelude.{◌≤◌};

use jlr_machine::data::Data;
use jlr_machine::text::{CallBytes, Name};
use jlr_types::{Fault, FieldKind, FieldNo, Handle, Layout, Refusal};
use std::alloc::Global;
use std::str::{FromStr, SplitWhitespace};

pub(crate) fn number<T: FromStr>(words: &mut SplitWhitespace<'_>) -> Option<T>
where
    T::Err: Drop,
{
    words.next()?.parse().ok()
}

pub(crate) fn byte(words: &mut SplitWhitespace<'_>) -> Option<u8> {
    number(words)
}

pub(crate) fn field(words: &mut SplitWhitespace<'_>) -> Option<FieldNo> {
    number(words).and_then(FieldNo::new)
}

pub(crate) fn handle(words: &mut SplitWhitespace<'_>) -> Option<Handle> {
    byte(words).map(Handle::new)
}

pub(crate) fn name(words: &mut SplitWhitespace<'_>) -> Option<Name> {
    Name::from_slice(words.next()?.as_bytes())
}

// What stands beside this name in a table.
pub(crate) fn named<T: Copy>(table: &[(&str, T)], name: &str) -> Option<T> {
    for entry in table {
        if entry.0 == name {
            return Some(entry.1);
        }
    }
    None
}

// The fault of this name.
pub(crate) fn fault_of(name: &str) -> Option<Fault> {
    match name {
        "NotFound" => Some(Fault::NotFound),
        "Denied" => Some(Fault::Denied),
        "Other" => Some(Fault::Other),
        _ => None,
    }
}

const REFUSALS: [(&str, Refusal); 19] = [
    ("NoMemory", Refusal::NoMemory),
    ("HeapFull", Refusal::HeapFull),
    ("NoHandle", Refusal::NoHandle),
    ("HandlesFull", Refusal::HandlesFull),
    ("WrongKind", Refusal::WrongKind),
    ("NoField", Refusal::NoField),
    ("WrongType", Refusal::WrongType),
    ("Null", Refusal::Null),
    ("NoName", Refusal::NoName),
    ("NamesFull", Refusal::NamesFull),
    ("Busy", Refusal::Busy),
    ("Closed", Refusal::Closed),
    ("NoSession", Refusal::NoSession),
    ("Exhausted", Refusal::Exhausted),
    ("Malformed", Refusal::Malformed),
    ("TooLong", Refusal::TooLong),
    ("NotOut", Refusal::NotOut),
    ("WouldWait", Refusal::WouldWait),
    ("ResourcesFull", Refusal::ResourcesFull),
];

// The refusal of this name.
pub(crate) fn refusal_of(name: &str) -> Option<Refusal> {
    named(&REFUSALS, name)
}

// A field for each letter, as far as there is room: `r` is a reference, another an integer.
pub(crate) fn layout_of(letters: &str) -> Layout {
    let mut layout = Layout::new();
    for letter in letters.bytes() {
        if layout.len() < 8 {
            layout.push(if letter == b'r' {
                FieldKind::Ref
            } else {
                FieldKind::Int
            });
        }
    }
    layout
}

// What a digit of a byte stands for.
fn digit(letter: u8) -> u8
    ensures { result ≤ 15 }
{
    match letter {
        b'0'..=b'9' => letter - b'0',
        b'a'..=b'f' => letter - b'a' + 10,
        _ => 0,
    }
}

// The bytes of these digits, two a byte, and none for `-`.
pub(crate) fn bytes_of(digits: &str) -> CallBytes {
    let mut data = CallBytes::new();
    let mut high = None;
    for letter in digits.bytes() {
        match high {
            Some(first) => {
                let _ = data.push(digit(first) * 16 + digit(letter));
                high = None;
            }
            None => high = Some(letter),
        }
    }
    data
}

// The same where a call read them; none where there is no memory.
pub(crate) fn data_of(alloc: Global, digits: &str) -> Option<Data> {
    Data::from_slice(alloc, bytes_of(digits).as_slice()).ok()?
}
