//! Refusals in words, and which reply line says which.
ghost use Rattle.std.specs.Prelude.{◌≡◌, ◌↔◌, Some};
ghost use Rattle.jlr_types.specs.declared.Refusal.{Refusal as RefusalOf};
ghost use Rattle.jlr_client.specs.Lines.{line_of, refusal_in};

use jlr_types::Refusal;

/// Each refusal, in the order of their numbers.
pub const REFUSALS: [Refusal; 19] = [
    Refusal::NoMemory,
    Refusal::HeapFull,
    Refusal::NoHandle,
    Refusal::HandlesFull,
    Refusal::WrongKind,
    Refusal::NoField,
    Refusal::WrongType,
    Refusal::Null,
    Refusal::NoName,
    Refusal::NamesFull,
    Refusal::Busy,
    Refusal::Closed,
    Refusal::NoSession,
    Refusal::Exhausted,
    Refusal::Malformed,
    Refusal::TooLong,
    Refusal::NotOut,
    Refusal::WouldWait,
    Refusal::ResourcesFull,
];

/// A refusal in words.
pub fn phrase(refusal: Refusal) -> &'static str {
    match refusal {
        Refusal::NoMemory => "memory ran out",
        Refusal::HeapFull => "the heap is full",
        Refusal::NoHandle => "no such handle",
        Refusal::HandlesFull => "no handle is free: 250 are in use",
        Refusal::WrongKind => "an object of another kind",
        Refusal::NoField => "no such field",
        Refusal::WrongType => "the field is of the other type",
        Refusal::Null => "0, where an object is needed",
        Refusal::NoName => "no such name",
        Refusal::NamesFull => "no name is free: 256 are in use",
        Refusal::Busy => "a call is under way",
        Refusal::Closed => "it is closed",
        Refusal::NoSession => "the session is not joined",
        Refusal::Exhausted => "no number is left",
        Refusal::Malformed => "no such command",
        Refusal::TooLong => "a line of more than 512 bytes",
        Refusal::NotOut => "no such call is under way",
        Refusal::WouldWait => "the queue is empty",
        Refusal::ResourcesFull => "as many files and sockets are open as may be",
    }
}

/// The refusal that a reply line, without its end, says; none where it says another thing.
pub fn refusal_said(line: &[u8]) -> Option<Refusal>
    ensures { (refusal : RefusalOf) → (result ≡ Some refusal) ↔ (line.now ≡ line_of refusal) }
{
    beside(line)
}

/// What stands beside a line in the list of the lines of refusals.
#[tactic(auto, unfolding(crate::specs::Lines::refusal_in))]
fn beside(line: &[u8]) -> Option<Refusal>
    ensures { result ≡ refusal_in line.now }
{
    if line == b"! 1".as_slice() {
        return Some(Refusal::NoMemory);
    }
    if line == b"! 2".as_slice() {
        return Some(Refusal::HeapFull);
    }
    if line == b"! 3".as_slice() {
        return Some(Refusal::NoHandle);
    }
    if line == b"! 4".as_slice() {
        return Some(Refusal::HandlesFull);
    }
    if line == b"! 5".as_slice() {
        return Some(Refusal::WrongKind);
    }
    if line == b"! 6".as_slice() {
        return Some(Refusal::NoField);
    }
    if line == b"! 7".as_slice() {
        return Some(Refusal::WrongType);
    }
    if line == b"! 8".as_slice() {
        return Some(Refusal::Null);
    }
    if line == b"! 9".as_slice() {
        return Some(Refusal::NoName);
    }
    if line == b"! 10".as_slice() {
        return Some(Refusal::NamesFull);
    }
    if line == b"! 11".as_slice() {
        return Some(Refusal::Busy);
    }
    if line == b"! 12".as_slice() {
        return Some(Refusal::Closed);
    }
    if line == b"! 13".as_slice() {
        return Some(Refusal::NoSession);
    }
    if line == b"! 14".as_slice() {
        return Some(Refusal::Exhausted);
    }
    if line == b"! 15".as_slice() {
        return Some(Refusal::Malformed);
    }
    if line == b"! 16".as_slice() {
        return Some(Refusal::TooLong);
    }
    if line == b"! 17".as_slice() {
        return Some(Refusal::NotOut);
    }
    if line == b"! 18".as_slice() {
        return Some(Refusal::WouldWait);
    }
    if line == b"! 19".as_slice() {
        return Some(Refusal::ResourcesFull);
    }
    None
}
