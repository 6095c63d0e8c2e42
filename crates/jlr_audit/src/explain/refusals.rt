//! Refusals in words.
use jlr_types::Refusal;

/// Why an ask is refused so.
pub(crate) fn reason(by: Refusal) -> &'static str {
    match by {
        Refusal::NoMemory => "memory ran out",
        Refusal::HeapFull => "too few cells are free, also after a full collection",
        Refusal::NoHandle => "a handle that it names is not in use",
        Refusal::HandlesFull => "a handle is needed, and 250 are in use",
        Refusal::WrongKind => "an object is of another kind",
        Refusal::NoField => "the object has no such field",
        Refusal::WrongType => "the field is of the other type",
        Refusal::Null => "a handle is 0 where an object is needed",
        Refusal::NoName => "no object has that name",
        Refusal::NamesFull => "the name is new, and 256 are bound",
        Refusal::Busy => "a call is under way",
        Refusal::Closed => "the resource is closed",
        Refusal::NoSession => "the mutator is not joined, or may not join",
        Refusal::Exhausted => "no action number is left",
        Refusal::Malformed => "it is no command",
        Refusal::TooLong => "it is too long",
        Refusal::NotOut => "it ends a call that is not under way",
        Refusal::WouldWait => "the queue is empty",
        Refusal::ResourcesFull => "as many resources are open as there may be",
    }
}
