//! Which answer it is.
ghost use Rattle.jlr_trace_fields.specs.Reading.{Reads, picked_at};
ghost use Rattle.jlr_trace_entries.specs.Answers.{answer_tags};

use jlr_trace_fields::cursor::take_picked;
use jlr_trace_fields::fault::ReadError;

/// Which answer it is, in the order of their numbers.
#[derive(Clone, Copy)]
pub(crate) enum Tag {
    Done,
    Handle,
    Truth,
    Int,
    Data,
    Wrote,
    Faulted,
    Names,
    Notes,
    Faults,
    Stat,
    Job,
    AlreadyDone,
    Prepared,
    Out,
    Handed,
    Refused,
}

/// Which answer it is.
pub(crate) fn tag_at(bytes: &mut &[u8]) -> Result<Tag, ReadError>
    ensures { Reads (λ x. x) result bytes.new.now (picked_at 0 answer_tags bytes.old.now) }
{
    let table = [
        Tag::Done,
        Tag::Handle,
        Tag::Truth,
        Tag::Int,
        Tag::Data,
        Tag::Wrote,
        Tag::Faulted,
        Tag::Names,
        Tag::Notes,
        Tag::Faults,
        Tag::Stat,
        Tag::Job,
        Tag::AlreadyDone,
        Tag::Prepared,
        Tag::Out,
        Tag::Handed,
        Tag::Refused,
    ];
    take_picked(0, &table, bytes)
}
