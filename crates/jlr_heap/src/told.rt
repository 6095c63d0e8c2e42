//! What an answer tells.
ghost use Rattle.std.specs.Prelude.{◌≡◌, true};
ghost use Rattle.jlr_embed.specs.Kinds.{is_faults, is_handle, is_integer, is_names, is_notes, is_stat, is_told};
ghost use Rattle.jlr_embed.specs.Kinds.{is_truth};
ghost use Rattle.jlr_heap.specs.Entries.{counts, told_faults, handle, integer, names, notes, truth, GivesNothing};

use jlr_machine::ask::{Answer, Stat};
use jlr_machine::items::Items;
use jlr_machine::machine::Failure;
use jlr_machine::text::Name;
use jlr_types::{Handle, Refusal};

/// Nothing but how it ended.
#[inline(always)]
pub(crate) fn end(answer: &Answer) -> Result<(), Refusal>
    ensures { GivesNothing result answer.now }
{
    match answer {
        Answer::Refused(by) => Err(*by),
        _ => Ok(()),
    }
}

/// A handle, 0 for null.
#[inline(always)]
pub(crate) fn handle(answer: &Answer) -> Result<Handle, Refusal>
    requires { is_told is_handle answer.now ≡ true }
    ensures { handle result ≡ answer.now }
{
    match answer {
        Answer::Handle(told) => Ok(*told),
        Answer::Refused(by) => Err(*by),
        _ => unreachable!(),
    }
}

/// A truth.
#[inline(always)]
pub(crate) fn truth(answer: &Answer) -> Result<bool, Refusal>
    requires { is_told is_truth answer.now ≡ true }
    ensures { truth result ≡ answer.now }
{
    match answer {
        Answer::Truth(told) => Ok(*told),
        Answer::Refused(by) => Err(*by),
        _ => unreachable!(),
    }
}

/// An integer.
#[inline(always)]
pub(crate) fn integer(answer: &Answer) -> Result<i64, Refusal>
    requires { is_told is_integer answer.now ≡ true }
    ensures { integer result ≡ answer.now }
{
    match answer {
        Answer::Int(told) => Ok(*told),
        Answer::Refused(by) => Err(*by),
        _ => unreachable!(),
    }
}

/// Counts.
#[inline(always)]
pub(crate) fn counts(answer: &Answer) -> Result<Stat, Refusal>
    requires { is_told is_stat answer.now ≡ true }
    ensures { counts result ≡ answer.now }
{
    match answer {
        Answer::Stat(told) => Ok(*told),
        Answer::Refused(by) => Err(*by),
        _ => unreachable!(),
    }
}

/// Names.
pub(crate) fn names(answer: Answer) -> Result<Items<Name>, Refusal>
    requires { is_told is_names answer ≡ true }
    ensures { names result ≡ answer }
{
    match answer {
        Answer::Names(told) => Ok(told),
        Answer::Refused(by) => Err(by),
        _ => unreachable!(),
    }
}

/// Notes.
pub(crate) fn notes(answer: Answer) -> Result<Items<u32>, Refusal>
    requires { is_told is_notes answer ≡ true }
    ensures { notes result ≡ answer }
{
    match answer {
        Answer::Notes(told) => Ok(told),
        Answer::Refused(by) => Err(by),
        _ => unreachable!(),
    }
}

/// Failures.
pub(crate) fn faults(answer: Answer) -> Result<Items<Failure>, Refusal>
    requires { is_told is_faults answer ≡ true }
    ensures { told_faults result ≡ answer }
{
    match answer {
        Answer::Faults(told) => Ok(told),
        Answer::Refused(by) => Err(by),
        _ => unreachable!(),
    }
}
