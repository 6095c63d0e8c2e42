//! Whether a history is a run of the machine.
ghost use Rattle.std.specs.Prelude.{IfOk};
ghost use Rattle.jlr_plain.specs.Following.{IsWellFollowed};
ghost use Rattle.jlr_audit.specs.Verdicts.{IsLegalFront};

use crate::watch::Watch;
use jlr_machine::entry::Entry;
use jlr_machine::machine::Machine;
use jlr_plain::advance::advance_plain;
use std::alloc::{AllocError, Global};

/// What an audit says.
#[derive(Clone, Copy, PartialEq, Eq, Debug)]
pub enum Verdict {
    /// It is a run from its image.
    Legal,
    /// The first entry that is not legal, counted from 1; 0 is the image.
    Illegal(u64),
}

/// How many of the first entries are legal, one after the other, from this machine on. It is given up for what they
/// leave.
pub(crate) fn legal_front<W: Watch>(
    alloc: Global,
    machine: Machine,
    entries: &[Entry],
    watch: &mut W,
) -> Result<usize, AllocError>
    requires { IsWellFollowed machine }
    ensures { IfOk result (λ n. IsLegalFront machine entries.now n) }
{
    let mut machine = machine;
    for (number, entry) in entries.iter().enumerate() {
        watch.told(number);
        match advance_plain(alloc, machine, entry)? {
            Some(next) => machine = next,
            None => return Ok(number),
        }
    }
    Ok(entries.len())
}
