//! An entry that changes the machine in place.
ghost use Rattle.std.specs.Prelude.{◌≡◌, true, IfOk, MatchOption};
ghost use Rattle.jlr_machine.specs.Run.{IsLegal, done, now_seen};
ghost use Rattle.jlr_plain.specs.Deciding.{HasAllowedCollection};
ghost use Rattle.jlr_plain.specs.Following.{IsWellFollowed, IsNext};

use crate::apply::{applied, complete};
use crate::entry::{fits_in, is_declined, may_carry_out};
use crate::following::keeps_seen_plain;
use jlr_machine::entry::Entry;
use jlr_machine::machine::Machine;
use jlr_plain_collections::left::collect_in;
use std::alloc::{AllocError, Global};

/// Carries an ask out that may come with its collection, if the rest of its entry fits.
fn carry_on(
    alloc: Global,
    machine: Machine,
    entry: &Entry,
    kept: bool,
) -> Result<Option<Machine>, AllocError>
    requires fit { IsWellFollowed machine }
    requires allowed { HasAllowedCollection machine entry.now }
    requires kept { kept ≡ true → IsLegal machine entry.now
        → now_seen (done machine entry.now) ≡ (done machine entry.now).seen }
    ensures { IfOk result (λ o. MatchOption o (¬ (IsLegal machine entry.now)) (λ n. IsNext machine entry.now n)) }
{
    let _next_action = machine.next_action;
    let collected = collect_in(alloc, machine, &entry.choice)?;
    if !fits_in(&collected, entry) {
        return Ok(None);
    }
    let next = complete(alloc, collected, entry, kept)?;
    Ok(Some(next))
}

/// The machine after an entry, if the entry is legal in it; none if it is not. The machine is given up for it, so
/// nothing of it is copied, and in an open cycle only an entry that may add to what was seen has it looked for again.
///
/// # Errors
/// `AllocError` where there is no memory. The machine is gone then.
pub fn advance_plain(
    alloc: Global,
    machine: Machine,
    entry: &Entry,
) -> Result<Option<Machine>, AllocError>
    requires { IsWellFollowed machine }
    ensures { IfOk result (λ o. MatchOption o (¬ (IsLegal machine entry.now)) (λ n. IsNext machine entry.now n)) }
{
    let kept = keeps_seen_plain(&machine, entry);
    // The machine is let go by calls: an exit that held it would go through all its parts.
    let Ok(declined) = is_declined(alloc, &machine, entry) else {
        drop(machine);
        return Err(AllocError);
    };
    if declined {
        let next = applied(alloc, machine, entry, kept)?;
        return Ok(Some(next));
    }
    let Ok(may) = may_carry_out(alloc, &machine, entry) else {
        drop(machine);
        return Err(AllocError);
    };
    if !may {
        drop(machine);
        return Ok(None);
    }
    carry_on(alloc, machine, entry, kept)
}
