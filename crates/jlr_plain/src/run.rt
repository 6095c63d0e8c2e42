//! A run, entry by entry.
ghost use Rattle.std.specs.Prelude.{◌≡◌, true, false, IfOk, OnErr};
ghost use Rattle.jlr_machine.specs.Run.{IsLegal, apply};
ghost use Rattle.jlr_machine.specs.WellFormed.{IsWellFormed};

use crate::apply::apply_plain;
use crate::entry::legal_plain;
use jlr_machine::entry::Entry;
use jlr_machine::machine::Machine;
use std::alloc::{AllocError, Global};

/// Applies an entry if it is legal, and says whether it is.
///
/// # Errors
/// `AllocError` where there is no memory. The machine is then as it was.
pub fn step_plain(alloc: Global, machine: &mut Machine, entry: &Entry) -> Result<bool, AllocError>
    requires { IsWellFormed machine.old }
    ensures formed { IsWellFormed machine.new }
    ensures legal { IfOk result (λ b. b ≡ true → IsLegal machine.old entry.now
        × (machine.new ≡ apply machine.old entry.now)) }
    ensures refused { IfOk result (λ b. b ≡ false → (¬ (IsLegal machine.old entry.now)) × (machine.new ≡ machine.old)) }
    ensures err { OnErr result (machine.new ≡ machine.old) }
{
    if !legal_plain(alloc, machine, entry)? {
        return Ok(false);
    }
    apply_plain(alloc, machine, entry)?;
    Ok(true)
}
