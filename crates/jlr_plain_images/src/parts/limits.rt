//! The limits on cells and sessions.
ghost use Rattle.std.specs.Prelude.{◌↔◌, IsTrue};
ghost use Rattle.jlr_machine.specs.WellFormed.{IsWithinLimits};

use jlr_machine::machine::Machine;

/// Whether there are at most 65,536 cells and 64 sessions.
pub fn is_within_limits(machine: &Machine) -> bool
    ensures { IsTrue result ↔ IsWithinLimits machine.now }
{
    machine.objects.len() <= 65536 && machine.mutators.len() <= 64
}
