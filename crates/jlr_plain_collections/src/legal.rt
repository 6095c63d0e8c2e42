//! Whether the collection of an entry is legal in a machine.
ghost use Rattle.std.specs.Prelude.{◌≡◌, ◌≤◌, ◌^◌, IfOk, length};
ghost use Rattle.jlr_machine.specs.Edges.{roots};
ghost use Rattle.jlr_laws.specs.Laws.{IsWithinHeap, IsSeenWithin};
ghost use Rattle.jlr_laws.specs.Deciding.{is_full, is_full_clearing, is_background};

use crate::collection::{is_background_plain, is_clearing_plain, tested};
use crate::roots::roots_plain;
use jlr_machine::entry::Collected;
use jlr_machine::machine::Machine;
use std::alloc::{AllocError, Global};

/// Whether it is a full collection.
///
/// # Errors
/// `AllocError` where there is no memory for the sets.
pub fn full_tested(alloc: Global, machine: &Machine, c: &Collected) -> Result<bool, AllocError>
    requires cells { length machine.now.objects ≤ 2 ^ 32 }
    requires within { IsWithinHeap machine.now.objects (roots machine.now) }
    ensures { IfOk result (λ b. b ≡ is_full machine.now c.now.kept c.now.pending) }
{
    let base = roots_plain(alloc, machine)?;
    let kept = c.kept.to_vec(alloc)?;
    tested(
        alloc,
        &machine.objects,
        base.as_slice(),
        kept.as_slice(),
        c.pending.as_slice(),
        true,
    )
}

/// Whether it is a full collection that clears all soft references.
///
/// # Errors
/// `AllocError` where there is no memory for the sets.
pub fn clearing_tested(alloc: Global, machine: &Machine, c: &Collected) -> Result<bool, AllocError>
    requires cells { length machine.now.objects ≤ 2 ^ 32 }
    requires within { IsWithinHeap machine.now.objects (roots machine.now) }
    ensures { IfOk result (λ b. b ≡ is_full_clearing machine.now c.now.kept c.now.pending) }
{
    let base = roots_plain(alloc, machine)?;
    let kept = c.kept.to_vec(alloc)?;
    is_clearing_plain(
        alloc,
        &machine.objects,
        base.as_slice(),
        kept.as_slice(),
        c.pending.as_slice(),
    )
}

/// Whether it is a background collection.
///
/// # Errors
/// `AllocError` where there is no memory for the sets.
pub fn background_tested(
    alloc: Global,
    machine: &Machine,
    c: &Collected,
) -> Result<bool, AllocError>
    requires cells { length machine.now.objects ≤ 2 ^ 32 }
    ensures { IfOk result (λ b. b ≡ is_background machine.now c.now.kept c.now.pending) }
{
    let base = roots_plain(alloc, machine)?;
    let kept = c.kept.to_vec(alloc)?;
    is_background_plain(
        alloc,
        &machine.objects,
        base.as_slice(),
        machine.seen.as_slice(),
        kept.as_slice(),
        c.pending.as_slice(),
    )
}
