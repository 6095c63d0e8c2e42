//! A law of cycles. The function's contract is the law, and its body is empty.
ghost use Rattle.jlr_steps.specs.Cycles.{CountsItsCycles};

use crate::engine::Core;

/// A cycle blackens at most as many cells as there are, and ticks at least as often, and at most as often as the
/// objects in all cells take ticks together: one each, and an array one for each 64 elements. A `Collect` that is
/// answered yes keeps as many objects as its cycle blackened and made new ones.
pub fn a_cycle_keeps_what_it_blackened_and_made<R>(core: &Core<R>)
    ensures { CountsItsCycles core.now }
{
    let _ = core;
}
