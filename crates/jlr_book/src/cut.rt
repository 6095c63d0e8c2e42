//! What a cut does to the trace and the core.
ghost use Rattle.std.specs.Prelude.{◌≡◌, ◌≤◌, ◌<◌, ◌+◌, ◌^◌, true, false, cond, [], length, None};
ghost use Rattle.std.specs.Prelude.{IfOk, OnOk, OnErr, vec_len, vec_capacity};
ghost use Rattle.jlr_steps.specs.Steps.{Steps};
ghost use Rattle.jlr_machine.specs.WellFormed.{IsImage};
ghost use Rattle.jlr_plain.specs.Records.{replayed};
ghost use Rattle.jlr_book.specs.Histories.{LeadsToCore};
ghost use Rattle.jlr_book.specs.Rules.{GivesUp};
ghost use Rattle.jlr_book.specs.Writing.{Stands};

use crate::image::image::Image;
use jlr_event::event::{Event, Reply};
use jlr_machine::ask::{Answer, Ask};
use jlr_machine::choice::Choice;
use jlr_plain::record::Record;
use jlr_steps::engine::Core;
use std::alloc::{AllocError, Global};

/// Moves the image to the core's machine, with its cycle closed, and empties the trace: in a small heap by a copy, in a
/// large one the image takes the trace over and follows it.
///
/// # Errors
/// `AllocError` where there is no memory. Nothing has changed then.
fn move_image<R>(
    alloc: Global,
    core: &Core<R>,
    trace: &mut Vec<Record>,
    image: &mut Image,
) -> Result<(), AllocError>
    requires image { IsImage image.old }
    requires ends { LeadsToCore image.old (replayed image.old trace.old.items) core.now }
    ensures image { OnOk result (image.new ≡ record core.now.machine { cycle_open = false }) }
    ensures items { OnOk result (trace.new.items ≡ []) }
    ensures room { vec_capacity trace.old ≤ vec_capacity trace.new }
    ensures err { OnErr result ((trace.new ≡ trace.old) × (image.new ≡ image.old)) }
{
    if image.is_followed(trace.as_slice()) {
        return image.lead_on(trace);
    }
    let machine = core.image(alloc)?;
    image.put(machine);
    trace.clear();
    Ok(())
}

/// The core's machine becomes the image, and the trace is let go. Says how many numbers were used: giving up an open
/// cycle takes one more.
///
/// # Errors
/// `AllocError` where there is no memory for the image. Nothing has changed then.
#[inline(never)]
pub(crate) fn cut_to_image<R: Drop>(
    alloc: Global,
    core: &mut Core<R>,
    choice: &mut Choice,
    trace: &mut Vec<Record>,
    image: &mut Image,
) -> Result<u64, AllocError>
    requires fits { vec_len trace.old + 1 < 2 ^ 64 }
    requires stands { Stands core.old }
    requires choice { length core.old.machine.objects ≤ choice.old.cells }
    requires image { IsImage image.old }
    requires ends { LeadsToCore image.old (replayed image.old trace.old.items) core.old }
    ensures used { IfOk result (λ used. used ≡ vec_len trace.old + cond core.old.machine.cycle_open 1 0) }
    ensures image { OnOk result (image.new ≡ record core.old.machine { cycle_open = false }) }
    ensures gives_up { OnOk result (GivesUp core.old.machine.cycle_open core.old core.new) }
    ensures machine { OnOk result (core.new.machine ≡ record core.old.machine { cycle_open = false }) }
    ensures stands { OnOk result (Stands core.new) }
    ensures items { OnOk result (trace.new.items ≡ []) }
    ensures room { vec_capacity trace.old ≤ vec_capacity trace.new }
    ensures choice { choice.new.cells ≡ choice.old.cells }
    ensures err { OnErr result ((core.new ≡ core.old) × (trace.new ≡ trace.old) × (image.new ≡ image.old)) }
{
    let used = trace.len() as u64;
    move_image(alloc, core, trace, image)?;
    Ok(close_cycle(core, choice, used))
}

/// Gives up a cycle, if one is open, which uses a number. Says how many are used then.
fn close_cycle<R: Drop>(core: &mut Core<R>, choice: &mut Choice, used: u64) -> u64
    requires fits { used + 1 < 2 ^ 64 }
    requires stands { Stands core.old }
    requires choice { length core.old.machine.objects ≤ choice.old.cells }
    ensures used { result ≡ used + cond core.old.machine.cycle_open 1 0 }
    ensures gives_up { GivesUp core.old.machine.cycle_open core.old core.new }
    ensures machine { core.new.machine ≡ record core.old.machine { cycle_open = false } }
    ensures stands { Stands core.new }
    ensures choice { choice.new.cells ≡ choice.old.cells }
{
    if core.cycle_open() {
        give_up(core, choice);
        return used + 1;
    }
    used
}

/// Gives up an open cycle. The answer is yes, and no resource goes with it.
fn give_up<R: Drop>(core: &mut Core<R>, choice: &mut Choice)
    requires cycle { core.old.machine.cycle_open ≡ true }
    requires stands { Stands core.old }
    requires choice { length core.old.machine.objects ≤ choice.old.cells }
    ensures step { Steps core.old (Event.Ask Ask.Abandon) (Reply.Answered (Answer.Truth true) None) core.new }
    ensures machine { core.new.machine ≡ record core.old.machine { cycle_open = false } }
    ensures stands { Stands core.new }
    ensures choice { choice.new.cells ≡ choice.old.cells }
{
    core.answer(&Ask::Abandon, choice);
}
