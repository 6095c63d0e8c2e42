//! What carries the commands of a session out.
use jlr_machine::ask::Answer;
use jlr_wire::command::Command;

/// A way to carry commands out, one at a time, on a heap `H` with the help of a device `D`, and to settle after each
/// reply.
pub trait CarryOut<H, D> {
    ghost use Rattle.jlr_session.specs.Carrying.{Carrying};

    // what may come of a command, and of a settling, to the heap and the device
    ghost carries: { Carrying (H × D) };

    /// Carries a command out and puts its answer into the place of another. `bye` is the session's own and never comes
    /// here.
    fn carry_out(heap: &mut H, device: &mut D, command: &Command<'_>, answer: &mut Answer)
        ensures { carries.command (heap.old, device.old) command.now answer.new (heap.new, device.new) };

    /// Does what is left to do after a reply went out.
    fn settle(heap: &mut H)
        ensures { (device : D) → carries.settling (heap.old, device) (heap.new, device) };
}
