//! What a call returns beside 0 and the number of a refusal, 1 to 19.
ghost use Rattle.std.specs.Prelude.{◌≡◌};
ghost use Rattle.jlr_embed.specs.Calls.{limit_status};

use jlr_types::LimitFault;

/// The handle is closed.
pub const CLOSED: u32 = 32;

/// An argument is out of its range.
pub const RANGE: u32 = 33;

/// There was nothing to do, or nothing there.
pub const IDLE: u32 = 34;

/// Which limit is out of its range, the first in the order in which they are given: 35 to 38. The last two of a heap
/// are fixed here.
pub fn limit(fault: LimitFault) -> u32
    ensures { result ≡ limit_status fault }
{
    match fault {
        LimitFault::Cells => 35,
        LimitFault::Sessions => 36,
        LimitFault::Resources => 37,
        LimitFault::SoftAge => 38,
        LimitFault::Trace | LimitFault::Budget => RANGE,
    }
}
