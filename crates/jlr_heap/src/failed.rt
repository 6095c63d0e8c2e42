//! Why a call on a file or a socket did not succeed.
ghost use Rattle.std.specs.Prelude.{◌≡◌};

use jlr_types::{Fault, Refusal};

/// Why a call on a file or a socket did not succeed.
#[derive(Clone, Copy, PartialEq, Eq, Debug)]
pub enum Failed {
    /// The heap refused it.
    Refused(Refusal),
    /// The system failed it.
    Faulted(Fault),
}

impl From<Refusal> for Failed {
    ghost use Rattle.jlr_heap.specs.declared.failed.Failed.TheVariants.{Refused};

    ghost from_gives = { λ by e. e ≡ Refused by };

    fn from(by: Refusal) -> Failed {
        Failed::Refused(by)
    }
}
