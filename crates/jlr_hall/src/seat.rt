//! One asker's end.
ghost use Rattle.std.specs.Prelude.{◌≡◌, ◌+◌, ◌<◌};

use crate::step::{Limited, Step};
use jlr_log::{Naming, Pass};
use std::alloc::Global;
use std::marker::Model;

/// The seat of a session, of the marker, the handler or the cleaner. Contracts see its number, and the history of its
/// hall up to its last step.
#[derive(Drop)]
pub struct Seat<R, L: Naming + Limited> {
    alloc: Global,
    pub(crate) index: u8,
    pub(crate) pass: Pass<Step<R>, L>,
}

impl<R, L: Naming + Limited> Model for Seat<R, L> {
    ghost use Rattle.std.specs.Prelude.{◌≡◌, ◌+◌, ◌<◌};
    ghost use Rattle.jlr_log.specs.Seeing.{Seen};
    ghost use Rattle.jlr_hall.specs.declared.step.Step.{Step};

    ghost Value = { Seen (Step R) };

    ghost view = { λ s. s.pass };

    ghost invariant = { λ s. (s.pass.seat ≡ s.index) × (s.index < L.limits.sessions + 3) };
}

impl<R, L: Naming + Limited> Seat<R, L> {
    /// A seat at which nothing was asked.
    pub(crate) fn new(alloc: Global, index: u8, pass: Pass<Step<R>, L>) -> Self
        requires { (pass.seat ≡ index) × (index < L.limits.sessions + 3) }
        ensures { result ≡ pass }
    {
        Seat { alloc, index, pass }
    }

    /// Where its memory comes from.
    pub(crate) fn alloc(&self) -> Global {
        self.alloc
    }

    /// Which seat it is: those of the sessions come first, then those of the marker, the handler and the cleaner.
    pub fn index(&self) -> u8
        ensures { result ≡ self.now.seat }
    {
        self.index
    }
}
