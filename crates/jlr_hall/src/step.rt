//! The entries of the one history of a hall, which exists in proofs alone.
use jlr_event::event::{Event, Reply};
use jlr_log::Owned;
use std::marker::Brand;

/// A step of the core: which seat's it was, what came, what went back, and whether the book was cut right before it. No
/// value of it is made.
pub struct Step<R> {
    pub seat: u8,
    pub event: Event<R>,
    pub reply: Reply<R>,
    pub cuts: bool,
}

impl<R> Owned for Step<R> {
    ghost owner = { λ e. e.seat };
}

/// The limits of a hall's heap, which the types of the hall and of its seats know.
pub trait Limited {
    ghost use Rattle.jlr_types.specs.declared.limits.Limits.{Limits};

    ghost limits: { Limits };
}

impl Limited for Brand {
    ghost use Rattle.jlr_hall.specs.Least.{least};

    ghost limits = { least };
}
