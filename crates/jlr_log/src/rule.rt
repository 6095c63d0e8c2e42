//! What tokens know, the rule that ties them, and what each step tells.
use atomic_table::{Join, Play, Split, TableRule};
use std::collections::LinkedList;
use std::marker::{Brand, PhantomData};

/// Names one history.
pub trait Naming {
    ghost use Rattle.atomic_table.specs.Seated.{TableId};

    ghost table: { TableId };
}

impl Naming for Brand {
    ghost use Rattle.jlr_log.specs.Views.{no_table};

    ghost table = { no_table };
}

/// Entries of a history, each of one seat.
pub trait Owned {
    ghost use Rattle.std.specs.Prelude.{ℕ};

    ghost owner: { Self → ℕ };
}

/// The entries that one step adds. The call picks them.
pub trait Telling<E> {
    ghost use Rattle.std.specs.Prelude.{List};

    ghost told: { List E };
}

impl<E> Telling<E> for Brand {
    ghost use Rattle.std.specs.Prelude.{[]};

    ghost told = { [] };
}

/// What a token knows: the keeper's all entries and how many seats were dealt, a seat's its number and what it has
/// seen. No value of it is made.
pub struct View<E> {
    pub keeps: bool,
    pub all: LinkedList<E>,
    pub dealt: u64,
    pub sits: bool,
    pub seat: u64,
    pub known: LinkedList<E>,
}

/// The rule of a history.
pub struct OneLog;

impl<E: Owned> TableRule<(), View<E>, ()> for OneLog {
    ghost use Rattle.std.specs.Prelude.{[]};
    ghost use Rattle.jlr_log.specs.Views.{knower};
    ghost use Rattle.jlr_log.specs.Rule.{KeptViews};

    ghost holds = { λ _ s. KeptViews E.owner s.views };

    ghost first = { λ _. knower [] 0 };
}

/// The keeper takes a seat's token in.
pub(crate) struct Meet;

impl<E> Join<View<E>> for Meet {
    ghost use Rattle.jlr_log.specs.Views.{met, nobody};

    ghost both = { met };

    ghost spent = { nobody };
}

/// It gives the seat's token back.
pub(crate) struct Part;

impl<E> Split<View<E>> for Part {
    ghost use Rattle.jlr_log.specs.Views.{keeper_of, sitter_of};

    ghost left = { keeper_of };

    ghost right = { sitter_of };
}

/// It deals the next seat.
pub(crate) struct Deal;

impl<E> Split<View<E>> for Deal {
    ghost use Rattle.jlr_log.specs.Views.{with_one_more, next_sitter};

    ghost left = { with_one_more };

    ghost right = { next_sitter };
}

/// Entries are added, and the seat has seen all.
pub(crate) struct Add<J> {
    told: PhantomData<J>,
}

impl<E: Owned, J: Telling<E>> Play<(), View<E>> for Add<J> {
    ghost use Rattle.std.specs.Prelude.{◌≡◌};
    ghost use Rattle.jlr_log.specs.Rule.{Added};

    ghost then = { λ s old n new. Added E.owner J.told old.0 new.0 × (new.1 ≡ old.1) };
}
