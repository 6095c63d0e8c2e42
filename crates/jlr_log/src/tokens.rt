//! The tokens, and the steps that change what they know.
ghost use Rattle.std.specs.Prelude.{◌≡◌, ◌+◌, ◌<◌, [], ◌++◌};
ghost use Rattle.atomic_table.specs.Seated.{TableId};
ghost use Rattle.jlr_log.specs.Views.{knower};
ghost use Rattle.jlr_log.specs.Rule.{Knows};
ghost use Rattle.jlr_log.specs.Seeing.{AllOf, seen, whole_history};

use crate::rule::{Add, Deal, Meet, Naming, OneLog, Owned, Part, Telling, View};
use atomic_table::{Badge, Seat, Table};
use std::alloc::{AllocError, Global};
use std::marker::{Brand, Model, PhantomData};
use std::mem;

/// A history with no entry, which no type stands for yet. Contracts see what names it.
#[derive(Drop)]
pub struct Blank<E: Owned> {
    table: Table<(), View<E>, (), OneLog, Global>,
    seat: Seat<(), View<E>>,
}

impl<E: Owned> Model for Blank<E> {
    ghost use Rattle.std.specs.Prelude.{◌≡◌, []};
    ghost use Rattle.atomic_table.specs.Seated.{TableId};
    ghost use Rattle.jlr_log.specs.Views.{knower};

    ghost Value = { TableId };

    ghost view = { λ b. b.table.shared.table_id };

    ghost invariant = { λ b. (b.table.shared.table_id.words ≡ 1) × (b.seat.table_id ≡ b.table.shared.table_id)
        × (b.seat.me ≡ (knower [] 0, [])) };
}

/// The table of one word, which is never written.
#[derive(Drop)]
pub struct Log<E: Owned, B: Naming> {
    table: Table<(), View<E>, (), OneLog, Global>,
    of: PhantomData<B>,
    ghost words: { table.shared.table_id.words ≡ 1 },
    ghost is: { table.shared.table_id ≡ B.table },
}

/// Who knows the whole history.
#[derive(Drop)]
pub struct Keeper<E, B: Naming> {
    seat: Seat<(), View<E>>,
    of: PhantomData<B>,
}

impl<E, B: Naming> Model for Keeper<E, B> {
    ghost use Rattle.std.specs.Prelude.{◌≡◌, []};
    ghost use Rattle.jlr_log.specs.Seeing.{Whole, whole_in, IsKeeper};

    ghost Value = { Whole E };

    ghost view = { λ k. whole_in k.seat.me.0 };

    ghost invariant = { λ k. (k.seat.table_id ≡ B.table) × (k.seat.me.1 ≡ []) × IsKeeper k.seat.me.0 };
}

/// What a seat has seen.
#[derive(Drop)]
pub struct Pass<E, B: Naming> {
    badge: Badge<View<E>>,
    of: PhantomData<B>,
}

impl<E, B: Naming> Model for Pass<E, B> {
    ghost use Rattle.std.specs.Prelude.{◌≡◌};
    ghost use Rattle.jlr_log.specs.Seeing.{Seen, seen_in, IsSeated};

    ghost Value = { Seen E };

    ghost view = { λ p. seen_in p.badge.views };

    ghost invariant = { λ p. (p.badge.table_id ≡ B.table) × IsSeated p.badge.views };
}

impl<E: Owned> Blank<E> {
    /// Such a history. It takes a table of one word.
    ///
    /// # Errors
    /// `AllocError` where there is no memory.
    pub fn new(alloc: Global) -> Result<Self, AllocError> {
        let (table, seat) = Table::of_words(alloc, &[0], &())?;
        Ok(Blank { table, seat })
    }

    /// The history under a name.
    pub fn open<B: Naming>(self) -> (Log<E, B>, Keeper<E, B>)
        requires { self ≡ B.table }
        ensures { result.1 ≡ whole_history [] 0 }
    {
        let Blank { table, seat } = self;
        (
            Log {
                table,
                of: PhantomData,
            },
            Keeper {
                seat,
                of: PhantomData,
            },
        )
    }
}

impl<E: Owned, B: Naming> Log<E, B> {
    /// The next seat, which has seen all.
    pub fn deal(&self, keeper: &mut Keeper<E, B>) -> Pass<E, B>
        ensures pass { result ≡ seen keeper.old.dealt keeper.old.all }
        ensures keeper { keeper.new ≡ whole_history keeper.old.all (keeper.old.dealt + 1) }
    {
        let Keeper { seat, .. } = keeper;
        let token = self.table.shared.split_seat::<Deal>(seat);
        Pass {
            badge: token.into_badge(),
            of: PhantomData,
        }
    }

    /// Entries are added to the history, all of one seat, which has then seen all. Up to then it knew all that was its
    /// own.
    pub fn tell<J: Telling<E>>(&self, keeper: &mut Keeper<E, B>, pass: &mut Pass<E, B>)
        requires { AllOf E.owner pass.old.seat J.told }
        ensures knew { Knows E.owner pass.old.seat pass.old.known keeper.old.all }
        ensures keeper { keeper.new ≡ whole_history (keeper.old.all ++ J.told) keeper.old.dealt }
        ensures pass { pass.new ≡ seen pass.old.seat (keeper.old.all ++ J.told) }
    {
        let Keeper { seat, .. } = keeper;
        let Pass { badge, .. } = pass;
        let shared = &self.table.shared;
        let token = mem::replace(badge, Badge::blank()).into_seat::<()>();
        shared.join_seat::<Meet>(seat, token);
        shared.load::<Add<J>>(seat, 0);
        let token = shared.split_seat::<Part>(seat);
        *badge = token.into_badge();
    }

    /// Nothing is added, and the seat has then seen all. Up to then it knew all that was its own.
    pub fn look(&self, keeper: &mut Keeper<E, B>, pass: &mut Pass<E, B>)
        ensures knew { Knows E.owner pass.old.seat pass.old.known keeper.old.all }
        ensures keeper { keeper.new ≡ keeper.old }
        ensures pass { pass.new ≡ seen pass.old.seat keeper.old.all }
    {
        self.tell::<Brand>(keeper, pass);
    }
}
