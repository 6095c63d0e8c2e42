//! Opening a hall, and closing it.
ghost use Rattle.std.specs.Prelude.{◌≡◌, ℕ, ◌+◌, ◌<◌, true, IfOk, IfErr, IfNone, IfSome, [], None, Ok};
ghost use Rattle.std.specs.Prelude.{length, slice_index_or};
ghost use Rattle.jlr_log.specs.Seeing.{Seen, seen};
ghost use Rattle.jlr_hall.specs.declared.step.Step.{Step};
ghost use Rattle.jlr_hall.specs.Closing.{AllThere, Closes, EachKnows, FailsFor, IsLeastMissing, is_there};

use crate::hall::{Hall, Locked};
use crate::seat::Seat;
use crate::step::{Limited, Step};
use jlr_book::book::Book;
use jlr_log::{Blank, Keeper, Log, Naming};
use jlr_types::Limits;
use std::alloc::{AllocError, Global};
use std::sync::{Condvar, Mutex};

/// Why a hall's book is not given back.
#[derive(Clone, Copy, PartialEq, Eq, Debug)]
pub enum CloseFault {
    /// The least seat that was not handed in.
    Disagree(u8),
    /// There was no memory. It never comes: a close takes none.
    NoMemory,
}

/// The seats beside those of the sessions: the marker's, the handler's and the cleaner's.
pub(crate) const LOOPS: u8 = 3;

impl<R: Drop, L: Naming + Limited> Hall<R, L> {
    /// A hall over an empty heap of these limits, with its seats: one for each session, then those of the marker, the
    /// handler and the cleaner. None of them has asked anything, and the history has no step.
    ///
    /// # Errors
    /// `AllocError` where there is no memory.
    pub fn open(
        alloc: Global,
        limits: Limits,
        blank: Blank<Step<R>>,
    ) -> Result<(Hall<R, L>, Vec<Seat<R, L>>), AllocError>
        requires name { blank ≡ L.table }
        requires limits { limits ≡ L.limits }
        ensures count { IfOk result (λ r. length r.1.items ≡ limits.sessions + 3) }
        ensures seats { IfOk result (λ r. (k : ℕ) (p : Seen (Step R)) → k < limits.sessions + 3
            → slice_index_or r.1.items k p ≡ seen k []) }
    {
        let (log, mut keeper) = blank.open::<L>();
        let count = limits.sessions as u8 + LOOPS;
        let mut seats = Vec::with_capacity(alloc, usize::from(count))?;
        for index in 0..count {
            let pass = log.deal(&mut keeper);
            seats.push(Seat::new(alloc, index, pass))?;
        }
        let mut removers = Vec::with_capacity(alloc, usize::from(count))?;
        for _ in 0..limits.sessions {
            removers.push(Condvar::new())?;
        }
        let book = Book::new(alloc, limits)?;
        let locked = Locked::new(book, keeper);
        Ok((Hall::over(locked, log, removers, count), seats))
    }

    /// A hall with so many seats over what lies under its lock.
    fn over(locked: Locked<R, L>, log: Log<Step<R>, L>, removers: Vec<Condvar>, seats: u8) -> Self
        requires { seats ≡ L.limits.sessions + 3 }
    {
        Hall {
            locked: Mutex::new(locked),
            log,
            marker: Condvar::new(),
            handler: Condvar::new(),
            cleaner: Condvar::new(),
            removers,
            closed: Condvar::new(),
            seats,
        }
    }

    /// The book, where each seat is there. One history, a run of the machine from the empty heap, ends where the book's
    /// core stands and with its trace, and has of each seat just what that seat asked and was told. Nothing is compared
    /// for that.
    ///
    /// # Errors
    /// `Disagree` with the least seat that was not handed in: nothing is known of its entries.
    pub fn close(self, seats: Vec<Seat<R, L>>) -> Result<Book<R>, CloseFault>
        ensures closes { IfOk result (λ book. Closes L.limits seats.items book) }
        ensures fault { IfErr result (λ fault. FailsFor L.limits seats.items fault) }
    {
        let Hall {
            locked,
            log,
            seats: count,
            ..
        } = self;
        let Locked { book, keeper, .. } = locked.into_inner();
        if let Some(seat) = least_missing(&seats, count) {
            drop(book);
            return Err(CloseFault::Disagree(seat));
        }
        look_by_each(&log, keeper, seats);
        Ok(book)
    }
}

/// Each seat looks at the history: it knew all that was its own.
fn look_by_each<R: Drop, L: Naming + Limited>(
    log: &Log<Step<R>, L>,
    keeper: Keeper<Step<R>, L>,
    seats: Vec<Seat<R, L>>,
)
    ensures { EachKnows keeper.all seats.items }
{
    let mut keeper = keeper;
    for seat in seats {
        let Seat { mut pass, .. } = seat;
        log.look(&mut keeper, &mut pass);
    }
}

/// The least of so many seats that is not among these.
fn least_missing<R, L: Naming + Limited>(seats: &Vec<Seat<R, L>>, count: u8) -> Option<u8>
    requires { count ≡ L.limits.sessions + 3 }
    ensures none { IfNone result (AllThere L.limits seats.now.items) }
    ensures some { IfSome result (λ k. IsLeastMissing L.limits k seats.now.items) }
{
    for k in 0..count {
        if !is_there(seats, k) {
            return Some(k);
        }
    }
    None
}

/// Whether a seat is among these.
fn is_there<R, L: Naming + Limited>(seats: &Vec<Seat<R, L>>, k: u8) -> bool
    ensures { result ≡ is_there k seats.now.items }
{
    for seat in seats {
        if seat.index() == k {
            return true;
        }
    }
    false
}
