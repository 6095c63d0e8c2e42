//! One book under one lock, asked by many seats.
ghost use Rattle.std.specs.Prelude.{◌≡◌, ◌≢◌, ◌↔◌, ◌+◌, ◌^◌, ◌<◌, ◌++◌, ◌&&◌, ◌==◌, [], IsTrue, not, false};
ghost use Rattle.std.specs.Sync.Mutex.{mutex_guard_value};
ghost use Rattle.jlr_machine.specs.Data.{Brings};
ghost use Rattle.jlr_event.specs.Asks.{hands_in};
ghost use Rattle.jlr_event.specs.Events.{ask_of};
ghost use Rattle.jlr_machine.specs.declared.ask.Ask.TheVariants.{Remove};
ghost use Rattle.jlr_event.specs.declared.event.Event.TheVariants.{Ask as Asks, Mark};
ghost use Rattle.jlr_log.specs.Rule.{Knows};
ghost use Rattle.jlr_log.specs.Seeing.{seen, whole_history};
ghost use Rattle.jlr_hall.specs.OneHistory.{IsWhole, seat_of};
ghost use Rattle.jlr_hall.specs.Asking.{Asked, AskedIn, HasItsResource, IsOwn};
ghost use Rattle.jlr_hall.specs.Due.{HasMarking, IsDueIn};
ghost use Rattle.jlr_hall.specs.Locking.{effect_of};
ghost use Rattle.jlr_hall.specs.Telling.{added};

use crate::chairs::{Chairs, MOST_SESSIONS, Removal};
use crate::closing::LOOPS;
use crate::dues::Dues;
use crate::effect::{Effect, says_queued};
use crate::lock::take;
use crate::seat::Seat;
use crate::step::{Limited, Step};
use crate::vigil::Vigil;
use jlr_book::book::Book;
use jlr_book::event::decline;
use jlr_event::event::{Event, Reply};
use jlr_log::{Keeper, Log, Naming, Pass, Telling};
use jlr_machine::ask::Ask;
use jlr_machine::data::CopyRoom;
use jlr_types::{Handle, Mutator, Refusal};
use std::marker::{Brand, Model};
use std::snapshot::Snapshot;
use std::sync::{Condvar, Mutex, MutexGuard, Wait};

/// What lies under the lock: the book, who knows its whole history, who sits where, what is to come, and what that
/// history says of the resources that are open. Contracts see the book and the history.
#[derive(Drop)]
pub(crate) struct Locked<R, L: Naming + Limited> {
    pub(crate) book: Book<R>,
    pub(crate) keeper: Keeper<Step<R>, L>,
    pub(crate) stopped: bool,
    pub(crate) resting: Resting,
    chairs: Chairs,
    dues: Dues,
}

/// Which loops wait for the next event, since what they asked was refused: what they would find is not done before.
#[derive(Clone, Copy)]
pub(crate) struct Resting {
    pub(crate) marker: bool,
    pub(crate) handler: bool,
    pub(crate) cleaner: bool,
}

impl<R, L: Naming + Limited> Model for Locked<R, L> {
    ghost use Rattle.jlr_hall.specs.Locking.{IsLocked, Under, under};

    ghost Value = { Under R };

    ghost view = { λ l. under l.book l.keeper.all };

    ghost invariant = { λ l. IsLocked L.limits l.book l.dues l.keeper.all };
}

/// Who would find something to do.
#[derive(Clone, Copy)]
pub(crate) struct Looks {
    marker: bool,
    handler: bool,
    cleaner: bool,
    /// The seats whose `remove` need not wait any more, a bit for each.
    removers: u64,
    /// Whoever waits until something is closed.
    closed: bool,
}

impl<R: Drop, L: Naming + Limited> Locked<R, L> {
    pub(crate) fn new(book: Book<R>, keeper: Keeper<Step<R>, L>) -> Self
        requires whole { IsWhole L.limits book keeper.all }
        requires none { keeper.all ≡ [] }
    {
        Locked {
            book,
            keeper,
            stopped: false,
            resting: Resting {
                marker: false,
                handler: false,
                cleaner: false,
            },
            chairs: Chairs::new(),
            dues: Dues::new(),
        }
    }

    /// One event of a seat, of this effect: a step of the core, and of the one history. Or the book declines it, and it
    /// is none.
    #[inline(always)]
    pub(crate) fn ask(
        &mut self,
        log: &Log<Step<R>, L>,
        pass: &mut Pass<Step<R>, L>,
        seat: u8,
        event: Event<R>,
        effect: Effect,
        room: Option<CopyRoom>,
    ) -> Reply<R>
        requires brought { Brings room (ask_of event) }
        requires seat { (pass.old.seat ≡ seat) × (seat < L.limits.sessions + 3) }
        requires effect { effect ≡ effect_of event }
        ensures asked { AskedIn L.limits self.old.log pass.old event result pass.new }
        ensures out { HasItsResource result }
    {
        let Locked {
            book,
            keeper,
            dues,
            ..
        } = self;
        book.is_history();
        let was = Snapshot::of(&*book);
        let asked = Snapshot::of(&event);
        let cycle_open = book.cycle_open();
        let base = book.base();
        let reply = book.step(seat, event, room);
        note::<R, L, Brand>(log, keeper, pass, seat, &was, &asked, &reply, book);
        dues.owe_where(was_given_up(cycle_open, base, book));
        dues.after(seat, effect, &reply);
        reply
    }

    /// Whether a cycle is to begin: none is open, and the book says that one is due, or since the last one began a
    /// session left with resources open, there was no room for a resource, or it was given up.
    pub(crate) fn is_due(&self) -> bool
        ensures due { IsTrue result ↔ IsDueIn self.now.book self.now.log }
        ensures whole { IsWhole L.limits self.now.book self.now.log }
    {
        self.book.marker_due() || self.dues.owed() && !self.book.cycle_open()
    }

    /// Whether the marker would find something to do: a cycle that is open, or one to begin.
    pub(crate) fn has_marking(&self) -> bool
        ensures { IsTrue result ↔ HasMarking self.now.book self.now.log }
    {
        self.book.cycle_open() || self.is_due()
    }

    /// Whether something is pending, for the handler.
    pub(crate) fn has_pending(&self) -> bool
        ensures pending { IsTrue result ↔ (self.now.book.core.machine.pending ≢ []) }
        ensures whole { IsWhole L.limits self.now.book self.now.log }
    {
        !self.book.pending_empty()
    }

    /// Whether something stands in the cleaner's line.
    pub(crate) fn has_line(&self) -> bool
        ensures line { IsTrue result ↔ (self.now.book.core.machine.line ≢ []) }
        ensures whole { IsWhole L.limits self.now.book self.now.log }
    {
        !self.book.line_empty()
    }

    /// Whether a `Remove` is to wait: its queue is empty, its client is not gone, and nothing ends.
    fn is_waiting(&self, seat: u8, removal: Removal) -> bool {
        !self.stopped
            && !self.chairs.nobody_waits()
            && !self.chairs.is_gone(seat)
            && self.book.would_wait(removal.mutator, removal.queue)
    }

    /// The seats that wait in a `Remove` and need not any more, a bit for each.
    fn satisfied(&self) -> u64 {
        let mut seats = 0;
        for seat in 0..MOST_SESSIONS {
            if let Some(removal) = self.chairs.removal(seat) {
                if !self.is_waiting(seat, removal) {
                    seats |= 1 << seat;
                }
            }
        }
        seats
    }

    /// Whether something may still be closed: a session's connection, or what a loop that does not rest would find.
    fn may_close(&self) -> bool {
        self.chairs.is_any_there()
            || !self.resting.marker && self.has_marking()
            || !self.resting.handler && self.has_pending()
            || !self.resting.cleaner && self.has_line()
    }

    /// What an answered event means for who waits. Who would find something to do now.
    fn looks(&mut self, effect: Effect, reply: &Reply<R>) -> Looks
        ensures { self.new ≡ self.old }
    {
        self.chairs.after(effect, reply);
        Looks {
            marker: self.has_marking(),
            handler: self.has_pending(),
            cleaner: self.has_line(),
            removers: match effect {
                Effect::Queues if says_queued(reply) => self.satisfied(),
                _ => 0,
            },
            closed: matches!(
                effect,
                Effect::Leaves | Effect::Finishes | Effect::Collects | Effect::Queues
            ) || !self.may_close(),
        }
    }
}

/// Whether a step of a book, which had a cycle open or none and this base, gave a cycle up: for a cut.
fn was_given_up<R: Drop>(cycle_open: bool, base: u64, book: &Book<R>) -> bool
    ensures { result ≡ (cycle_open && not (book.now.base == base)) }
{
    cycle_open && book.base() != base
}

/// What the core was asked and answered stands in the history from here on.
#[inline(always)]
fn note<R, L: Naming, J: Telling<Step<R>>>(
    log: &Log<Step<R>, L>,
    keeper: &mut Keeper<Step<R>, L>,
    pass: &mut Pass<Step<R>, L>,
    seat: u8,
    was: &Snapshot<Book<R>>,
    event: &Snapshot<Event<R>>,
    reply: &Reply<R>,
    book: &Book<R>,
)
    requires told { J.told ≡ added seat was.now.value event.now.value reply.now book.now }
    requires seat { pass.old.seat ≡ seat }
    ensures knew { Knows seat_of seat pass.old.known keeper.old.all }
    ensures keeper { keeper.new ≡
        whole_history (keeper.old.all ++ added seat was.now.value event.now.value reply.now book.now) keeper.old.dealt }
    ensures pass { pass.new ≡
        seen seat (keeper.old.all ++ added seat was.now.value event.now.value reply.now book.now) }
{
    log.tell::<J>(keeper, pass);
}

/// The book that all seats ask.
#[derive(Drop)]
pub struct Hall<R, L: Naming + Limited> {
    pub(crate) locked: Mutex<Locked<R, L>>,
    pub(crate) log: Log<Step<R>, L>,
    pub(crate) marker: Condvar,
    pub(crate) handler: Condvar,
    pub(crate) cleaner: Condvar,
    /// For each session's seat: who waits in a `remove` there.
    pub(crate) removers: Vec<Condvar>,
    /// Whoever waits until something is closed.
    pub(crate) closed: Condvar,
    pub(crate) seats: u8,
    pub ghost count: { seats ≡ L.limits.sessions + 3 },
}

impl<R: Drop, L: Naming + Limited> Hall<R, L> {
    /// Tells the loops and all who wait to end.
    pub fn stop<T: Wait>(&self, rt: &T) {
        self.locked.lock(rt).stopped = true;
        self.marker.notify_all();
        self.handler.notify_all();
        self.cleaner.notify_all();
        self.closed.notify_all();
        self.wake_removers();
    }

    /// How many of its seats are of sessions.
    pub fn sessions(&self) -> u8
        ensures sessions { result ≡ L.limits.sessions }
        ensures fits { result + 3 < 2 ^ 8 }
    {
        self.seats - LOOPS
    }

    /// The budget of a piece of marking.
    pub fn budget<T: Wait>(&self, rt: &T) -> u32
        ensures { result ≡ L.limits.budget }
    {
        self.locked.lock(rt).book.limits().budget
    }

    /// How many cells its heap has.
    pub(crate) fn cells<T: Wait>(&self, rt: &T) -> u32
        ensures { result ≡ L.limits.cells }
    {
        self.locked.lock(rt).book.limits().cells
    }

    /// A client of this number sits down on the seat of a session: from now on a `remove` of that seat waits.
    pub fn sit<T: Wait>(&self, rt: &T, seat: u8, client: u32) {
        self.locked.lock(rt).chairs.sit(seat, client);
    }

    /// The client at the seat of a session stands up, once its connection is closed.
    pub fn stand<T: Wait>(&self, rt: &T, seat: u8) {
        self.locked.lock(rt).chairs.stand(seat);
        self.closed.notify_all();
    }

    /// The client of this number is gone: a `remove` in which its seat waits ends and takes nothing, and so does each
    /// later one, until another client sits there. Where it sits no more, nothing changes.
    pub fn call_off<T: Wait>(&self, rt: &T, client: u32) {
        let waits = self.locked.lock(rt).chairs.call_off(client);
        if let Some(seat) = waits {
            self.wake_remover(seat);
        }
    }

    /// No `remove` waits any more: each asks once, and is answered by what it finds. The loops go on.
    pub fn call_all_off<T: Wait>(&self, rt: &T) {
        self.locked.lock(rt).chairs.call_all_off();
        self.closed.notify_all();
        self.wake_removers();
    }

    /// How often something was closed, modulo 2^64: a client stood up, or a job ended.
    pub fn closings<T: Wait>(&self, rt: &T) -> u64 {
        self.locked.lock(rt).chairs.closings()
    }

    /// Waits until something is closed, since it was so often; not where nothing is there to be closed, nor where the
    /// hall is to end.
    pub fn wait_for_closing<T: Wait>(&self, rt: &T, closings: u64) {
        drop(
            self.closed.wait_while(rt, self.locked.lock(rt), |l| {
                !l.stopped
                    && !l.chairs.nobody_waits()
                    && l.chairs.closings() == closings
                    && l.may_close()
            }),
        );
    }

    /// Wakes those who would find something to do. Nobody else is woken; who waits looks again under the lock.
    pub(crate) fn wake(&self, looks: Looks) {
        if looks.marker {
            self.marker.notify_all();
        }
        if looks.handler {
            self.handler.notify_all();
        }
        if looks.cleaner {
            self.cleaner.notify_all();
        }
        if looks.closed {
            self.closed.notify_all();
        }
        if looks.removers != 0 {
            for seat in 0..MOST_SESSIONS {
                if looks.removers >> seat & 1 == 1 {
                    self.wake_remover(seat);
                }
            }
        }
    }

    /// Whoever waits at a seat looks again.
    fn wake_remover(&self, seat: u8) {
        if let Some(bell) = self.removers.get(usize::from(seat)) {
            bell.notify_all();
        }
    }

    /// Whoever waits at any seat looks again.
    fn wake_removers(&self) {
        for bell in &self.removers {
            bell.notify_all();
        }
    }

    /// Takes the lock once a `Remove` of a seat need not wait, or its client is gone, or the hall is to end.
    fn enter<T: Wait>(&self, rt: &T, seat: u8, removal: Removal) -> MutexGuard<'_, Locked<R, L>> {
        let mut locked = self.locked.lock(rt);
        if let Some(bell) = self.removers.get(usize::from(seat)) {
            locked.chairs.waits(seat, Some(removal));
            locked = bell.wait_while(rt, locked, |l| l.is_waiting(seat, removal));
            locked.chairs.waits(seat, None);
        }
        locked
    }
}

impl<R: Drop, L: Naming + Limited> Seat<R, L> {
    /// One event of those that this seat may ask: a session's those of its mutator, the marker's `Begin`, `Collect`,
    /// `Abandon` and pieces of marking, the handler's `HandOver`, the cleaner's `TakeUp` and the ends of its jobs. It
    /// is one step of the one history of the hall, with its reply, and what comes back is what that step gave, the
    /// resource too; or the book declines an ask that ends nothing, because memory or entry numbers ran out. A `Remove`
    /// does not wait. Nothing is read or written while the lock is held. With the end of a call that read comes the
    /// room in which it is told again: whoever asks it makes that room before the call.
    pub fn ask<T: Wait>(
        &mut self,
        rt: &T,
        hall: &Hall<R, L>,
        event: Event<R>,
        room: Option<CopyRoom>,
    ) -> Reply<R>
        requires own { IsOwn self.old.seat L.limits.sessions (ask_of event) }
        requires room { Brings room (ask_of event) }
        ensures { Asked L.limits self.old event result self.new }
    {
        self.ask_once(rt, hall, event, room)
    }

    /// One `Remove`, asked once its queue holds something, or once the hall is to end. The client at the seat is looked
    /// after while it waits; where nobody can, or it is gone, the ask is declined: nothing is taken off the queue.
    pub(crate) fn remove<T: Wait, V: Vigil>(
        &mut self,
        rt: &T,
        hall: &Hall<R, L>,
        vigil: &V,
        removal: Removal,
    ) -> Reply<R>
        ensures asked { Asked L.limits self.old (Asks (Remove removal.mutator removal.queue)) result self.new }
        ensures out { HasItsResource result }
    {
        let Removal { mutator, queue } = removal;
        let locked = take(&hall.locked, rt);
        if !locked.is_waiting(self.index, removal) {
            return self.remove_under(hall, locked, mutator, queue);
        }
        drop(locked);
        if !vigil.begin() {
            return decline(Refusal::NoMemory);
        }
        let locked = hall.enter(rt, self.index, Removal { mutator, queue });
        let reply = self.remove_under(hall, locked, mutator, queue);
        vigil.end();
        reply
    }

    /// A `Remove` under the lock, which is let go. It is declined where the client at the seat is gone.
    fn remove_under(
        &mut self,
        hall: &Hall<R, L>,
        locked: MutexGuard<'_, Locked<R, L>>,
        mutator: Mutator,
        queue: Handle,
    ) -> Reply<R>
        ensures asked { Asked L.limits self.old (Asks (Remove mutator queue)) result self.new }
        ensures out { HasItsResource result }
    {
        if locked.chairs.is_gone(self.index) {
            return decline(Refusal::NoMemory);
        }
        self.ask_plain_under(hall, locked, Ask::Remove { mutator, queue })
    }

    /// One ask that hands in no resource. A job comes with its resource.
    pub(crate) fn ask_plain<T: Wait>(&mut self, rt: &T, hall: &Hall<R, L>, ask: Ask) -> Reply<R>
        requires plain { hands_in ask ≡ false }
        ensures asked { Asked L.limits self.old (Asks ask) result self.new }
        ensures out { HasItsResource result }
    {
        self.ask_once(rt, hall, Event::ask(ask), None)
    }

    /// The same under the lock, which is let go.
    #[inline(always)]
    pub(crate) fn ask_plain_under(
        &mut self,
        hall: &Hall<R, L>,
        locked: MutexGuard<'_, Locked<R, L>>,
        ask: Ask,
    ) -> Reply<R>
        requires plain { hands_in ask ≡ false }
        ensures asked { AskedIn L.limits (mutex_guard_value locked.entry).log self.old (Asks ask) result self.new }
        ensures out { HasItsResource result }
    {
        self.ask_under(hall, locked, Event::ask(ask), None)
    }

    /// One event. A job comes with its resource.
    pub(crate) fn ask_once<T: Wait>(
        &mut self,
        rt: &T,
        hall: &Hall<R, L>,
        event: Event<R>,
        room: Option<CopyRoom>,
    ) -> Reply<R>
        requires { Brings room (ask_of event) }
        ensures asked { Asked L.limits self.old event result self.new }
        ensures out { HasItsResource result }
    {
        self.ask_under(hall, take(&hall.locked, rt), event, room)
    }

    /// One event under the lock, which is let go. Who would find something to do is woken.
    #[inline(always)]
    pub(crate) fn ask_under(
        &mut self,
        hall: &Hall<R, L>,
        mut locked: MutexGuard<'_, Locked<R, L>>,
        event: Event<R>,
        room: Option<CopyRoom>,
    ) -> Reply<R>
        requires { Brings room (ask_of event) }
        ensures asked { AskedIn L.limits (mutex_guard_value locked.entry).log self.old event result self.new }
        ensures out { HasItsResource result }
    {
        let effect = Effect::of(&event);
        let Seat { index, pass, .. } = self;
        let reply = locked.ask(&hall.log, pass, *index, event, effect, room);
        let looks = locked.looks(effect, &reply);
        drop(locked);
        hall.wake(looks);
        reply
    }

    /// A piece of marking of at most so many cells, which is no entry. Nobody is woken.
    pub(crate) fn mark<T: Wait>(&mut self, rt: &T, hall: &Hall<R, L>, budget: u32) -> Reply<R>
        ensures { Asked L.limits self.old (Mark budget) result self.new }
    {
        let Seat { index, pass, .. } = self;
        let event = Event::Mark { budget };
        take(&hall.locked, rt).ask(&hall.log, pass, *index, event, Effect::Nothing, None)
    }
}
