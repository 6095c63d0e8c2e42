//! A heap that several clients share: a worker for each session's seat, and the three loops beside them.
ghost use Rattle.std.specs.Prelude.{◌≡◌, ◌⊎◌, ◌<◌, ◌≤◌, ◌+◌, ◌-◌, ◌++◌, ◌∷◌, ℕ, true, false, [], List, IfOk, IfSome};
ghost use Rattle.std.specs.Prelude.{MatchBool, length, map, min, slice_get, slice_index_or, take};
ghost use Rattle.std.specs.List.{All, sum_by};
ghost use Rattle.std.specs.Option.{option_to_list};
ghost use Rattle.std.specs.Thread.{IsSend, IsSync};
ghost use Rattle.jlr_log.specs.Seeing.{Seen, seen};
ghost use Rattle.jlr_hall.specs.declared.step.Step.{Step};
ghost use Rattle.jlr_server.specs.Serving.{AllWork, BeginWith, IsUnasked, IsServed, IsWork, Stays, accepts_of};
ghost use Rattle.jlr_server.specs.Serving.{devices_left, seat_in};
ghost use Rattle.jlr_server.specs.Tallies.{IsNew};
ghost use Rattle.jlr_server.specs.declared.server.ServeFault.TheVariants.{Close, NoMemory};

use crate::accepts::{Accepts, Phase};
use crate::clients::Heard;
use crate::worked::{Same, Worked};
use jlr_device::{Device, Resource};
use jlr_hall::Book;
use jlr_hall::closing::CloseFault;
use jlr_hall::hall::Hall;
use jlr_hall::history::{Blank, Naming};
use jlr_hall::seat::Seat;
use jlr_hall::step::{Limited, Step};
use jlr_listener::acceptor::Acceptor;
use jlr_listener::watch::{News, NoWatcher, Watcher};
use jlr_types::{Fault, Limits};
use std::alloc::{AllocError, AllocFailed, Global};
use std::snapshot::Snapshot;
use std::sync::Wait;
use std::thread;
use std::thread::{PromisedHandle, Threads};

/// What was served.
pub struct Served<R, D> {
    /// How many clients were waited for, those that did not come among them.
    pub accepts: u32,
    /// How many of these failed: nobody came.
    pub missed: u32,
    /// The end of the one history.
    pub book: Book<R>,
    /// The devices, each as the last session at its seat left it.
    pub devices: Vec<D>,
}

// By hand: each exit of a caller then has one call, where a derived drop writes out every field.
impl<R: Drop, D: Drop> Drop for Served<R, D> {
    fn drop(self) {
        let Served {
            accepts: _,
            missed: _,
            book: _,
            devices: _,
        } = self;
    }
}

/// Why nothing is given back of what was served.
#[derive(Clone, Copy, PartialEq, Eq, Debug)]
pub enum ServeFault {
    /// A seat was not handed back. It never comes.
    Close(CloseFault),
    /// A thread could not be started.
    Start,
    /// The sessions that were served do not come to the accepts that were made. It never comes.
    Miscounted,
    /// There was no memory.
    NoMemory,
}

impl From<AllocError> for ServeFault {
    ghost from_gives = { λ _ e. e ≡ NoMemory };

    fn from(_: AllocError) -> Self {
        ServeFault::NoMemory
    }
}

impl<T: Drop> From<AllocFailed<T>> for ServeFault {
    ghost from_gives = { λ _ e. e ≡ NoMemory };

    fn from(_: AllocFailed<T>) -> Self {
        ServeFault::NoMemory
    }
}

impl From<CloseFault> for ServeFault {
    ghost from_gives = { λ fault e. e ≡ Close fault };

    fn from(fault: CloseFault) -> Self {
        ServeFault::Close(fault)
    }
}

/// What was served, and who watched, as it was left.
pub struct Watched<R, D, W> {
    pub served: Served<R, D>,
    pub watcher: W,
}

// By hand: each exit of a caller then has one call, where a derived drop writes out every field.
impl<R: Drop, D: Drop, W: Drop> Drop for Watched<R, D, W> {
    fn drop(self) {
        let Watched {
            served: _,
            watcher: _,
        } = self;
    }
}

impl<R, D, W> Watched<R, D, W> {
    /// What was served, and who watched.
    pub fn into_parts(self) -> (Served<R, D>, W)
        ensures served { result.0 ≡ self.served }
        ensures watcher { result.1 ≡ self.watcher }
    {
        let Watched { served, watcher } = self;
        (served, watcher)
    }
}

/// Serves clients by a seat while accepts are left.
fn worker<A: Acceptor, D: Device + Drop, L: Naming + Limited, T: Wait>(
    rt: &T,
    hall: &Hall<D::Res, L>,
    acceptor: &A,
    accepts: &Accepts,
    work: Worked<A, D, L>,
) -> Worked<A, D, L>
where
    D::Res: Drop,
    requires { work.seat.seat < L.limits.sessions }
    ensures { Stays work result }
{
    let mut work = work;
    for _ in rt.forever() {
        let closings = hall.closings(rt);
        let Some(client) = accepts.take(rt) else {
            break;
        };
        match acceptor.accept(rt, work.next_accept(), client) {
            Ok(came) => {
                hall.sit(rt, work.index(), client);
                work = work.serve(rt, hall, acceptor, client, came);
                hall.stand(rt, work.index());
            }
            Err(_) => {
                if accepts.counts(rt) {
                    work = work.miss();
                    hall.wait_for_closing(rt, closings);
                }
            }
        }
    }
    work
}

/// A worker's seat until no accepts are left. The last worker that goes ends the hall and dismisses the watcher.
fn serve_at<A: Acceptor, D: Device + Drop, L: Naming + Limited, T: Wait>(
    rt: &T,
    hall: &Hall<D::Res, L>,
    acceptor: &A,
    accepts: &Accepts,
    work: Worked<A, D, L>,
) -> Worked<A, D, L>
where
    D::Res: Drop,
    requires { work.seat.seat < L.limits.sessions }
    ensures { Stays work result }
{
    let work = worker(rt, hall, acceptor, accepts, work);
    if accepts.go(rt) {
        hall.stop(rt);
        acceptor.dismiss();
    }
    work
}

/// Hears what a watcher tells until it is over, and tells it to the hall and the workers.
fn hear<A: Acceptor, R: Drop, L: Naming + Limited, W: Watcher, T: Wait>(
    rt: &T,
    hall: &Hall<R, L>,
    acceptor: &A,
    accepts: &Accepts,
    watcher: W,
) -> Heard<W> {
    let mut watcher = watcher;
    let mut asked = false;
    for _ in rt.forever() {
        match watcher.news(rt) {
            News::Gone(client) => hall.call_off(rt, client),
            News::Asked(closing) => {
                asked = true;
                accepts.begin(rt, Phase::Over);
                hall.call_all_off(rt);
                acceptor.close(rt, &watcher, closing);
            }
            News::Over => break,
        }
    }
    Heard { watcher, asked }
}

/// What a thread does on its seat, until the hall is to end: sessions, or one of the loops.
fn sit<A: Acceptor, D: Device + Drop, L: Naming + Limited, T: Wait>(
    rt: &T,
    hall: &Hall<D::Res, L>,
    acceptor: &A,
    accepts: &Accepts,
    work: Worked<A, D, L>,
) -> Worked<A, D, L>
where
    D::Res: Drop,
    requires { IsUnasked work }
    ensures { Stays work result }
{
    let index = work.index();
    let sessions = hall.sessions();
    if index < sessions {
        return serve_at(rt, hall, acceptor, accepts, work);
    }
    if index == sessions {
        return work.mark(rt, hall);
    }
    if index == sessions + 1 {
        return work.hand_over(rt, hall);
    }
    if index == sessions + 2 {
        return work.clean(rt, hall);
    }
    work
}

/// The device of the last of so many seats, of which the first have one each.
fn last_device<D>(seats: usize, devices: &mut Vec<D>) -> Option<D>
    requires { length devices.old.items ≤ seats }
    ensures device { result ≡ slice_get devices.old.items (seats - 1) }
    ensures left { devices.new.items ≡ take (seats - 1) devices.old.items }
{
    if devices.len() < seats {
        return None;
    }
    devices.pop()
}

/// The last of these seats, if there is one, with its device. It asked nothing yet, as those that are left.
fn last_work<A: Acceptor, D: Device + Drop, L: Naming + Limited>(
    seats: &mut Vec<Seat<D::Res, L>>,
    devices: &mut Vec<D>,
) -> Option<Worked<A, D, L>>
where
    D::Res: Drop,
    requires fresh { (k : ℕ) (p : Seen (Step D.Res)) → k < length seats.old.items
        → slice_index_or seats.old.items k p ≡ seen k [] }
    requires devices { length devices.old.items ≡ min (length seats.old.items) L.limits.sessions }
    ensures fresh { (k : ℕ) (p : Seen (Step D.Res)) → k < length seats.new.items
        → slice_index_or seats.new.items k p ≡ seen k [] }
    ensures left { devices.new.items ≡ take (length seats.new.items) devices.old.items }
    ensures seat { IfSome result (λ work. (length seats.old.items ≡ length seats.new.items + 1)
        × (work.seat ≡ seen (length seats.new.items) [])) }
    ensures device { IfSome result (λ work. work.first ≡ slice_get devices.old.items (length seats.new.items)) }
{
    let device = last_device(seats.len(), devices);
    match seats.pop() {
        Some(seat) => Some(Worked::new(seat, device)),
        None => {
            drop(device);
            None
        }
    }
}

/// The seats, the last first, at which nothing was done yet: those of sessions, each with the device of its number, and
/// those of the loops.
///
/// # Errors
/// `AllocError` where there is no memory.
fn begun<A: Acceptor, D: Device + Drop, L: Naming + Limited>(
    alloc: Global,
    seats: Vec<Seat<D::Res, L>>,
    devices: Vec<D>,
) -> Result<Vec<Worked<A, D, L>>, AllocError>
where
    D::Res: Drop,
    requires fresh { (k : ℕ) (p : Seen (Step D.Res)) → k < length seats.items
        → slice_index_or seats.items k p ≡ seen k [] }
    requires seats { length seats.items ≡ L.limits.sessions + 3 }
    requires devices { length devices.items ≡ L.limits.sessions }
    ensures fresh { IfOk result (λ works. All IsUnasked works.items) }
    ensures begun { IfOk result (λ works. BeginWith devices.items works.items) }
{
    let mut seats = seats;
    let mut devices = devices;
    let Ok(mut works) = Vec::with_capacity(alloc, seats.len()) else {
        drop((seats, devices));
        return Err(AllocError);
    };
    for _ in 0..seats.len() {
        let Some(work) = last_work::<A, D, L>(&mut seats, &mut devices) else {
            break;
        };
        let _ = is_added(&mut works, work);
    }
    drop((seats, devices));
    Ok(works)
}

/// A thread on each seat, until all are done; meanwhile this one hears the watcher. No client is accepted before all
/// threads are there; where one cannot be started, none is. What was done at the seats, those of the sessions first to
/// be done, and what the watcher heard.
///
/// # Errors
/// `Start` where a thread cannot be started, `NoMemory` where there is no memory.
fn run_threads<
    A: Acceptor + Sync,
    D: Device + Drop + Send,
    L: Naming + Limited + Send + Sync,
    W: Watcher + Drop,
    T: Threads + Wait + Sync,
>(
    rt: &T,
    alloc: Global,
    hall: &Hall<D::Res, L>,
    acceptor: &A,
    accepts: &Accepts,
    works: Vec<Worked<A, D, L>>,
    watcher: W,
) -> Result<(Vec<Worked<A, D, L>>, Heard<W>), ServeFault>
where
    A::In: Send,
    A::Out: Send,
    D::Res: Drop + Send,
    requires { All IsUnasked works.items }
    ensures { (devices : List D) → BeginWith devices works.items
        → IfOk result (λ done. BeginWith devices done.0.items) }
{
    thread::scope(
        thread::scope_env(),
        rt,
        move |scope| -> Result<(Vec<Worked<A, D, L>>, Heard<W>), ServeFault>
            requires rows { IsSync T.row × IsSend L.row × IsSync L.row × IsSync A.row × IsSend D.row
                × IsSend A.In.row × IsSend A.Out.row × IsSend D.Res.row }
            requires fresh { All IsUnasked works.items }
            ensures { (devices : List D) → BeginWith devices works.items
                → IfOk result (λ done. BeginWith devices done.0.items) }
        {
            let Ok(back) = Vec::with_capacity(alloc, works.len()) else {
                drop((works, watcher));
                return Err(ServeFault::NoMemory);
            };
            let Ok(mut running) = Vec::with_capacity(alloc, works.len()) else {
                drop((works, back, watcher));
                return Err(ServeFault::NoMemory);
            };
            let mut all = true;
            for work in works {
                let same = Same {
                    work: Snapshot::of(&work),
                };
                let sits = move || -> Worked<A, D, L>
                    requires { IsUnasked work }
                    ensures { Stays work result }
                { sit(rt, hall, acceptor, accepts, work) };
                match scope.spawn_with(same, sits) {
                    Ok(thread) => all = is_added(&mut running, thread) && all,
                    Err(refused) => {
                        drop(refused);
                        all = false;
                    }
                }
            }
            begin(rt, hall, acceptor, accepts, all);
            let heard = hear(rt, hall, acceptor, accepts, watcher);
            joined(rt, running, back, heard, all)
        },
    )
}

/// Puts an item into a list. Whether there was room for it.
fn is_added<I: Drop>(list: &mut Vec<I>, item: I) -> bool
    ensures { MatchBool result (list.new.items ≡ list.old.items ++ item ∷ []) (list.new.items ≡ list.old.items) }
{
    match list.push(item) {
        Ok(()) => true,
        Err(refused) => {
            drop(refused);
            false
        }
    }
}

/// Lets the workers accept where all threads are there; else they go, and the hall ends.
fn begin<A: Acceptor, R: Drop, L: Naming + Limited, T: Wait>(
    rt: &T,
    hall: &Hall<R, L>,
    acceptor: &A,
    accepts: &Accepts,
    all: bool,
) {
    if all {
        accepts.begin(rt, Phase::Open);
    } else {
        accepts.begin(rt, Phase::Over);
        hall.stop(rt);
        acceptor.dismiss();
    }
}

/// What the threads did, in a list that has room for it. All threads are waited for.
///
/// # Errors
/// `Start` where not all threads are there.
fn joined<
    A: Acceptor,
    D: Device + Drop + Send,
    L: Naming + Limited + Send,
    W: Watcher + Drop,
    T: Threads + Wait,
>(
    rt: &T,
    running: Vec<PromisedHandle<Worked<A, D, L>, Same<A, D, L>>>,
    back: Vec<Worked<A, D, L>>,
    heard: Heard<W>,
    all: bool,
) -> Result<(Vec<Worked<A, D, L>>, Heard<W>), ServeFault>
where
    A::In: Send,
    D::Res: Drop + Send,
    requires { back.items ≡ [] }
    ensures { (devices : List D) → BeginWith devices (map (λ thread. thread.promise.work.value) running.items)
        → IfOk result (λ done. BeginWith devices done.0.items) }
{
    let mut back = back;
    let mut all = all;
    for thread in running {
        all = is_added(&mut back, thread.join(rt)) && all;
    }
    if all {
        return Ok((back, heard));
    }
    drop((back, heard));
    Err(ServeFault::Start)
}

/// Serves as many clients as `total` says, one after the other at each session's seat, over the heap of an empty
/// machine of these limits. A worker accepts clients for each seat, and opens their files and sockets by its device;
/// the three loops run beside them, the marker's with the budget of the limits. An accept that fails is one of them
/// too. The last worker that goes ends the hall. No client is accepted before all threads run.
///
/// # Errors
/// `Start` where a thread cannot be started, `NoMemory` where there is no room for the heap, its seats or its threads:
/// then no client was accepted.
pub fn serve_over<
    A: Acceptor + Sync,
    D: Device + Drop + Send,
    L: Naming + Limited + Send + Sync,
    T: Threads + Wait + Sync,
>(
    rt: &T,
    alloc: Global,
    limits: Limits,
    total: u32,
    acceptor: &A,
    devices: Vec<D>,
    blank: Blank<Step<D::Res>>,
) -> Result<Served<D::Res, D>, ServeFault>
where
    A::In: Send,
    A::Out: Send,
    D::Res: Drop + Send,
    requires devices { length devices.items ≡ limits.sessions }
    requires name { blank ≡ L.table }
    requires limits { limits ≡ L.limits }
    ensures served { IfOk result (λ served. IsServed limits
        (record { count = D.count; opens = D.may_open; connects = D.may_connect; failures = D.Res.handling.count })
        D.may_attend D.Res.handling A.giving A.In.remaining A.Out.contents devices.items served.devices.items
        total false served.accepts served.missed served.book) }
{
    let done = serve_watched::<A, D, L, NoWatcher, T>(
        rt, alloc, limits, total, acceptor, NoWatcher, devices, blank,
    );
    match done {
        Ok(watched) => Ok(watched.into_parts().0),
        Err(fault) => Err(fault),
    }
}

/// The same with a watcher, who tells of clients that go, whose waiting `remove`s then end, and of who asks the server
/// to end. Then no client is accepted any more, no `remove` waits, and the clients that are there are answered what
/// they sent.
///
/// # Errors
/// As `serve_over`.
pub fn serve_watched<
    A: Acceptor + Sync,
    D: Device + Drop + Send,
    L: Naming + Limited + Send + Sync,
    W: Watcher + Drop,
    T: Threads + Wait + Sync,
>(
    rt: &T,
    alloc: Global,
    limits: Limits,
    total: u32,
    acceptor: &A,
    watcher: W,
    devices: Vec<D>,
    blank: Blank<Step<D::Res>>,
) -> Result<Watched<D::Res, D, W>, ServeFault>
where
    A::In: Send,
    A::Out: Send,
    D::Res: Drop + Send,
    requires devices { length devices.items ≡ limits.sessions }
    requires name { blank ≡ L.table }
    requires limits { limits ≡ L.limits }
    ensures served { IfOk result (λ watched. IsServed limits
        (record { count = D.count; opens = D.may_open; connects = D.may_connect; failures = D.Res.handling.count })
        D.may_attend D.Res.handling A.giving A.In.remaining A.Out.contents devices.items watched.served.devices.items
        total (W.asked watched.watcher) watched.served.accepts watched.served.missed watched.served.book) }
{
    let Ok((hall, seats)) = Hall::<D::Res, L>::open(alloc, limits, blank) else {
        drop((devices, watcher));
        return Err(ServeFault::NoMemory);
    };
    let Ok(works) = begun::<A, D, L>(alloc, seats, devices) else {
        drop((hall, watcher));
        return Err(ServeFault::NoMemory);
    };
    let Ok(tally) = Tally::new(alloc, works.len()) else {
        drop((hall, works, watcher));
        return Err(ServeFault::NoMemory);
    };
    let accepts = Accepts::new(total, limits.sessions);
    match run_threads(rt, alloc, &hall, acceptor, &accepts, works, watcher) {
        Ok((works, heard)) => close(tally, hall, works, heard, accepts.made(), total),
        Err(fault) => {
            drop((hall, accepts, tally));
            Err(fault)
        }
    }
}

/// What was served, where all seats are there and what was done at them comes to the accepts that were made. The room
/// for the seats and their devices was made before anybody was served, so that this takes no memory.
///
/// # Errors
/// `Miscounted` and `Close`, which never come, and `NoMemory`, where there were 2^32 accepts or more.
fn close<A: Acceptor, D: Device + Drop, L: Naming + Limited, W: Watcher + Drop>(
    tally: Tally<D, L>,
    hall: Hall<D::Res, L>,
    works: Vec<Worked<A, D, L>>,
    heard: Heard<W>,
    accepts: u32,
    total: u32,
) -> Result<Watched<D::Res, D, W>, ServeFault>
where
    D::Res: Drop,
    requires { IsNew tally }
    ensures served { IfOk result (λ watched. (devices : List D) → BeginWith devices works.items → IsServed L.limits
        (record { count = D.count; opens = D.may_open; connects = D.may_connect; failures = D.Res.handling.count })
        D.may_attend D.Res.handling A.giving A.In.remaining A.Out.contents devices watched.served.devices.items total
        (W.asked watched.watcher) watched.served.accepts watched.served.missed watched.served.book) }
{
    let Heard { watcher, asked } = heard;
    let count = hall.sessions() + 3;
    if works.len() != usize::from(count) {
        drop((tally, hall, works, watcher));
        return Err(ServeFault::Miscounted);
    }
    if !are_enough(accepts, total, asked) {
        drop((tally, hall, works, watcher));
        return Err(ServeFault::Miscounted);
    }
    let Ok(tally) = taken_apart(tally, works) else {
        drop((hall, watcher));
        return Err(ServeFault::NoMemory);
    };
    if tally.accepts != accepts {
        drop((hall, tally, watcher));
        return Err(ServeFault::Miscounted);
    }
    let Tally {
        seats,
        devices,
        missed,
        ..
    } = tally;
    match hall.close(seats) {
        Ok(book) => Ok(Watched {
            served: Served {
                accepts,
                missed,
                book,
                devices,
            },
            watcher,
        }),
        Err(fault) => {
            drop((devices, watcher));
            Err(ServeFault::Close(fault))
        }
    }
}

/// Whether as many accepts were made as were to be, or fewer since the server was asked to end.
fn are_enough(accepts: u32, total: u32, asked: bool) -> bool
    ensures { result ≡ true → (accepts ≡ total) ⊎ ((asked ≡ true) × (accepts < total)) }
{
    accepts == total || asked && accepts < total
}

/// The seats with their devices, how many accepts there were at all of them, and how many of these gave no client.
#[derive(Drop)]
struct Tally<D: Device, L: Naming + Limited> {
    seats: Vec<Seat<D::Res, L>>,
    devices: Vec<D>,
    accepts: u32,
    missed: u32,
}

impl<D: Device + Drop, L: Naming + Limited> Tally<D, L>
where
    D::Res: Drop,
{
    /// Nothing, with room for so many seats.
    ///
    /// # Errors
    /// `AllocError` where the room cannot be had.
    fn new(alloc: Global, seats: usize) -> Result<Self, AllocError>
        ensures { IfOk result (λ tally. IsNew tally) }
    {
        Ok(Tally {
            seats: Vec::with_capacity(alloc, seats)?,
            devices: Vec::with_capacity(alloc, seats)?,
            accepts: 0,
            missed: 0,
        })
    }
}

/// Puts a device, where there is one, behind others.
///
/// # Errors
/// `AllocError` where there is no memory.
fn keep<D: Drop>(devices: &mut Vec<D>, device: Option<D>) -> Result<(), AllocError>
    ensures { IfOk result (λ _. devices.new.items ≡ devices.old.items ++ option_to_list device) }
{
    if let Some(device) = device {
        devices.push(device)?;
    }
    Ok(())
}

/// Adds what was done at one seat.
///
/// # Errors
/// `AllocError` where there is no memory, or there were 2^32 accepts or more.
fn add<A: Acceptor, D: Device + Drop, L: Naming + Limited>(
    tally: &mut Tally<D, L>,
    work: Worked<A, D, L>,
) -> Result<(), AllocError>
where
    D::Res: Drop,
    ensures seats { IfOk result (λ _. tally.new.seats.items ≡ tally.old.seats.items ++ work.seat ∷ []) }
    ensures devices { IfOk result (λ _. tally.new.devices.items ≡ tally.old.devices.items ++ option_to_list work.last) }
    ensures accepts { IfOk result (λ _. tally.new.accepts ≡ tally.old.accepts + (work.sessions + work.missed)) }
    ensures missed { IfOk result (λ _. tally.new.missed ≡ tally.old.missed + work.missed) }
    ensures done { IsWork L.limits (record {
      count = D.count;
      opens = D.may_open;
      connects = D.may_connect;
      failures = D.Res.handling.count;
    }) D.may_attend D.Res.handling A.giving A.In.remaining A.Out.contents work }
{
    let (seat, device, sessions, missed) = work.into_parts();
    tally.seats.push(seat)?;
    keep(&mut tally.devices, device)?;
    let accepts = sessions.checked_add(missed).ok_or(AllocError)?;
    tally.accepts = tally.accepts.checked_add(accepts).ok_or(AllocError)?;
    tally.missed = tally.missed.checked_add(missed).ok_or(AllocError)?;
    Ok(())
}

/// What was done at all seats, which go to the room for them, each with its device.
///
/// # Errors
/// As `add`.
fn taken_apart<A: Acceptor, D: Device + Drop, L: Naming + Limited>(
    tally: Tally<D, L>,
    works: Vec<Worked<A, D, L>>,
) -> Result<Tally<D, L>, AllocError>
where
    D::Res: Drop,
    requires { IsNew tally }
    ensures { IfOk result (λ tally. (tally.seats.items ≡ map seat_in works.items)
        × (tally.devices.items ≡ devices_left works.items)
        × (tally.accepts ≡ sum_by accepts_of works.items)
        × (tally.missed ≡ sum_by (λ w. w.missed) works.items)
        × AllWork L.limits (record {
          count = D.count;
          opens = D.may_open;
          connects = D.may_connect;
          failures = D.Res.handling.count;
        }) D.may_attend D.Res.handling A.giving A.In.remaining A.Out.contents works.items) }
{
    let mut tally = tally;
    for work in works {
        add(&mut tally, work)?;
    }
    Ok(tally)
}
