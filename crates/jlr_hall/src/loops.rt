//! The loops beside the sessions. Each asks only where its look says that there is work, and ends once the hall is to
//! end.
ghost use Rattle.std.specs.Prelude.{ℕ, Some, None, IfErr, IfOk, IfSome};
ghost use Rattle.std.specs.Sync.Mutex.{mutex_guard_value};
ghost use Rattle.jlr_log.specs.Seeing.{Seen};
ghost use Rattle.jlr_hall.specs.declared.step.Step.{Step};
ghost use Rattle.jlr_hall.specs.Due.{HasLine, HasPending, IsDueAt};
ghost use Rattle.jlr_hall.specs.Loops.{AsksOnly, CleansIn, IsHandlers, IsMarkers};

use crate::effect::was_refused;
use crate::hall::{Hall, Locked};
use crate::seat::Seat;
use crate::step::{Limited, Step};
use jlr_cleaner::Job;
use jlr_device::Resource;
use jlr_event::event::Reply;
use jlr_log::Naming;
use jlr_machine::ask::{Answer, Ask, CLEANER};
use jlr_session::job::{carry_out, job_of};
use jlr_types::Progress;
use std::sync::{MutexGuard, Wait};

impl<R: Drop, L: Naming + Limited> Hall<R, L> {
    /// Takes the lock once something is pending. None where the hall is to end.
    fn wait_for_pending<T: Wait>(&self, rt: &T) -> Option<MutexGuard<'_, Locked<R, L>>>
        ensures { IfSome result (λ locked. HasPending L.limits (mutex_guard_value locked).log) }
    {
        let locked = self.handler.wait_while(
            rt,
            self.locked.lock(rt),
            |l| !l.stopped && !l.has_pending(),
        );
        if locked.stopped || !locked.has_pending() {
            return None;
        }
        Some(locked)
    }

    /// The handler rests until it is woken, unless the hall is to end. Whoever waits for what it closes looks again.
    fn wait_for_handler<T: Wait>(&self, rt: &T) {
        let mut locked = self.locked.lock(rt);
        if !locked.stopped {
            locked.resting.handler = true;
            self.closed.notify_all();
            locked = self.handler.wait(rt, locked);
            locked.resting.handler = false;
        }
    }

    /// Takes the lock once something stands in the cleaner's line. None where the hall is to end.
    fn wait_for_line<T: Wait>(&self, rt: &T) -> Option<MutexGuard<'_, Locked<R, L>>>
        ensures { IfSome result (λ locked. HasLine L.limits (mutex_guard_value locked).log) }
    {
        let locked = self
            .cleaner
            .wait_while(rt, self.locked.lock(rt), |l| !l.stopped && !l.has_line());
        if locked.stopped || !locked.has_line() {
            return None;
        }
        Some(locked)
    }

    /// The cleaner rests until it is woken, unless the hall is to end. Whoever waits for what it closes looks again.
    fn wait_for_cleaner<T: Wait>(&self, rt: &T) {
        let mut locked = self.locked.lock(rt);
        if !locked.stopped {
            locked.resting.cleaner = true;
            self.closed.notify_all();
            locked = self.cleaner.wait(rt, locked);
            locked.resting.cleaner = false;
        }
    }

    /// Takes the lock once the marker has something to do. None where the hall is to end.
    fn wait_for_marking<T: Wait>(&self, rt: &T) -> Option<MutexGuard<'_, Locked<R, L>>> {
        let locked = self.marker.wait_while(
            rt,
            self.locked.lock(rt),
            |l| !l.stopped && !l.has_marking(),
        );
        if locked.stopped {
            return None;
        }
        Some(locked)
    }

    /// The marker rests until it is woken, unless the hall is to end. Whoever waits for what it closes looks again.
    fn wait_for_marker<T: Wait>(&self, rt: &T) {
        let mut locked = self.locked.lock(rt);
        if !locked.stopped {
            locked.resting.marker = true;
            self.closed.notify_all();
            locked = self.marker.wait(rt, locked);
            locked.resting.marker = false;
        }
    }
}

/// Begins a cycle where one is due, which it looks at and asks under one taking of the lock. Marks it in pieces of at
/// most so many cells, collects it once all is marked, and sweeps what that removed in such pieces, until the hall is
/// to end. Each ask and each piece has the lock for itself, so that the sessions go on between them. A cycle that
/// something else has closed is left; where an ask is refused it waits for the next event.
pub fn marker_loop<R: Drop, L: Naming + Limited, T: Wait>(
    seat: Seat<R, L>,
    rt: &T,
    hall: &Hall<R, L>,
    budget: u32,
) -> Seat<R, L>
    ensures { AsksOnly L.limits (IsMarkers L.limits budget) seat result }
{
    let mut seat = seat;
    for _ in rt.forever() {
        let Some(locked) = hall.wait_for_marking(rt) else {
            break;
        };
        if locked.is_due() {
            begin(&mut seat, rt, hall, locked);
        } else {
            drop(locked);
            mark_or_collect(&mut seat, rt, hall, budget);
        }
    }
    seat
}

/// Begins the cycle that is due. Where that is refused it waits for the next event.
fn begin<R: Drop, L: Naming + Limited, T: Wait>(
    seat: &mut Seat<R, L>,
    rt: &T,
    hall: &Hall<R, L>,
    locked: MutexGuard<'_, Locked<R, L>>,
)
    requires { IsDueAt L.limits (mutex_guard_value locked).log }
    ensures { (budget : ℕ) (first : Seen (Step R)) → AsksOnly L.limits (IsMarkers L.limits budget) first seat.old
        → AsksOnly L.limits (IsMarkers L.limits budget) first seat.new }
{
    if was_refused(&seat.ask_plain_under(hall, locked, Ask::Begin)) {
        hall.wait_for_marker(rt);
    }
}

/// A piece of marking, and where all is marked then the collection and its sweep.
fn mark_or_collect<R: Drop, L: Naming + Limited, T: Wait>(
    seat: &mut Seat<R, L>,
    rt: &T,
    hall: &Hall<R, L>,
    budget: u32,
)
    ensures { (first : Seen (Step R)) → AsksOnly L.limits (IsMarkers L.limits budget) first seat.old
        → AsksOnly L.limits (IsMarkers L.limits budget) first seat.new }
{
    if piece(seat, rt, hall, budget) {
        collect(seat, rt, hall, budget);
    }
}

/// A piece of marking, or, where no cycle is open, of sweeping. Whether it left nothing to mark.
fn piece<R: Drop, L: Naming + Limited, T: Wait>(
    seat: &mut Seat<R, L>,
    rt: &T,
    hall: &Hall<R, L>,
    budget: u32,
) -> bool
    ensures { (first : Seen (Step R)) → AsksOnly L.limits (IsMarkers L.limits budget) first seat.old
        → AsksOnly L.limits (IsMarkers L.limits budget) first seat.new }
{
    all_is_marked(&seat.mark(rt, hall, budget))
}

/// Whether a piece of marking left nothing to mark.
fn all_is_marked<R>(reply: &Reply<R>) -> bool {
    matches!(reply, Reply::Marked(Progress::Done))
}

/// The collection of a cycle, and the sweep of what it removed. Where it is refused it waits for the next event.
fn collect<R: Drop, L: Naming + Limited, T: Wait>(
    seat: &mut Seat<R, L>,
    rt: &T,
    hall: &Hall<R, L>,
    budget: u32,
)
    ensures { (first : Seen (Step R)) → AsksOnly L.limits (IsMarkers L.limits budget) first seat.old
        → AsksOnly L.limits (IsMarkers L.limits budget) first seat.new }
{
    if was_refused(&seat.ask_plain(rt, hall, Ask::Collect)) {
        hall.wait_for_marker(rt);
    } else {
        sweep(seat, rt, hall, budget);
    }
}

/// Sweeps in as many pieces as all cells take, so that dead arrays give their memory back.
fn sweep<R: Drop, L: Naming + Limited, T: Wait>(
    seat: &mut Seat<R, L>,
    rt: &T,
    hall: &Hall<R, L>,
    budget: u32,
)
    ensures { (first : Seen (Step R)) → AsksOnly L.limits (IsMarkers L.limits budget) first seat.old
        → AsksOnly L.limits (IsMarkers L.limits budget) first seat.new }
{
    for _ in 0..=hall.cells(rt) / budget.max(1) {
        piece(seat, rt, hall, budget);
    }
}

/// Hands over where something is pending, which it looks at and asks under one taking of the lock, until the hall is to
/// end. Where an ask is refused it waits for the next event.
pub fn handler_loop<R: Drop, L: Naming + Limited, T: Wait>(
    seat: Seat<R, L>,
    rt: &T,
    hall: &Hall<R, L>,
) -> Seat<R, L>
    ensures { AsksOnly L.limits (IsHandlers L.limits) seat result }
{
    let mut seat = seat;
    for _ in rt.forever() {
        let Some(locked) = hall.wait_for_pending(rt) else {
            break;
        };
        hand_over(&mut seat, rt, hall, locked);
    }
    seat
}

/// Hands over what is pending. Where that is refused it waits for the next event.
fn hand_over<R: Drop, L: Naming + Limited, T: Wait>(
    seat: &mut Seat<R, L>,
    rt: &T,
    hall: &Hall<R, L>,
    locked: MutexGuard<'_, Locked<R, L>>,
)
    requires { HasPending L.limits (mutex_guard_value locked).log }
    ensures { (first : Seen (Step R)) → AsksOnly L.limits (IsHandlers L.limits) first seat.old
        → AsksOnly L.limits (IsHandlers L.limits) first seat.new }
{
    if was_refused(&seat.ask_plain_under(hall, locked, Ask::HandOver)) {
        hall.wait_for_handler(rt);
    }
}

/// Takes up what is Lined, which it looks at and asks under one taking of the lock, and does its work, until the hall
/// is to end. It looks for that only between jobs: the outcome of each job is told, and none is left at the end. The
/// work is done outside of the lock. Where a take-up is refused it waits for the next event.
pub fn cleaner_loop<R: Resource + Drop, L: Naming + Limited, T: Wait>(
    seat: Seat<R, L>,
    rt: &T,
    hall: &Hall<R, L>,
) -> Seat<R, L>
    ensures { CleansIn R.handling L.limits seat None result }
{
    let mut seat = seat;
    for _ in rt.forever() {
        let Some(locked) = hall.wait_for_line(rt) else {
            break;
        };
        if !clean(&mut seat, rt, hall, locked) {
            break;
        }
    }
    seat
}

/// One take-up, and its job, if it gave one. Whether the loop goes on: it ends where the end of a job was turned away.
fn clean<R: Resource + Drop, L: Naming + Limited, T: Wait>(
    seat: &mut Seat<R, L>,
    rt: &T,
    hall: &Hall<R, L>,
    locked: MutexGuard<'_, Locked<R, L>>,
) -> bool
    requires { HasLine L.limits (mutex_guard_value locked).log }
    ensures { (first : Seen (Step R)) → CleansIn R.handling L.limits first None seat.old
        → CleansIn R.handling L.limits first None seat.new }
{
    match take_up(seat, hall, locked) {
        Ok(job) => finish(seat, rt, hall, job),
        Err(refused) => {
            if refused {
                hall.wait_for_cleaner(rt);
            }
            true
        }
    }
}

/// One take-up. Without a job: whether it was refused.
fn take_up<R: Resource + Drop, L: Naming + Limited>(
    seat: &mut Seat<R, L>,
    hall: &Hall<R, L>,
    locked: MutexGuard<'_, Locked<R, L>>,
) -> Result<Job<R>, bool>
    requires { HasLine L.limits (mutex_guard_value locked).log }
    ensures job { (first : Seen (Step R)) → CleansIn R.handling L.limits first None seat.old
        → IfOk result (λ job. CleansIn R.handling L.limits first (Some job) seat.new) }
    ensures none { (first : Seen (Step R)) → CleansIn R.handling L.limits first None seat.old
        → IfErr result (λ _. CleansIn R.handling L.limits first None seat.new) }
{
    match job_of(seat.ask_plain_under(hall, locked, Ask::TakeUp)) {
        Ok(job) => Ok(job),
        Err(answer) => Err(refuses(answer)),
    }
}

/// The work of a job, and its end, which tells how it went. Whether that was not turned away.
fn finish<R: Resource + Drop, L: Naming + Limited, T: Wait>(
    seat: &mut Seat<R, L>,
    rt: &T,
    hall: &Hall<R, L>,
    job: Job<R>,
) -> bool
    ensures { (first : Seen (Step R)) → CleansIn R.handling L.limits first (Some job) seat.old
        → CleansIn R.handling L.limits first None seat.new }
{
    let reply = seat.ask_once(rt, hall, carry_out(CLEANER, job), None);
    !was_refused(&reply)
}

fn refuses(answer: Answer) -> bool {
    matches!(&answer, Answer::Refused(_))
}
