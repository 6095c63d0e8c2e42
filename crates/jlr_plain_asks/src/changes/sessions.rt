//! Changes of one session.
ghost use Rattle.std.specs.Prelude.{◌≡◌, [], None, slice_set, IfOk};
ghost use Rattle.jlr_machine.specs.Objects.{at, change_at};
ghost use Rattle.jlr_machine.specs.Lookups.{with_session};
ghost use Rattle.jlr_machine.specs.Calls.{fresh_session};
ghost use Rattle.jlr_plain_asks.specs.Changes.{session_change_of};

use crate::answers::replies::free_handle_of;
use jlr_machine::machine::{Call as CallOf, Machine, Session};
use jlr_machine::table::Table;
use jlr_types::{Handle, Mutator, Slot};
use std::alloc::{AllocError, Global};
use std::mem::replace;

/// The places for handles, of which place 0, null, holds nothing.
const PLACES: usize = 251;

/// A change of a session.
#[derive(Clone, Copy)]
pub enum SessionChange {
    /// It holds this by its lowest free handle.
    Hold(Slot),
    /// It lets this handle go.
    Release(Handle),
    /// It has this fence, and is in this call.
    Call(Option<Slot>, CallOf),
}

fn with_handle_set(handles: Table<Slot>, number: usize, slot: Option<Slot>) -> Table<Slot>
    ensures { result ≡ slice_set handles number slot }
{
    let mut places = handles.into_vec();
    if number < places.len() {
        places[number] = slot;
    }
    Table::from_vec(places)
}

/// The session with a handle that holds this, or nothing.
fn with_handle(session: Session, number: usize, slot: Option<Slot>) -> Session
    ensures { result ≡ record session { handles = slice_set session.handles number slot } }
{
    Session {
        handles: with_handle_set(session.handles, number, slot),
        fence: session.fence,
        call: session.call,
    }
}

/// The session after the change. Takes no memory.
fn changed(session: Session, change: SessionChange) -> Session
    ensures { result ≡ session_change_of change session }
{
    match change {
        SessionChange::Hold(slot) => {
            let free = free_handle_of(&session);
            with_handle(session, free, Some(slot))
        }
        SessionChange::Release(handle) => with_handle(session, handle.number() as usize, None),
        SessionChange::Call(fence, call) => Session {
            handles: session.handles,
            fence,
            call,
        },
    }
}

// ---- The sessions of a machine

fn put_session(seats: &mut Vec<Option<Session>>, number: usize, seat: Option<Session>)
    ensures { seats.new.items ≡ slice_set seats.old.items number seat }
{
    if number < seats.len() {
        seats[number] = seat;
    }
}

/// Takes out what is at a seat.
fn take_session(seats: &mut Vec<Option<Session>>, number: usize) -> Option<Session>
    ensures taken { result ≡ at seats.old.items number }
    ensures left { seats.new.items ≡ slice_set seats.old.items number None }
{
    match seats.get_mut(number) {
        Some(seat) => seat.take(),
        None => None,
    }
}

/// Changes the session at a seat, if there is one.
fn change_session(seats: &mut Vec<Option<Session>>, number: usize, change: SessionChange)
    ensures { seats.new.items ≡ change_at seats.old.items number (session_change_of change) }
{
    let seat = match take_session(seats, number) {
        Some(session) => Some(changed(session, change)),
        None => None,
    };
    put_session(seats, number, seat);
}

/// Takes all seats out of the machine, so that they are changed where they lie.
fn take_seats(alloc: Global, machine: &mut Machine) -> Vec<Option<Session>>
    ensures seats { result.items ≡ machine.old.mutators }
    ensures left { machine.new ≡ record machine.old { mutators = [] } }
{
    replace(&mut machine.mutators, Table::from_vec(Vec::new(alloc))).into_vec()
}

/// Puts this as the session of the mutator.
pub(crate) fn put_seat(
    alloc: Global,
    machine: &mut Machine,
    mutator: Mutator,
    seat: Option<Session>,
)
    ensures { machine.new ≡ record machine.old { mutators = slice_set machine.old.mutators mutator seat } }
{
    let mut seats = take_seats(alloc, machine);
    put_session(&mut seats, mutator.number() as usize, seat);
    machine.mutators = Table::from_vec(seats);
}

/// Changes the session of the mutator. Takes no memory.
pub(crate) fn change_seat(
    alloc: Global,
    machine: &mut Machine,
    mutator: Mutator,
    change: SessionChange,
)
    ensures { machine.new ≡ with_session machine.old mutator (session_change_of change) }
{
    let mut seats = take_seats(alloc, machine);
    change_session(&mut seats, mutator.number() as usize, change);
    machine.mutators = Table::from_vec(seats);
}

/// A session that holds nothing.
pub(crate) fn new_session(alloc: Global) -> Result<Session, AllocError>
    ensures { IfOk result (λ s. s ≡ fresh_session) }
{
    let mut places = Vec::new(alloc);
    places.resize(PLACES, None)?;
    Ok(Session {
        handles: Table::from_vec(places),
        fence: None,
        call: CallOf::Free,
    })
}
