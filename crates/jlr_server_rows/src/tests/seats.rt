//! Seats of a hall without a server: two sessions beside each other, and a `remove` that the end of the hall wakes.
ghost use Rattle.std.specs.Prelude.{◌≡◌};
ghost use Rattle.std.specs.Thread.{IsSend, IsSync};

use super::clients::{After, Client, Clients};
use super::gates::{HELD, SERVED};
use super::player::{Entries, entries};
use jlr_device::gate::{Gate, GateDevice, GateResource};
use jlr_event::event::{Event, Reply};
use jlr_listener::acceptor::{AcceptId, Acceptor};
use jlr_machine::ask::{Answer, Ask};
use jlr_server::hall::hall::Hall;
use jlr_server::hall::history::{Blank, Naming};
use jlr_server::hall::port::SeatPort;
use jlr_server::hall::seat::Seat;
use jlr_server::hall::step::{Limited, Step};
use jlr_server::hall::vigil::NoVigil;
use jlr_session::port::Port;
use jlr_session::serve::serve;
use jlr_types::{Handle, Limits, Refusal};
use std::alloc::Global;
use std::marker::Brand;
use std::sync::Wait;
use std::test::Fail;
use std::thread;
use std::thread::Threads;

/// A session of the next client at a seat.
fn session<G: Gate + Acceptor + Copy + Drop, L: Naming + Limited, T: Wait>(
    threads: &T,
    hall: &Hall<GateResource<G>, L>,
    clients: G,
    seat: Seat<GateResource<G>, L>,
) -> Seat<GateResource<G>, L> {
    let id = AcceptId {
        seat: seat.index(),
        number: 0,
    };
    let mut port = SeatPort::new(threads, hall, NoVigil, seat);
    if let Ok((mut lines, mut replies)) = clients.accept(threads, id, 0) {
        let _ = serve(
            &mut lines,
            &mut replies,
            &mut port,
            &mut GateDevice::new(clients),
        );
    }
    port.into_seat()
}

/// A client at each of the first two seats. The seats, as they were left.
fn side_by_side<
    G: Gate + Acceptor + Copy + Drop + Send + Sync,
    L: Naming + Limited + Send + Sync,
    T: Threads + Wait + Sync,
>(
    threads: &T,
    alloc: Global,
    hall: &Hall<GateResource<G>, L>,
    clients: G,
    seats: Vec<Seat<GateResource<G>, L>>,
) -> Vec<Seat<GateResource<G>, L>>
where
    G::In: Send,
    G::Out: Send,
{
    thread::scope(
        thread::scope_env(),
        threads,
        move |scope| -> Vec<Seat<GateResource<G>, L>>
            requires { IsSync T.row × IsSend L.row × IsSync L.row × IsSend G.row × IsSync G.row × IsSend G.In.row
                × IsSend G.Out.row }
        {
            let mut running = Vec::new(alloc);
            let mut back = Vec::new(alloc);
            for seat in seats {
                if seat.index() > 1 {
                    drop(back.push(seat));
                } else if let Ok(thread) = scope.spawn(move || session(
                    threads, hall, clients, seat,
                )) {
                    drop(running.push(thread));
                }
            }
            for thread in running {
                drop(back.push(thread.join(threads)));
            }
            back
        },
    )
}

fn two_sessions<
    G: Gate + Acceptor + Copy + Drop + Send + Sync,
    L: Naming + Limited + Send + Sync,
    T: Threads + Wait + Sync,
>(
    threads: &T,
    alloc: Global,
    limits: Limits,
    clients: G,
    blank: Blank<Step<GateResource<G>>>,
) -> Result<Entries, Fail>
where
    G::In: Send,
    G::Out: Send,
    requires name { blank ≡ L.table }
    requires limits { limits ≡ L.limits }
{
    let (hall, seats) = Hall::<GateResource<G>, L>::open(alloc, limits, blank)?;
    let seats = side_by_side(threads, alloc, &hall, clients, seats);
    match hall.close(seats) {
        Ok(book) => {
            let entries = entries(&book);
            drop(book);
            Ok(entries)
        }
        Err(_) => Err("a seat is missing".into()),
    }
}

/// The same over a hall of its own.
fn gated<G: Gate + Acceptor + Copy + Drop + Send + Sync, T: Threads + Wait + Sync>(
    threads: &T,
    alloc: Global,
    limits: Limits,
    clients: G,
) -> Result<Entries, Fail>
where
    G::In: Send,
    G::Out: Send,
{
    let blank = Blank::new(alloc)?;
    two_sessions::<G, Brand, T>(threads, alloc, limits, clients, blank)
}

#[test]
fn gate_two_sessions(rt: HostRuntime) -> Result<(), Fail> {
    let pair = [Client::new(HELD.0, HELD.1), Client::new(SERVED.0, SERVED.1)];
    let clients = Clients::new(rt, &pair, After::Read, 6);
    let limits = Limits::checked(16, 2, 4, 4, 100, 64).ok().ok_or("limits")?;
    let entries = gated(&rt, rt.alloc(), limits, &clients)?;
    if entries != (7, 7) || !clients.are_served() {
        return Err("the sessions went otherwise".into());
    }
    Ok(())
}

/// Whether a `remove` that waits at a seat is refused once the hall is to end.
fn is_told<L: Naming + Limited, T: Wait>(
    threads: &T,
    hall: &Hall<u32, L>,
    seat: Seat<u32, L>,
) -> bool {
    let mut port = SeatPort::new(threads, hall, NoVigil, seat);
    let mutator = port.mutator();
    drop(port.ask(Event::ask(Ask::Join { mutator }), None));
    drop(port.ask(Event::ask(Ask::MakeQueue { mutator }), None));
    let remove = Event::ask(Ask::Remove {
        mutator,
        queue: Handle::new(1),
    });
    let reply = port.ask(remove, None);
    let is_refused = would_wait(&reply);
    drop(reply);
    is_refused
}

/// Whether an ask is refused that would have to wait.
fn would_wait(reply: &Reply<u32>) -> bool {
    matches!(
        reply,
        Reply::Answered {
            answer: Answer::Refused(Refusal::WouldWait),
            ..
        }
    )
}

/// Whether it is told so, where the hall is told to end beside it.
fn is_stopped<L: Naming + Limited + Send + Sync, T: Threads + Wait + Sync>(
    threads: &T,
    hall: &Hall<u32, L>,
    seat: Seat<u32, L>,
) -> bool {
    let (told, ()) = thread::join(
        threads,
        move || is_told(threads, hall, seat),
        move || hall.stop(threads),
    );
    told
}

/// The same over a hall of its own.
fn ended<L: Naming + Limited + Send + Sync, T: Threads + Wait + Sync>(
    threads: &T,
    alloc: Global,
    limits: Limits,
    blank: Blank<Step<u32>>,
) -> Result<bool, Fail>
    requires name { blank ≡ L.table }
    requires limits { limits ≡ L.limits }
{
    let (hall, seats) = Hall::<u32, L>::open(alloc, limits, blank)?;
    let told = match seats.into_iter().next() {
        Some(seat) => is_stopped(threads, &hall, seat),
        None => false,
    };
    drop(hall);
    Ok(told)
}

#[test]
fn by_the_end(rt: HostRuntime) -> Result<(), Fail> {
    let limits = Limits::checked(16, 1, 1, 0, 64, 1).ok().ok_or("limits")?;
    let blank = Blank::new(rt.alloc())?;
    if !ended::<Brand, _>(&rt, rt.alloc(), limits, blank)? {
        return Err("it was answered otherwise".into());
    }
    Ok(())
}
