//! Serves the clients of a test, and looks at what is left.
ghost use Rattle.std.specs.Prelude.{◌≡◌, IfOk, length};

use super::clients::{After, Client, Clients};
use jlr_device::gate::{Gate, GateDevice};
use jlr_listener::acceptor::Acceptor;
use jlr_server::Book;
use jlr_server::hall::history::Blank;
use jlr_server::server::{ServeFault, Served, serve_over};
use jlr_types::Limits;
use std::alloc::{AllocError, Global};
use std::marker::Brand;
use std::sync::Wait;
use std::test::Fail;
use std::thread::Threads;

/// How many entries the first two seats have.
pub(super) type Entries = (usize, usize);

/// Serves clients over a hall of so many cells, with a seat for each. Each has to be answered as it says.
pub(super) fn serve_all<T: Threads + Wait + Sync>(
    rt: HostRuntime,
    threads: &T,
    cells: u32,
    clients: &[Client],
    after: After,
    opens_at: u64,
) -> Result<Entries, Fail> {
    let sessions = u32::try_from(clients.len()).ok().ok_or("clients")?;
    let limits = Limits::checked(cells, sessions, 4, 4, 100_000, 64)
        .ok()
        .ok_or("limits")?;
    let clients = Clients::new(rt, clients, after, opens_at);
    let entries = served(rt.alloc(), threads, limits, &clients).ok_or("it was not served")?;
    if !clients.are_served() {
        return Err("a client was answered otherwise".into());
    }
    Ok(entries)
}

/// How many entries the first two seats have, where the clients were served.
fn served<G: Gate + Acceptor + Copy + Drop + Send + Sync, T: Threads + Wait + Sync>(
    alloc: Global,
    threads: &T,
    limits: Limits,
    clients: G,
) -> Option<Entries>
where
    G::In: Send,
    G::Out: Send,
{
    let devices = devices(alloc, clients, limits.sessions).ok()?;
    let blank = Blank::new(alloc).ok()?;
    entries_of(serve_over::<G, GateDevice<G>, Brand, T>(
        threads,
        alloc,
        limits,
        limits.sessions,
        &clients,
        devices,
        blank,
    ))
}

/// A device for each session.
pub(super) fn devices<G: Gate + Copy + Drop>(
    alloc: Global,
    gate: G,
    sessions: u32,
) -> Result<Vec<GateDevice<G>>, AllocError>
    ensures { IfOk result (λ devices. length devices.items ≡ sessions) }
{
    let mut devices = Vec::new(alloc);
    for _ in 0..sessions {
        devices.push(GateDevice::new(gate))?;
    }
    Ok(devices)
}

/// How many entries the first two seats have, where clients were served. The book is let go.
fn entries_of<R: Drop, D: Drop>(served: Result<Served<R, D>, ServeFault>) -> Option<Entries> {
    let served = served.ok()?;
    let entries = entries(&served.book);
    drop(served);
    Some(entries)
}

/// How many entries the first two seats have in a book.
pub(super) fn entries<R: Drop>(book: &Book<R>) -> Entries {
    let of = |seat: u8| book
        .records()
        .iter()
        .filter(|record| record.seat == seat)
        .count();
    (of(0), of(1))
}
