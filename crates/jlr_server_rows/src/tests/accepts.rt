//! Accepts that fail while a client is there, as where descriptors ran out: whoever could not accept waits until a
//! client has left, so that few accepts are used up.
use super::clients::{After, Client, Clients, pause};
use super::player::devices;
use jlr_device::gate::{Gate, GateDevice};
use jlr_listener::acceptor::{AcceptId, Acceptor};
use jlr_server::hall::history::Blank;
use jlr_server::server::{ServeFault, Served, serve_over};
use jlr_types::{Fault, Limits};
use std::marker::Brand;
use std::sync::Wait;
use std::sync::atomic::{AtomicU64, Ordering};
use std::test::Fail;
use std::thread::Threads;

/// For how many moments a client stays once an accept has failed: another that is not waited for fails meanwhile.
const STAYS: u64 = 2_000;

/// How many moments a client waits at most for an accept that fails.
const TURNS: u64 = 1_000_000;

/// Gives one client at a time.
#[derive(Drop)]
struct OneAtATime<G> {
    rt: HostRuntime,
    clients: G,
    there: AtomicU64,
    failed: AtomicU64,
}

impl<G> OneAtATime<G> {
    /// Waits until an accept has failed, and a while longer.
    fn stay(&self) {
        for _ in 0..TURNS {
            if self.failed.load(Ordering::SeqCst) > 0 {
                break;
            }
            pause(self.rt);
        }
        for _ in 0..STAYS {
            pause(self.rt);
        }
    }
}

impl<G: Acceptor> Acceptor for &OneAtATime<G> {
    type In = G::In;

    type Out = G::Out;

    fn accept<T: Wait>(&self, rt: &T, id: AcceptId, client: u32) -> Result<(G::In, G::Out), Fault> {
        if self.there.fetch_add(1, Ordering::SeqCst) == 0 {
            return self.clients.accept(rt, id, client);
        }
        self.there.fetch_sub(1, Ordering::SeqCst);
        self.failed.fetch_add(1, Ordering::SeqCst);
        Err(Fault::Other)
    }

    fn leave<T: Wait>(&self, rt: &T, id: AcceptId, client: u32, input: G::In, output: G::Out) {
        self.stay();
        self.clients.leave(rt, id, client, input, output);
        self.there.fetch_sub(1, Ordering::SeqCst);
    }
}

/// How many accepts were made, and how many of these gave nobody.
fn counts_of<R: Drop, D: Drop>(served: Result<Served<R, D>, ServeFault>) -> Option<(u32, u32)> {
    let served = served.ok()?;
    let counts = (served.accepts, served.missed);
    drop(served);
    Some(counts)
}

/// Serves the clients by two workers and four accepts.
fn counts<G: Gate + Acceptor + Copy + Drop + Send + Sync, T: Threads + Wait + Sync>(
    rt: HostRuntime,
    threads: &T,
    clients: G,
) -> Option<(u32, u32)>
where
    G::In: Send,
    G::Out: Send,
{
    let limits = Limits::checked(16, 2, 4, 4, 100, 64).ok()?;
    let acceptor = OneAtATime {
        rt,
        clients,
        there: AtomicU64::new(0),
        failed: AtomicU64::new(0),
    };
    let devices = devices(rt.alloc(), clients, limits.sessions).ok()?;
    let blank = Blank::new(rt.alloc()).ok()?;
    let giver = &acceptor;
    counts_of(serve_over::<&OneAtATime<G>, GateDevice<G>, Brand, T>(
        threads,
        rt.alloc(),
        limits,
        4,
        &giver,
        devices,
        blank,
    ))
}

#[test]
fn who_cannot_accept_waits(rt: HostRuntime) -> Result<(), Fail> {
    let pair = [
        Client::new("new -; stat; bye", "= 1; stat 1 0 0 0 0; ok"),
        Client::new("new r; stat; bye", "= 1; stat 2 0 0 0 0; ok"),
    ];
    let clients = Clients::new(rt, &pair, After::Nothing, 0);
    if counts(rt, &rt, &clients) != Some((4, 2)) {
        return Err("accepts were used up".into());
    }
    if !clients.are_served() {
        return Err("a client was answered otherwise".into());
    }
    Ok(())
}
