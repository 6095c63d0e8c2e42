//! What a server keeps of its clients: who looks after one, and what the watcher told of all.
ghost use Rattle.std.specs.Prelude.{◌≡◌, true};

use jlr_hall::vigil::Vigil;
use jlr_listener::acceptor::Acceptor;
use jlr_listener::watch::Watcher;
use std::marker::Model;
use std::sync::Wait;

/// Looks after one client by its acceptor.
#[derive(Clone, Copy)]
pub(crate) struct ClientVigil<'a, A, T> {
    pub(crate) rt: &'a T,
    pub(crate) acceptor: &'a A,
    pub(crate) client: u32,
}

impl<'a, A: Acceptor, T: Wait> Vigil for ClientVigil<'a, A, T> {
    fn begin(&self) -> bool {
        self.acceptor.watch(self.rt, self.client)
    }

    fn end(&self) {
        self.acceptor.unwatch(self.rt, self.client);
    }
}

/// A watcher, once it has told its last, and whether it told that the server is asked to end. Contracts see the
/// watcher.
#[derive(Drop)]
pub(crate) struct Heard<W: Watcher> {
    pub(crate) watcher: W,
    pub(crate) asked: bool,
}

impl<W: Watcher> Model for Heard<W> {
    ghost Value = { W };

    ghost view = { λ h. h.watcher };

    ghost invariant = { λ h. h.asked ≡ true → W.asked h.watcher ≡ true };
}
