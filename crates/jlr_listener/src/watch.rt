//! News of clients that go, and of who asks a server to end.
ghost use Rattle.std.specs.Prelude.{◌≡◌, true};

use std::sync::Wait;

/// How the connections of all clients are closed.
#[derive(Clone, Copy, PartialEq, Eq, Debug)]
pub enum Closing {
    /// What a client sent before is answered. It sends no more.
    Drained,
    /// Nothing is sent either.
    Cut,
}

/// What a watcher tells.
#[derive(Clone, Copy, PartialEq, Eq, Debug)]
pub enum News {
    /// The client of this number is gone: it sends nothing and takes nothing any more.
    Gone(u32),
    /// The server is asked to end.
    Asked(Closing),
    /// Nothing more is told.
    Over,
}

/// Tells of clients that go, and of who asks the server to end.
pub trait Watcher {
    ghost use Rattle.std.specs.Prelude.{◌≡◌, Bool, true};
    ghost use Rattle.jlr_listener.specs.News.{TellsAsked};

    // whether it has told that the server is asked to end
    ghost asked: { Self → Bool };

    /// Waits for news.
    fn news<T: Wait>(&mut self, rt: &T) -> News
        ensures told { TellsAsked result (asked self.new) }
        ensures stays { asked self.old ≡ true → asked self.new ≡ true };
}

/// Tells nothing.
#[derive(Clone, Copy)]
pub struct NoWatcher;

impl Watcher for NoWatcher {
    ghost use Rattle.std.specs.Prelude.{false};

    ghost asked = { λ _. false };

    fn news<T: Wait>(&mut self, _rt: &T) -> News {
        News::Over
    }
}
