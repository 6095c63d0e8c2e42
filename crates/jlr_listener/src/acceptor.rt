//! Who gives clients to a server, and takes them back.
use crate::watch::{Closing, Watcher};
use jlr_types::Fault;
use std::io::{Read, Write};
use std::os::fd::RawFd;
use std::sync::Wait;

/// Which accept it is: the one of this number, from 0, at this seat.
#[derive(Clone, Copy, PartialEq, Eq, Debug)]
pub struct AcceptId {
    pub seat: u8,
    pub number: u64,
}

/// Gives clients, one after the other, to whoever asks, and takes them back.
pub trait Acceptor {
    ghost use Rattle.std.specs.Prelude.{◌≡◌, true, IfErr, IfOk};
    ghost use Rattle.jlr_listener.specs.Giving.{Giving};

    /// What a client sends.
    type In: Read + Drop;
    /// Where its replies go.
    type Out: Write + Drop;

    // whom an accept gives, why it gives nobody, and what is given back
    ghost giving: { Giving Self Self.In Self.Out } = { record {
      gives = λ _ _ _ _. Unit {0};
      fails = λ _ _ _. Unit {0};
      takes = λ _ _ _ _. Unit {0};
    } };

    /// The next client, which has this number until it leaves. It may wait for one.
    ///
    /// # Errors
    /// Why none came. Once `close` was called none does.
    fn accept<T: Wait>(
        &self,
        rt: &T,
        id: AcceptId,
        client: u32,
    ) -> Result<(Self::In, Self::Out), Fault>
        ensures gives { IfOk result (λ came. giving.gives self.now id came.0 came.1) }
        ensures fails { IfErr result (λ fault. giving.fails self.now id fault) };

    /// The descriptor of a client's connection, if it has one: while that is up, calls for the client may wait.
    fn descriptor(&self, _input: &Self::In) -> Option<RawFd> {
        None
    }

    /// From now on the watcher tells where this client goes, also where it is gone already. Whether that can be.
    fn watch<T: Wait>(&self, _rt: &T, _client: u32) -> bool {
        true
    }

    /// The watcher tells nothing of this client any more.
    fn unwatch<T: Wait>(&self, _rt: &T, _client: u32) {}

    /// A client leaves: what it sent and was not read, and where its replies went, are let go.
    fn leave<T: Wait>(&self, rt: &T, id: AcceptId, client: u32, input: Self::In, output: Self::Out)
        ensures takes { giving.takes self.now id input output };

    /// Ends the accept that is under way and all later ones, and closes the connections of the clients that are there.
    /// Only where a watcher told that the server is asked to end.
    fn close<T: Wait, W: Watcher>(&self, _rt: &T, _watcher: &W, _closing: Closing)
        requires { W.asked _watcher.now ≡ true }
    {}

    /// Has the watcher tell that it is over.
    fn dismiss(&self) {}
}
