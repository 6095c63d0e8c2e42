//! What is done at the seats of a hall: sessions one after the other, or a loop.
ghost use Rattle.std.specs.Prelude.{◌≡◌, ◌≤◌, ◌<◌, ◌+◌, ℕ, List, [], IsSome, length};
ghost use Rattle.std.specs.Io.KnownBytes.{Appends, Consumes};
ghost use Rattle.jlr_types.specs.declared.Fault.{Fault};
ghost use Rattle.jlr_session.specs.Limits.{FindsEnd, most_bytes};
ghost use Rattle.jlr_session.specs.Serving.{Serves};
ghost use Rattle.jlr_session.specs.declared.shell.SessionEnd.{SessionEnd};
ghost use Rattle.jlr_log.specs.Seeing.{seen};
ghost use Rattle.jlr_hall.specs.Ports.{by_seat};
ghost use Rattle.jlr_server.specs.Serving.{IsUnasked, IsWork, Stays, next_of};

use crate::clients::ClientVigil;
use jlr_device::{Device, Resource};
use jlr_hall::hall::Hall;
use jlr_hall::history::Naming;
use jlr_hall::loops::{cleaner_loop, handler_loop, marker_loop};
use jlr_hall::port::SeatPort;
use jlr_hall::seat::Seat;
use jlr_hall::step::Limited;
use jlr_hall::vigil::Vigil;
use jlr_listener::acceptor::{AcceptId, Acceptor};
use jlr_session::serve::serve;
use std::io::{Read, Write};
use std::marker::{Model, PhantomData};
use std::snapshot::Snapshot;
use std::sync::Wait;
use std::thread::Promise;

/// A session over a seat: the client's lines are carried out in the name of the seat's mutator, each ask a step of the
/// one history. The device opens the client's files and sockets.
fn serve_seat<I: Read, O: Write, D: Device, L: Naming + Limited, T: Wait, V: Vigil + Drop>(
    rt: &T,
    hall: &Hall<D::Res, L>,
    vigil: V,
    seat: Seat<D::Res, L>,
    input: &mut I,
    output: &mut O,
    device: &mut D,
) -> Seat<D::Res, L>
where
    D::Res: Drop,
    ensures { (end : SessionEnd) × (bytes : List ℕ) × (out : List ℕ)
        × Consumes (I.remaining input.old) (I.remaining input.new) bytes
        × Appends (O.contents output.old) (O.contents output.new) out
        × (length bytes ≤ most_bytes)
        × Serves (by_seat L.limits) (record {
          count = D.count;
          opens = D.may_open;
          connects = D.may_connect;
          failures = D.Res.handling.count;
        })
        D.Res.handling
        (FindsEnd (I.remaining input.new) bytes) end bytes seat device.old out result device.new }
{
    let mut port = SeatPort::new(rt, hall, vigil, seat);
    let _end = serve(input, output, &mut port, device);
    port.into_seat()
}

/// A seat, and what was done there since its hall was opened: how many sessions were served, one after the other, and
/// how many accepts gave no client. At a seat of a loop it is what that loop did. A seat of sessions has the device
/// that opens their files and sockets; contracts also see that with which it began.
pub struct Worked<A: Acceptor, D: Device, L: Naming + Limited> {
    seat: Seat<D::Res, L>,
    first: Snapshot<Option<D>>,
    device: Option<D>,
    sessions: u32,
    missed: u32,
    of: PhantomData<A::In>,
}

// By hand: each exit of a caller then has one call, where a derived drop writes out every field.
impl<A: Acceptor, D: Device + Drop, L: Naming + Limited> Drop for Worked<A, D, L> {
    fn drop(self) {
        let Worked {
            seat: _,
            first: _,
            device: _,
            sessions: _,
            missed: _,
            of: _,
        } = self;
    }
}

impl<A: Acceptor, D: Device, L: Naming + Limited> Model for Worked<A, D, L> {
    ghost use Rattle.jlr_server.specs.Serving.{IsWork, Work};

    ghost Value = { Work D D.Res };

    ghost view = { λ w. record {
      seat = w.seat;
      first = w.first.value;
      last = w.device;
      sessions = w.sessions;
      missed = w.missed;
    } };

    ghost invariant = { λ w. IsWork L.limits (record {
      count = D.count;
      opens = D.may_open;
      connects = D.may_connect;
      failures = D.Res.handling.count;
    })
        D.may_attend D.Res.handling A.giving A.In.remaining A.Out.contents
        (record {
          seat = w.seat;
          first = w.first.value;
          last = w.device;
          sessions = w.sessions;
          missed = w.missed;
        }) };
}

/// That a seat stays the one that it is, and that it began with this device.
#[derive(Drop)]
pub(crate) struct Same<A: Acceptor, D: Device, L: Naming + Limited> {
    pub(crate) work: Snapshot<Worked<A, D, L>>,
}

impl<A: Acceptor, D: Device, L: Naming + Limited> Promise<Worked<A, D, L>> for Same<A, D, L> {
    ghost use Rattle.jlr_server.specs.Serving.{Stays};

    ghost kept_by = { λ promise work. Stays promise.work.value work };
}

impl<A: Acceptor, D: Device + Drop, L: Naming + Limited> Worked<A, D, L>
where
    D::Res: Drop,
{
    /// A seat at which nothing was done. One of sessions has a device.
    pub(crate) fn new(seat: Seat<D::Res, L>, device: Option<D>) -> Self
        requires fresh { seat ≡ seen seat.seat [] }
        requires device { seat.seat < L.limits.sessions → IsSome device }
        ensures { result ≡ record { seat = seat; first = device; last = device; sessions = 0; missed = 0 } }
    {
        let first = Snapshot::of(&device);
        Worked {
            seat,
            first,
            device,
            sessions: 0,
            missed: 0,
            of: PhantomData,
        }
    }

    /// Which accept the next one at this seat is.
    pub(crate) fn next_accept(&self) -> AcceptId
        ensures { result ≡ next_of self.now }
    {
        AcceptId {
            seat: self.seat.index(),
            number: u64::from(self.sessions) + u64::from(self.missed),
        }
    }

    /// A session more, with the client that came, whom the device attends meanwhile, and who then leaves. A seat at
    /// which 2^32 - 1 were served serves none.
    pub(crate) fn serve<T: Wait>(
        self,
        rt: &T,
        hall: &Hall<D::Res, L>,
        acceptor: &A,
        client: u32,
        came: (A::In, A::Out),
    ) -> Self
        requires seat { self.seat.seat < L.limits.sessions }
        requires came { A.giving.gives acceptor.now (next_of self) came.0 came.1 }
        ensures { Stays self result }
    {
        let id = self.next_accept();
        let (mut input, mut output) = came;
        if self.sessions == u32::MAX {
            acceptor.leave(rt, id, client, input, output);
            return self;
        }
        let Worked {
            seat,
            first,
            device,
            sessions,
            missed,
            of,
        } = self;
        let Some(mut device) = device else {
            unreachable!();
        };
        let vigil = ClientVigil {
            rt,
            acceptor,
            client,
        };
        device.attend(acceptor.descriptor(&input));
        let seat = serve_seat(rt, hall, vigil, seat, &mut input, &mut output, &mut device);
        device.attend(None);
        acceptor.leave(rt, id, client, input, output);
        Worked {
            seat,
            first,
            device: Some(device),
            sessions: sessions + 1,
            missed,
            of,
        }
    }

    /// An accept more, that failed and gave no client. A seat at which 2^32 - 1 did counts none.
    pub(crate) fn miss(self) -> Self
        requires seat { self.seat.seat < L.limits.sessions }
        requires fails { (acceptor : A) × (fault : Fault) × A.giving.fails acceptor (next_of self) fault }
        ensures { Stays self result }
    {
        if self.missed == u32::MAX {
            return self;
        }
        let Worked {
            seat,
            first,
            device,
            sessions,
            missed,
            of,
        } = self;
        Worked {
            seat,
            first,
            device,
            sessions,
            missed: missed + 1,
            of,
        }
    }

    /// What the marker's loop does, by pieces of the budget of the limits, until the hall is to end.
    pub(crate) fn mark<T: Wait>(self, rt: &T, hall: &Hall<D::Res, L>) -> Self
        requires fresh { IsUnasked self }
        requires seat { self.seat.seat ≡ L.limits.sessions }
        ensures { Stays self result }
    {
        let Worked {
            seat,
            first,
            device,
            of,
            sessions: _,
            missed: _,
        } = self;
        let budget = hall.budget(rt);
        Worked {
            seat: marker_loop(seat, rt, hall, budget),
            first,
            device,
            sessions: 0,
            missed: 0,
            of,
        }
    }

    /// What the handler's loop does, until the hall is to end.
    pub(crate) fn hand_over<T: Wait>(self, rt: &T, hall: &Hall<D::Res, L>) -> Self
        requires fresh { IsUnasked self }
        requires seat { self.seat.seat ≡ L.limits.sessions + 1 }
        ensures { Stays self result }
    {
        let Worked {
            seat,
            first,
            device,
            of,
            sessions: _,
            missed: _,
        } = self;
        Worked {
            seat: handler_loop(seat, rt, hall),
            first,
            device,
            sessions: 0,
            missed: 0,
            of,
        }
    }

    /// What the cleaner's loop does, until the hall is to end.
    pub(crate) fn clean<T: Wait>(self, rt: &T, hall: &Hall<D::Res, L>) -> Self
        requires fresh { IsUnasked self }
        requires seat { self.seat.seat ≡ L.limits.sessions + 2 }
        ensures { Stays self result }
    {
        let Worked {
            seat,
            first,
            device,
            of,
            sessions: _,
            missed: _,
        } = self;
        Worked {
            seat: cleaner_loop(seat, rt, hall),
            first,
            device,
            sessions: 0,
            missed: 0,
            of,
        }
    }

    /// Which seat it is.
    pub(crate) fn index(&self) -> u8
        ensures { result ≡ self.now.seat.seat }
    {
        self.seat.index()
    }

    /// The seat, its device, how many sessions were served there, and how many accepts gave none.
    pub(crate) fn into_parts(self) -> (Seat<D::Res, L>, Option<D>, u32, u32)
        ensures parts { (result.0 ≡ self.seat) × (result.1 ≡ self.last) × (result.2 ≡ self.sessions)
            × (result.3 ≡ self.missed) }
        ensures done { IsWork L.limits (record {
          count = D.count;
          opens = D.may_open;
          connects = D.may_connect;
          failures = D.Res.handling.count;
        }) D.may_attend D.Res.handling A.giving A.In.remaining A.Out.contents self }
    {
        let Worked {
            seat,
            device,
            sessions,
            missed,
            first: _,
            of: _,
        } = self;
        (seat, device, sessions, missed)
    }
}
