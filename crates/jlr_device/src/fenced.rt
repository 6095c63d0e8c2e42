//! A device in front of another: it lets through only calls with an allowed path, and answers `Denied` to all others.
ghost use Rattle.std.specs.Prelude.{◌≡◌, ◌+◌, ◌^◌, ◌<◌, Bool, true, false, length, IfOk, MatchOption};
ghost use Rattle.jlr_device.specs.Failures.{Counts};
ghost use Rattle.jlr_device.specs.Paths.{placed_below};

use crate::device::{Device, Mode};
use crate::path::{self, PATH_LIMIT};
use crate::places::Places;
use arrayvec::ArrayString;
use jlr_types::Fault;
use std::os::fd::RawFd;

/// Which paths are allowed.
#[derive(Clone, Copy)]
pub enum Fence<'a> {
    /// Every path.
    Everything,
    /// None.
    Nothing,
    /// A path below this folder, at which it starts: it is not empty, does not start at the root, no part of it is
    /// `..`, and joined to the folder it has at most 4,095 bytes. Nothing is below the folder of the empty name.
    Below(&'a str),
}

/// A device that lets calls through to the one below: an open with an allowed path, a `connect` with an allowed path
/// that leads to no socket of the program's own. All others are `Denied`, without a call below. Below a folder a path
/// with a link on its way is denied too: the two questions that the system is asked, and what their answers do not
/// cover, stand in `places`.
#[derive(Drop)]
pub struct Fenced<'a, D, P> {
    device: D,
    places: P,
    fence: Fence<'a>,
    denied: u64,
}

impl<'a, D, P> Fenced<'a, D, P> {
    /// A fence in front of a device.
    pub fn new(device: D, places: P, fence: Fence<'a>) -> Fenced<'a, D, P>
        ensures { result ≡ record { device = device; places = places; fence = fence.entry; denied = 0 } }
    {
        Fenced {
            device,
            places,
            fence,
            denied: 0,
        }
    }

    /// The fault of a call that is not let through. It is counted.
    fn deny(&mut self) -> Fault
        requires { self.old.denied + 1 < 2 ^ 64 }
        ensures fault { result ≡ Fault.Denied }
        ensures counted { self.new ≡ record self.old { denied = self.old.denied + 1 } }
    {
        self.denied += 1;
        Fault::Denied
    }
}

impl<'a, D: Device, P: Places> Fenced<'a, D, P> {
    ghost use Rattle.jlr_device.specs.Fences.{Joins, IsDenied, IsCalled};

    /// The path joined to the folder, where the text allows it and the way is told to be straight.
    fn way(&self, folder: &str, path: &str) -> Option<ArrayString<PATH_LIMIT>>
        ensures { MatchOption (placed_below folder.now path.now) (result ≡ None) (λ whole. (told : Bool)
            × P.may_be_straight self.now.places whole (length folder.now) told
            × MatchOption result (told ≡ false) (λ way. (told ≡ true) × (way.bytes ≡ whole))) }
    {
        let whole = path::placed(folder, path)?;
        if !self.places.is_straight(whole.as_str(), folder.len()) {
            return None;
        }
        Some(whole)
    }

    /// Joins a socket that is none of the program's own.
    fn join(&mut self, path: &str) -> Result<D::Res, Fault>
        requires { D.count self.old.device + self.old.denied + 1 < 2 ^ 64 }
        ensures counted { Counts (D.count self.old.device + self.old.denied) result
            (D.count self.new.device + self.new.denied) }
        ensures fresh { IfOk result (λ resource. D.Res.handling.count resource ≡ 0) }
        ensures told { Joins (P.may_be_own self.old.places) (λ at. IsCalled D.may_connect self.old at result self.new)
            (IsDenied self.old result self.new) path.now }
    {
        if self.places.is_own(path) {
            return Err(self.deny());
        }
        self.device.connect(path)
    }
}

impl<'a, D: Device, P: Places> Device for Fenced<'a, D, P> {
    ghost use Rattle.std.specs.Prelude.{◌≡◌, ◌+◌, ◌-◌, ◌^◌, min, Err};
    ghost use Rattle.jlr_device.specs.Fences.{Lets, Joins, IsDenied, IsCalled, IsAttended};

    type Res = D::Res;

    // those of the device below and the denied ones, at most the last value
    ghost count = { λ f. min (D.count f.device + f.denied) (2 ^ 64 - 1) };

    ghost may_open = { λ old mode path result new. Lets (P.may_be_straight old.places)
        (λ at. IsCalled (λ d. D.may_open d mode) old at result new) (IsDenied old result new) old.fence path };

    ghost may_connect = { λ old path result new. Lets (P.may_be_straight old.places)
        (λ at. Joins (P.may_be_own old.places) (λ at. IsCalled D.may_connect old at result new)
        (IsDenied old result new) at) (IsDenied old result new) old.fence path };

    ghost may_attend = { IsAttended D.may_attend };

    fn failures(&self) -> u64 {
        self.device.failures().saturating_add(self.denied)
    }

    fn open(&mut self, mode: Mode, path: &str) -> Result<Self::Res, Fault> {
        match self.fence {
            Fence::Everything => self.device.open(mode, path),
            Fence::Nothing => Err(self.deny()),
            Fence::Below(folder) => match self.way(folder, path) {
                Some(whole) => self.device.open(mode, whole.as_str()),
                None => Err(self.deny()),
            },
        }
    }

    fn connect(&mut self, path: &str) -> Result<Self::Res, Fault> {
        match self.fence {
            Fence::Everything => self.join(path),
            Fence::Nothing => Err(self.deny()),
            Fence::Below(folder) => match self.way(folder, path) {
                Some(whole) => self.join(whole.as_str()),
                None => Err(self.deny()),
            },
        }
    }

    fn attend(&mut self, client: Option<RawFd>) {
        self.device.attend(client);
    }

    fn read(&self, resource: &mut Self::Res, buf: &mut [u8]) -> Result<usize, Fault> {
        self.device.read(resource, buf)
    }

    fn write(&self, resource: &mut Self::Res, bytes: &[u8]) -> Result<usize, Fault> {
        self.device.write(resource, bytes)
    }
}
