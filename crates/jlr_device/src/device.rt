//! What opens files and joins sockets.

use crate::resource::Resource;
use jlr_types::Fault;
use std::os::fd::RawFd;

/// What a file is opened for.
#[derive(Clone, Copy, PartialEq, Eq, Debug)]
pub enum Mode {
    /// Reading: the file is there already.
    Read,
    /// Writing: the file is made, or loses what it holds.
    Write,
}

/// What opens files and joins sockets.
pub trait Device {
    ghost use Rattle.std.specs.Prelude.{◌≡◌, ◌⊎◌, ℕ, ◌+◌, ◌^◌, ◌<◌, ◌≤◌, List, Result, IfOk, length};
    ghost use Rattle.jlr_types.specs.declared.Fault.{Fault};
    ghost use Rattle.jlr_device.specs.Failures.{Counts};
    ghost use Rattle.jlr_device.specs.declared.device.Mode.{Mode};

    type Res: Resource;

    // how many calls failed
    ghost count: { Self → ℕ };

    // what an open may do: the device before, the mode, the path, the answer, and the device after
    ghost may_open: { Self → Mode → List ℕ → Result Self.Res Fault → Self → Type 0 } = { λ _ _ _ _ _. Unit {0} };

    // what joining a socket may do: the device before, the path, the answer, and the device after
    ghost may_connect: { Self → List ℕ → Result Self.Res Fault → Self → Type 0 } = { λ _ _ _ _. Unit {0} };

    // what attending a client may do, if anything: the device before, and after
    ghost may_attend: { Self → Self → Type 0 } = { λ _ _. Unit {0} };

    /// How many calls failed.
    fn failures(&self) -> u64
        ensures { result ≡ count self.now };

    /// Opens a file. No call of the resource has failed yet.
    fn open(&mut self, mode: Mode, path: &str) -> Result<Self::Res, Fault>
        requires { count self.old + 1 < 2 ^ 64 }
        ensures counted { Counts (count self.old) result (count self.new) }
        ensures fresh { IfOk result (λ resource. Self.Res.handling.count resource ≡ 0) }
        ensures told { may_open self.old mode path.now result self.new };

    /// Joins a socket. No call of the resource has failed yet.
    fn connect(&mut self, path: &str) -> Result<Self::Res, Fault>
        requires { count self.old + 1 < 2 ^ 64 }
        ensures counted { Counts (count self.old) result (count self.new) }
        ensures fresh { IfOk result (λ resource. Self.Res.handling.count resource ≡ 0) }
        ensures told { may_connect self.old path.now result self.new };

    /// From now on the calls are made for the client of this connection, if there is one. The descriptor stays open as
    /// long.
    fn attend(&mut self, _client: Option<RawFd>)
        ensures count { count self.new ≡ count self.old }
        ensures told { (self.new ≡ self.old) ⊎ may_attend self.old self.new }
    {}

    /// Reads of a resource as it reads itself. Where it would have to wait, and the client goes meanwhile, it fails,
    /// and nothing is read.
    fn read(&self, resource: &mut Self::Res, buf: &mut [u8]) -> Result<usize, Fault>
        requires { Self.Res.handling.count resource.old + 1 < 2 ^ 64 }
        ensures bound { IfOk result (λ n. n ≤ length buf.old) }
        ensures counted { Counts (Self.Res.handling.count resource.old) result (Self.Res.handling.count resource.new) }
        ensures told { Self.Res.handling.reads resource.old buf.old result buf.new resource.new }
    {
        resource.read(buf)
    }

    /// Writes to a resource as it writes itself. Where it would have to wait, and the client goes meanwhile, it fails,
    /// and nothing is written.
    fn write(&self, resource: &mut Self::Res, bytes: &[u8]) -> Result<usize, Fault>
        requires { Self.Res.handling.count resource.old + 1 < 2 ^ 64 }
        ensures bound { IfOk result (λ n. n ≤ length bytes.now) }
        ensures counted { Counts (Self.Res.handling.count resource.old) result (Self.Res.handling.count resource.new) }
        ensures told { Self.Res.handling.writes resource.old bytes.now result resource.new }
    {
        resource.write(bytes)
    }
}
