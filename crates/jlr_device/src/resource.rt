//! An open file or a connected socket.

use jlr_types::Fault;

/// How a resource ended.
#[derive(Clone, Copy, PartialEq, Eq, Debug)]
pub struct Finished {
    /// Whether it ended well.
    pub outcome: Result<(), Fault>,
    /// How many of its calls failed, the last one among them.
    pub failures: u64,
}

/// An open file or a connected socket. It sees reads and writes, then at most one `finish`, then nothing.
pub trait Resource {
    ghost use Rattle.std.specs.Prelude.{◌≡◌, ◌+◌, ◌^◌, ◌<◌, ◌≤◌, Result, length, IfOk};
    ghost use Rattle.jlr_types.specs.declared.Fault.{Fault};
    ghost use Rattle.jlr_device.specs.Failures.{Counts};
    ghost use Rattle.jlr_device.specs.Handling.{Handling};

    // how many of its calls failed, and what they may do
    ghost handling: { Handling Self };

    /// How many calls failed.
    fn failures(&self) -> u64
        ensures { result ≡ handling.count self.now };

    /// Reads bytes to the front of `buf`, and answers how many; 0 at the end.
    fn read(&mut self, buf: &mut [u8]) -> Result<usize, Fault>
        requires { handling.count self.old + 1 < 2 ^ 64 }
        ensures bound { IfOk result (λ n. n ≤ length buf.old) }
        ensures counted { Counts (handling.count self.old) result (handling.count self.new) }
        ensures told { handling.reads self.old buf.old result buf.new self.new };

    /// Writes bytes of the front of `bytes`, and answers how many, which may be fewer than there are.
    fn write(&mut self, bytes: &[u8]) -> Result<usize, Fault>
        requires { handling.count self.old + 1 < 2 ^ 64 }
        ensures bound { IfOk result (λ n. n ≤ length bytes.now) }
        ensures counted { Counts (handling.count self.old) result (handling.count self.new) }
        ensures told { handling.writes self.old bytes.now result self.new };

    /// Ends the resource: a file's bytes go to the disk, a socket is shut down both ways, and then it is gone.
    fn finish(self) -> Finished
        requires { handling.count self + 1 < 2 ^ 64 }
        ensures counted { Counts (handling.count self) result.outcome result.failures }
        ensures told { handling.finishes self result };
}
