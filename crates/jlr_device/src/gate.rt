//! A device whose resources wait at a gate: for tests of sessions that run side by side.
ghost use Rattle.std.specs.Prelude.{◌≡◌};

use crate::device::{Device, Mode};
use crate::resource::{Finished, Resource};
use crate::script::fill;
use jlr_types::Fault;

/// What a read waits at.
pub trait Gate {
    /// Tells that a read has come.
    fn arrived(&self);

    /// Takes a turn, and answers whether the gate is open.
    fn turn(&self) -> bool;
}

/// So many turns a read takes at most.
const TURNS: u32 = 1_000_000;

/// What a read gives once the gate is open.
const BYTES: [u8; 4] = [1, 2, 3, 4];

/// A device whose opens and joinings succeed. The first read of each of its resources waits at the gate.
#[derive(Drop)]
pub struct GateDevice<G> {
    gate: G,
    failures: u64,
}

impl<G> GateDevice<G> {
    /// A device of this gate, no call of which has failed.
    pub fn new(gate: G) -> Self {
        GateDevice { gate, failures: 0 }
    }
}

/// A resource whose first read waits at the gate, for 1,000,000 turns at most, and then gives 1, 2, 3, 4; it fails with
/// `Other` where the gate stayed shut. Other reads give nothing, and writes take all.
#[derive(Drop)]
pub struct GateResource<G> {
    gate: G,
    waited: bool,
    failures: u64,
}

impl<G: Gate + Copy + Drop> GateDevice<G> {
    fn resource(&self) -> GateResource<G>
        ensures { result.failures ≡ 0 }
    {
        GateResource {
            gate: self.gate,
            waited: false,
            failures: 0,
        }
    }
}

impl<G: Gate + Copy + Drop> Device for GateDevice<G> {
    type Res = GateResource<G>;

    ghost count = { λ d. d.failures };

    fn failures(&self) -> u64 {
        self.failures
    }

    fn open(&mut self, _mode: Mode, _path: &str) -> Result<Self::Res, Fault> {
        Ok(self.resource())
    }

    fn connect(&mut self, _path: &str) -> Result<Self::Res, Fault> {
        Ok(self.resource())
    }
}

impl<G: Gate + Drop> Resource for GateResource<G> {
    ghost use Rattle.jlr_device.specs.Gates.{ReadsGate, WritesGate, FinishesGate};

    ghost handling = { record {
      count = λ r. r.failures;
      reads = ReadsGate;
      writes = WritesGate;
      finishes = FinishesGate;
    } };

    fn failures(&self) -> u64 {
        self.failures
    }

    fn read(&mut self, buf: &mut [u8]) -> Result<usize, Fault> {
        if self.waited {
            return Ok(0);
        }
        self.waited = true;
        if !opens(&self.gate) {
            self.failures += 1;
            return Err(Fault::Other);
        }
        Ok(fill(buf, &BYTES))
    }

    fn write(&mut self, bytes: &[u8]) -> Result<usize, Fault> {
        Ok(bytes.len())
    }

    fn finish(self) -> Finished {
        Finished {
            outcome: Ok(()),
            failures: self.failures,
        }
    }
}

/// Waits at a gate. Whether it opened within the turns that are taken at most.
fn opens<G: Gate>(gate: &G) -> bool {
    gate.arrived();
    for _ in 0..TURNS {
        if gate.turn() {
            return true;
        }
    }
    false
}
