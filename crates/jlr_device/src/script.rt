//! A device in memory whose calls go as they are scripted.
ghost use Rattle.std.specs.Prelude.{◌≡◌, ◌+◌, ◌^◌, ◌<◌, IfOk, length, drop, min, slice_get};
ghost use Rattle.jlr_device.specs.Failures.{Counts};
ghost use Rattle.jlr_device.specs.Scripts.{filled};

use crate::device::{Device, Mode};
use crate::resource::{Finished, Resource};
use jlr_types::Fault;
use std::collections::VecDeque;
use std::marker::Model;

/// What becomes of one open or one joining of a socket, and of its resource.
#[derive(Drop)]
pub struct Script {
    /// The outcome of the open.
    pub opened: Result<(), Fault>,
    /// One for each read or write. After the last, a read gives 0 and a write takes all.
    pub steps: Vec<Step>,
    /// The outcome of the `finish`.
    pub finished: Result<(), Fault>,
}

/// What becomes of one read or write. At a step of the other sort a read gives 0 and a write takes all.
#[derive(Drop)]
pub enum Step {
    /// A read gives these bytes, or as many of them as are asked for; the rest is lost.
    Bytes(Vec<u8>),
    /// A write takes so many bytes, or all that there are.
    Take(usize),
    /// The call fails.
    Fail(Fault),
}

/// A device that follows scripts, one for each open or joining. After the last one these succeed.
#[derive(Drop)]
pub struct ScriptDevice {
    scripts: VecDeque<Script>,
    failures: u64,
}

impl Model for ScriptDevice {
    ghost use Rattle.jlr_device.specs.Scripts.{Scripts};

    ghost Value = { Scripts };

    ghost view = { λ d. record { scripts = d.scripts.items; failures = d.failures } };
}

impl ScriptDevice {
    ghost use Rattle.jlr_device.specs.Scripts.{OpensScript};

    /// A device with these scripts, the first one first, after so many failures.
    pub fn new(scripts: Vec<Script>, failures: u64) -> ScriptDevice
        ensures { result ≡ record { scripts = scripts.items; failures = failures } }
    {
        ScriptDevice {
            scripts: VecDeque::from_vec(scripts),
            failures,
        }
    }

    /// A resource by the next script.
    fn next_resource(&mut self) -> Result<ScriptResource, Fault>
        requires { self.old.failures + 1 < 2 ^ 64 }
        ensures counted { Counts self.old.failures result self.new.failures }
        ensures fresh { IfOk result (λ resource. resource.failures ≡ 0) }
        ensures told { OpensScript self.old result self.new }
    {
        let Some(script) = self.scripts.pop_front() else {
            return Ok(ScriptResource {
                steps: None,
                finished: Ok(()),
                failures: 0,
            });
        };
        let Script {
            opened,
            steps,
            finished,
        } = script;
        match opened {
            Ok(()) => Ok(ScriptResource {
                steps: Some(VecDeque::from_vec(steps)),
                finished,
                failures: 0,
            }),
            Err(fault) => {
                self.failures += 1;
                Err(fault)
            }
        }
    }
}

impl Device for ScriptDevice {
    ghost use Rattle.jlr_device.specs.Scripts.{OpensScript};

    type Res = ScriptResource;

    ghost count = { λ d. d.failures };

    ghost may_open = { λ old mode path result new. OpensScript old result new };

    ghost may_connect = { λ old path result new. OpensScript old result new };

    fn failures(&self) -> u64 {
        self.failures
    }

    fn open(&mut self, _mode: Mode, _path: &str) -> Result<ScriptResource, Fault> {
        self.next_resource()
    }

    fn connect(&mut self, _path: &str) -> Result<ScriptResource, Fault> {
        self.next_resource()
    }
}

/// A resource that follows the steps of its script.
#[derive(Drop)]
pub struct ScriptResource {
    // none: there was no script
    steps: Option<VecDeque<Step>>,
    finished: Result<(), Fault>,
    failures: u64,
}

impl Model for ScriptResource {
    ghost use Rattle.jlr_device.specs.Scripts.{ScriptSteps};
    ghost use Rattle.jlr_device.specs.Queues.{items_of};

    ghost Value = { ScriptSteps };

    ghost view = { λ r. record { steps = items_of r.steps; finished = r.finished; failures = r.failures } };
}

impl ScriptResource {
    /// Takes the next step, if one is left.
    fn next_step(&mut self) -> Option<Step>
        ensures first { result ≡ slice_get self.old.steps 0 }
        ensures rest { self.new ≡ record self.old { steps = drop 1 self.old.steps } }
    {
        match &mut self.steps {
            Some(steps) => steps.pop_front(),
            None => None,
        }
    }

    /// Counts a failure.
    fn count(&mut self)
        requires { self.old.failures + 1 < 2 ^ 64 }
        ensures { self.new ≡ record self.old { failures = self.old.failures + 1 } }
    {
        self.failures += 1;
    }
}

impl Resource for ScriptResource {
    ghost use Rattle.jlr_device.specs.Scripts.{ReadsScript, WritesScript, FinishesScript};

    ghost handling = { record {
      count = λ r. r.failures;
      reads = ReadsScript;
      writes = WritesScript;
      finishes = FinishesScript;
    } };

    fn failures(&self) -> u64 {
        self.failures
    }

    fn read(&mut self, buf: &mut [u8]) -> Result<usize, Fault> {
        match self.next_step() {
            Some(Step::Bytes(bytes)) => Ok(fill(buf, &bytes)),
            Some(Step::Take(_)) => Ok(0),
            Some(Step::Fail(fault)) => {
                self.count();
                Err(fault)
            }
            None => Ok(0),
        }
    }

    fn write(&mut self, bytes: &[u8]) -> Result<usize, Fault> {
        match self.next_step() {
            Some(Step::Bytes(_)) => Ok(bytes.len()),
            Some(Step::Take(n)) => Ok(bytes.len().min(n)),
            Some(Step::Fail(fault)) => {
                self.count();
                Err(fault)
            }
            None => Ok(bytes.len()),
        }
    }

    fn finish(self) -> Finished {
        let ScriptResource {
            finished,
            failures,
            ..
        } = self;
        match finished {
            Ok(()) => Finished {
                outcome: Ok(()),
                failures,
            },
            Err(fault) => Finished {
                outcome: Err(fault),
                failures: failures + 1,
            },
        }
    }
}

/// Puts bytes to the front of a buffer, as many as fit, and answers how many.
pub(crate) fn fill(buf: &mut [u8], bytes: &[u8]) -> usize
    ensures count { result ≡ min (length buf.old) (length bytes.now) }
    ensures filled { buf.new ≡ filled bytes.now buf.old }
{
    let count = buf.len().min(bytes.len());
    buf[..count].copy_from_slice(&bytes[..count]);
    count
}
