//! A device in memory whose calls go as they are scripted, and counts of failures at their last value.
use super::{bytes, on_device, on_resource};
use crate::tests::calls::{Got, Stage, play};
use crate::tests::words::{called, fault, parsed};
use jlr_device::script::{Script, ScriptDevice, ScriptResource, Step};
use jlr_device::{Device, Finished, Mode, Resource};
use jlr_types::Fault;
use std::alloc::Global;
use std::mem;
use std::str::SplitWhitespace;
use std::test::Fail;

// ---- Scripts

fn step(alloc: Global, words: &mut SplitWhitespace<'_>) -> Option<Step> {
    match words.next()? {
        "bytes" => Some(Step::Bytes(bytes(alloc, words)?)),
        "take" => Some(Step::Take(parsed(words)?)),
        word => Some(Step::Fail(fault(word)?)),
    }
}

// The steps of the next script, the scripts of the next device, the device and its resource.
#[derive(Drop)]
struct Scripted {
    alloc: Global,
    steps: Vec<Step>,
    scripts: Vec<Script>,
    device: ScriptDevice,
    opened: Option<ScriptResource>,
}

impl Stage for Scripted {
    fn answered(&mut self, name: &str, words: &mut SplitWhitespace<'_>) -> Option<Got> {
        match name {
            "step" => self.add_step(words),
            "script" => self.add_script(words),
            "new" => self.renew(words),
            _ => on_device(self.alloc, &mut self.device, &mut self.opened, name, words),
        }
    }
}

impl Scripted {
    fn add_step(&mut self, words: &mut SplitWhitespace<'_>) -> Option<Got> {
        self.steps.push(step(self.alloc, words)?).ok()?;
        Some(Got::Truth(true))
    }

    // With the steps before it. Its words are the outcomes of the open and of the finish.
    fn add_script(&mut self, words: &mut SplitWhitespace<'_>) -> Option<Got> {
        let opened = called(words)?;
        let finished = called(words)?;
        let script = Script {
            opened,
            steps: mem::replace(&mut self.steps, Vec::new(self.alloc)),
            finished,
        };
        self.scripts.push(script).ok()?;
        Some(Got::Truth(true))
    }

    // A device with the scripts before it.
    fn renew(&mut self, words: &mut SplitWhitespace<'_>) -> Option<Got> {
        let failures = parsed(words)?;
        let scripts = mem::replace(&mut self.scripts, Vec::new(self.alloc));
        self.device = ScriptDevice::new(scripts, failures);
        Some(Got::Truth(true))
    }
}

// ---- A resource with a count of its own

// A resource whose calls never fail, and that has counted what it says.
#[derive(Drop)]
struct Worn {
    failures: u64,
}

impl Resource for Worn {
    ghost handling = { record {
      count = λ w. w.failures;
      reads = λ _ _ _ _ _. Unit {0};
      writes = λ _ _ _ _. Unit {0};
      finishes = λ _ _. Unit {0};
    } };

    fn failures(&self) -> u64 {
        self.failures
    }

    fn read(&mut self, _buf: &mut [u8]) -> Result<usize, Fault> {
        Ok(0)
    }

    fn write(&mut self, bytes: &[u8]) -> Result<usize, Fault> {
        Ok(bytes.len())
    }

    fn finish(self) -> Finished {
        Finished {
            outcome: Ok(()),
            failures: self.failures,
        }
    }
}

// A device that opens nothing.
#[derive(Drop)]
struct Shut {
    failures: u64,
}

impl Device for Shut {
    type Res = Worn;

    ghost count = { λ d. d.failures };

    fn failures(&self) -> u64 {
        self.failures
    }

    fn open(&mut self, _mode: Mode, _path: &str) -> Result<Worn, Fault> {
        self.failures += 1;
        Err(Fault::Other)
    }

    fn connect(&mut self, _path: &str) -> Result<Worn, Fault> {
        self.failures += 1;
        Err(Fault::Other)
    }
}

#[derive(Drop)]
struct Single {
    alloc: Global,
    device: Shut,
    opened: Option<Worn>,
}

impl Stage for Single {
    fn answered(&mut self, name: &str, words: &mut SplitWhitespace<'_>) -> Option<Got> {
        if name == "new" {
            let failures = parsed(words)?;
            self.opened = Some(Worn { failures });
            return Some(Got::Truth(true));
        }
        on_resource(self.alloc, &self.device, &mut self.opened, name, words)
    }
}

// ---- Lists

// `script` makes a script of the steps before it, by the outcomes of its open and of its finish; `new` makes a device
// of the scripts before it, after so many failures. In the first list what does not fit in a read is lost, the fifth
// and the sixth step are of the other sort, and the last two calls come after the last step. In the second the last
// open comes after the last script.
const LISTS: &str = "
    # a resource follows its steps
    step Denied -> true
    step bytes 1 2 3 -> true
    step take 2 -> true
    step take 9 -> true
    step take 1 -> true
    step bytes 4 -> true
    step Other -> true
    script ok NotFound -> true
    new 0 -> true
    open_to_read a -> Ok(())
    read 2 -> (Err(Denied), [9, 9, 9, 9])
    read 2 -> (Ok(2), [1, 2, 9, 9])
    write 97 98 99 -> Ok(2)
    write 97 98 99 -> Ok(3)
    read 2 -> (Ok(0), [9, 9, 9, 9])
    write 97 98 99 -> Ok(3)
    write 97 98 99 -> Err(Other)
    read 2 -> (Ok(0), [9, 9, 9, 9])
    write 97 98 99 -> Ok(3)
    failed_calls -> 2
    finish -> Finished { outcome: Err(NotFound), failures: 3 }

    # each open takes one script
    script NotFound ok -> true
    step take 1 -> true
    script ok ok -> true
    script Denied ok -> true
    new 5 -> true
    open_to_write a -> Err(NotFound)
    connect b -> Ok(())
    write 97 98 -> Ok(1)
    connect c -> Err(Denied)
    failed_opens -> 7
    open_to_write d -> Ok(())
    write 97 98 -> Ok(2)
    failed_calls -> 0
    finish -> Finished { outcome: Ok(()), failures: 0 }
    failed_opens -> 7

    # a count at its last value makes no call
    new 18446744073709551615 -> true
    open_to_read a -> Err(Other)
    connect a -> Err(Other)
    failed_opens -> 18446744073709551615

    # a count before its last value makes its call
    new 18446744073709551614 -> true
    open_to_read a -> Ok(())
";

// `new` makes a resource that has counted so many failures.
const WORN: &str = "
    # a count of a resource at its last value makes no call
    new 18446744073709551615 -> true
    read 2 -> (Err(Other), [9, 9, 9, 9])
    write 97 -> Err(Other)
    finish -> Finished { outcome: Err(Other), failures: 18446744073709551615 }

    # a count of a resource before its last value makes its call
    new 18446744073709551614 -> true
    read 2 -> (Ok(0), [9, 9, 9, 9])
    write 97 -> Ok(1)
    finish -> Finished { outcome: Ok(()), failures: 18446744073709551614 }
";

#[test]
fn scripts_answer_as_the_rows_say(rt: HostRuntime) -> Result<(), Fail> {
    let alloc = rt.alloc();
    let mut scripted = Scripted {
        alloc,
        steps: Vec::new(alloc),
        scripts: Vec::new(alloc),
        device: ScriptDevice::new(Vec::new(alloc), 0),
        opened: None,
    };
    let played = play(&mut scripted, alloc, LISTS);
    drop(scripted);
    played?;
    let mut single = Single {
        alloc,
        device: Shut { failures: 0 },
        opened: None,
    };
    play(&mut single, alloc, WORN)
}
