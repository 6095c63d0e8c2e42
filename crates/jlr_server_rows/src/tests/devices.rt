//! Files whose calls fail, in sessions beside the loops: what a session is told, and what the cleaner records.
ghost use Rattle.std.specs.Prelude.{◌+◌};

use super::clients::{After, Client, Clients};
use jlr_device::script::{Script, ScriptDevice, Step};
use jlr_server::hall::history::Blank;
use jlr_server::server::{ServeFault, Served, serve_over};
use jlr_types::{Fault, Limits};
use std::alloc::Global;
use std::marker::Brand;
use std::sync::Wait;
use std::test::Fail;
use std::thread::Threads;

/// Two sessions of one seat, one after the other, each its commands and their answers; the first takes so many replies.
#[derive(Clone, Copy)]
struct Row {
    what: &'static str,
    /// How the file of the first open goes: how its open ends, and then, with a space before it, `0102` for a read that
    /// gives these bytes, `takes1` for a write that takes one byte, `fails` for a call that fails, and `unfinished` for
    /// a `finish` that fails.
    script: &'static str,
    /// How many calls of the device have failed before.
    failed: u64,
    replies: u64,
    first: (&'static str, &'static str),
    second: (&'static str, &'static str),
}

/// A row that a session shows alone.
const ALONE: Row = Row {
    what: "",
    script: "ok",
    failed: 0,
    replies: u64::MAX,
    first: ("bye", "ok"),
    second: ("bye", "ok"),
};

/// What is written is closed by hand.
const BY_HAND: &str = "open w a; write 1 0102; close 1; faults; stat; bye";

/// What is written is closed by the cleaner, once the guard has died.
const BY_CLEANER: &str = "open w a; write 1 0102; drop 1; gc; stat until; faults; bye";

const ROWS: &[Row] = &[
    Row {
        what: "an open fails",
        script: "other",
        first: (BY_HAND, "fault other; ! 3; ! 3; list; stat 2 0 0 0 0; ok"),
        ..ALONE
    },
    Row {
        what: "a write fails",
        script: "ok fails",
        first: (BY_HAND, "= 1; fault other; ok; list; stat 2 0 1 1 0; ok"),
        ..ALONE
    },
    Row {
        what: "a finish fails",
        script: "ok unfinished",
        first: (
            BY_HAND,
            "= 1; wrote 2; fault other; list 1:other; stat 2 0 1 0 1; ok",
        ),
        ..ALONE
    },
    Row {
        what: "a write is cut short",
        script: "ok takes1",
        first: (BY_HAND, "= 1; wrote 1; ok; list; stat 2 0 1 1 0; ok"),
        ..ALONE
    },
    Row {
        what: "an open fails, and the cleaner has nothing to do",
        script: "other",
        first: (
            BY_CLEANER,
            "fault other; ! 3; ! 3; ok; stat 0 0 0 0 0; list; ok",
        ),
        ..ALONE
    },
    Row {
        what: "a write fails, and the cleaner closes",
        script: "ok fails",
        first: (
            BY_CLEANER,
            "= 1; fault other; ok; ok; stat 1 0 1 1 0; list; ok",
        ),
        ..ALONE
    },
    Row {
        what: "a finish of the cleaner's fails",
        script: "ok unfinished",
        first: (
            BY_CLEANER,
            "= 1; wrote 2; ok; ok; stat 1 0 1 0 1; list 1:other; ok",
        ),
        ..ALONE
    },
    Row {
        what: "a write is cut short, and the cleaner closes",
        script: "ok takes1",
        first: (BY_CLEANER, "= 1; wrote 1; ok; ok; stat 1 0 1 1 0; list; ok"),
        ..ALONE
    },
    Row {
        what: "a fault of an action is recorded and others run",
        script: "ok unfinished",
        first: (
            "open w a; cleaner; new -; register 2 3 9; drop 1; gc; faults until; drop 3; gc; notes until; stat; bye",
            "= 1; = 2; = 3; = 4; ok; ok; list 1:other; ok; ok; list 9; stat 2 0 2 1 1; ok",
        ),
        ..ALONE
    },
    Row {
        what: "what a session left open fails at its finish",
        script: "ok unfinished",
        first: ("open w a; write 1 0102; bye", "= 1; wrote 2; ok"),
        second: (
            "gc; faults until; gc; stat; bye",
            "ok; list 1:other; ok; stat 0 0 1 0 1; ok",
        ),
        ..ALONE
    },
    Row {
        what: "a read that failed is followed by others",
        script: "ok fails 0102",
        first: (
            "open r a; read 1 4; read 1 4; read 1 4; close 1; close 1; read 1 4; bye",
            "= 1; fault other; data 0102; end; ok; ok; ! 12; ok",
        ),
        ..ALONE
    },
    Row {
        what: "a socket is not joined",
        script: "other",
        first: ("connect a; stat; bye", "fault other; stat 2 0 0 0 0; ok"),
        ..ALONE
    },
    Row {
        what: "a device whose count is full is not called",
        failed: u64::MAX,
        first: (
            "open r a; connect b; stat; bye",
            "fault other; fault other; stat 4 0 0 0 0; ok",
        ),
        ..ALONE
    },
    Row {
        what: "a reply of a write fails, and the file can be written by another",
        replies: 2,
        first: ("open w a; bind f 1; write 1 0102", "= 1; ok"),
        second: (
            "stat; find f; write 1 03; close 1; stat; bye",
            "stat 2 1 0 0 0; = 1; wrote 1; ok; stat 2 0 1 1 0; ok",
        ),
        ..ALONE
    },
];

/// The device of a row.
fn device_of(alloc: Global, row: &Row) -> Option<ScriptDevice> {
    let mut scripts = Vec::new(alloc);
    scripts.push(script_of(alloc, row.script)?).ok()?;
    Some(ScriptDevice::new(scripts, row.failed))
}

fn script_of(alloc: Global, words: &str) -> Option<Script> {
    let mut script = Script {
        opened: Ok(()),
        steps: Vec::new(alloc),
        finished: Ok(()),
    };
    for word in words.split(" ") {
        match word {
            "ok" => {}
            "other" => script.opened = Err(Fault::Other),
            "unfinished" => script.finished = Err(Fault::Other),
            _ => script.steps.push(step_of(alloc, word)?).ok()?,
        }
    }
    Some(script)
}

fn step_of(alloc: Global, word: &str) -> Option<Step> {
    match word {
        "0102" => Some(Step::Bytes(b"\x01\x02".to_vec(alloc).ok()?)),
        "takes1" => Some(Step::Take(1)),
        "fails" => Some(Step::Fail(Fault::Other)),
        _ => None,
    }
}

/// Whether the sessions of a row are served as they have to be.
fn holds<T: Threads + Wait + Sync>(rt: HostRuntime, threads: &T, row: &Row) -> Option<bool> {
    let device = device_of(rt.alloc(), row)?;
    let pair = [
        Client::taking(row.first.0, row.first.1, row.replies),
        Client::new(row.second.0, row.second.1),
    ];
    let clients = Clients::new(rt, &pair, After::Nothing, 0);
    let is_served = are_served(rt, threads, &clients, device);
    is_served.map(|is_served| is_served && clients.are_served())
}

/// Whether clients are served at one seat, where each opens by this device.
fn are_served<T: Threads + Wait + Sync>(
    rt: HostRuntime,
    threads: &T,
    clients: &Clients,
    device: ScriptDevice,
) -> Option<bool> {
    let limits = Limits::checked(1_024, 1, 4, 4, 100_000, 64).ok()?;
    let mut devices = Vec::new(rt.alloc());
    devices.push(device).ok()?;
    let blank = Blank::new(rt.alloc()).ok()?;
    let served = serve_over::<_, _, Brand, _>(
        threads,
        rt.alloc(),
        limits,
        2,
        &clients,
        devices,
        blank,
    );
    Some(has_book(served))
}

/// Whether there is a book, which is let go.
fn has_book<R: Drop, D: Drop>(served: Result<Served<R, D>, ServeFault>) -> bool {
    let is_there = served.is_ok();
    drop(served);
    is_there
}

#[test]
fn calls_of_files_fail(rt: HostRuntime) -> Result<(), Fail> {
    for row in ROWS {
        if holds(rt, &rt, row) != Some(true) {
            return Err(Fail::new(row.what));
        }
    }
    Ok(())
}
