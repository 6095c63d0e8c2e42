//! How many clients were waited for, and whether more are to be.
use std::sync::{Condvar, Mutex, Wait};

/// Whether the workers may accept.
#[derive(Clone, Copy, PartialEq, Eq)]
pub(crate) enum Phase {
    Starting,
    Open,
    Over,
}

/// How many accepts were made and may be, and how many workers are not out yet.
#[derive(Drop)]
struct Numbers {
    phase: Phase,
    made: u32,
    total: u32,
    workers: u32,
}

/// The numbers under their lock.
#[derive(Drop)]
pub(crate) struct Accepts {
    numbers: Mutex<Numbers>,
    opened: Condvar,
}

impl Accepts {
    pub(crate) fn new(total: u32, workers: u32) -> Self {
        Accepts {
            numbers: Mutex::new(Numbers {
                phase: Phase::Starting,
                made: 0,
                total,
                workers,
            }),
            opened: Condvar::new(),
        }
    }

    /// Lets the workers begin, or go.
    pub(crate) fn begin<T: Wait>(&self, rt: &T, phase: Phase) {
        self.numbers.lock(rt).phase = phase;
        self.opened.notify_all();
    }

    /// Takes one of the accepts, if one is left: its number, from 1. It waits until all threads are there.
    pub(crate) fn take<T: Wait>(&self, rt: &T) -> Option<u32> {
        let mut numbers = self
            .opened
            .wait_while(rt, self.numbers.lock(rt), |n| n.phase == Phase::Starting);
        if numbers.phase == Phase::Over || numbers.made >= numbers.total {
            return None;
        }
        numbers.made += 1;
        Some(numbers.made)
    }

    /// Whether an accept that failed counts. Once the server was asked to end it does not: it may have failed by that.
    pub(crate) fn counts<T: Wait>(&self, rt: &T) -> bool {
        let mut numbers = self.numbers.lock(rt);
        if numbers.phase == Phase::Over {
            numbers.made = numbers.made.saturating_sub(1);
            return false;
        }
        true
    }

    /// How many accepts were made.
    pub(crate) fn made(self) -> u32 {
        self.numbers.into_inner().made
    }

    /// A worker goes. Whether it was the last.
    pub(crate) fn go<T: Wait>(&self, rt: &T) -> bool {
        let mut numbers = self.numbers.lock(rt);
        numbers.workers = numbers.workers.saturating_sub(1);
        numbers.workers == 0
    }
}
