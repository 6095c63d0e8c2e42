//! A pool of things that the program knows by numbers. Each has one taker at a time, and what a taker forgets comes
//! back by a collection.
ghost use Rattle.std.specs.Prelude.{◌≡◌, [], IfNone, IfOk, vec_len};
ghost use Rattle.jlr_heap.specs.Entries.{unrecorded};
ghost use Rattle.jlr_heap.specs.Guards.{IsTold, TellsTaken};
ghost use Rattle.jlr_machine.specs.declared.ask.Ask.TheVariants.{Close};
ghost use Rattle.jlr_event.specs.declared.event.Event.TheVariants.{Ask as Asks};

use jlr_heap::TokenHeap;
use jlr_heap::handles::Guard;
use jlr_heap::jobs::{Declined, Job, What};
use jlr_types::{ActionNo, Refusal};
use std::alloc::{AllocError, Global};

/// The things that nobody has.
#[derive(Drop)]
pub struct Pool {
    free: Vec<u64>,
}

/// Why a number was not taken.
fn why(declined: Declined<u64>) -> Refusal {
    declined.by
}

/// A guard over a number, for which there is room.
fn adopt(heap: &mut TokenHeap, number: u64) -> Result<Guard, Refusal> {
    match heap.adopt(number) {
        Ok(guard) => Ok(guard),
        Err(declined) => Err(why(declined)),
    }
}

/// A guard over a number.
fn guard_of(heap: &mut TokenHeap, number: u64) -> Result<Guard, Refusal> {
    heap.prepare()?;
    adopt(heap, number)
}

/// A guard is closed: the job gives back the number that it held; none where it was given back before.
fn stop(heap: &mut TokenHeap, guard: Guard) -> Result<Option<Job<u64>>, Refusal>
    ensures { IsTold unrecorded TellsTaken heap.old (Asks (Close 0 guard)) result heap.new }
{
    heap.stop(guard)
}

/// The number that a job gives back; none with a note.
fn number_of(what: What<u64>) -> Option<u64> {
    match what {
        What::Held(number) => Some(number),
        What::Note(_) => None,
    }
}

impl Pool {
    /// A pool of so many things, with the numbers from 1 on.
    pub fn new(alloc: Global, count: u64) -> Result<Self, AllocError>
        ensures { IfOk result (λ pool. vec_len pool.free ≡ count) }
    {
        let mut free = Vec::new(alloc);
        for number in 0..count {
            free.push(count - number)?;
        }
        Ok(Pool { free })
    }

    /// How many nobody has.
    pub fn free(&self) -> usize
        ensures { result ≡ vec_len self.now.free }
    {
        self.free.len()
    }

    /// A guard of one that nobody has; none where all are taken. The taker gives it back, or drops its handles.
    pub fn take(&mut self, heap: &mut TokenHeap) -> Result<Option<Guard>, Refusal>
        ensures { IfOk result (λ taken. IfNone taken (self.old.free.items ≡ [])) }
    {
        let Some(number) = self.free.pop() else {
            return Ok(None);
        };
        match guard_of(heap, number) {
            Ok(guard) => Ok(Some(guard)),
            Err(by) => {
                self.put_back(number)?;
                Err(by)
            }
        }
    }

    fn put_back(&mut self, number: u64) -> Result<(), Refusal> {
        match self.free.push(number) {
            Ok(()) => Ok(()),
            Err(_) => Err(Refusal::NoMemory),
        }
    }

    /// A taker gives back what it has.
    pub fn give_back(&mut self, heap: &mut TokenHeap, guard: Guard) -> Result<(), Refusal> {
        let stopped = stop(heap, guard)?;
        if let Some(action) = self.regain(stopped)? {
            heap.finish(action, Ok(()))?;
        }
        heap.drop(guard.handle())
    }

    /// What was forgotten comes back.
    pub fn collect(&mut self, heap: &mut TokenHeap) -> Result<(), Refusal> {
        heap.gc()?;
        for _ in 0..u32::MAX {
            if !self.regain_next(heap)? {
                return Ok(());
            }
        }
        Ok(())
    }

    /// The next thing that was forgotten comes back, if there is one.
    fn regain_next(&mut self, heap: &mut TokenHeap) -> Result<bool, Refusal> {
        let job = heap.next_job()?;
        let Some(action) = self.regain(job)? else {
            return Ok(false);
        };
        heap.finish_cleaner(action, Ok(()))?;
        Ok(true)
    }

    /// What a job gives back is nobody's. The action that is to be finished.
    fn regain(&mut self, job: Option<Job<u64>>) -> Result<Option<ActionNo>, Refusal> {
        let Some(Job { action, what }) = job else {
            return Ok(None);
        };
        if let Some(number) = number_of(what) {
            self.put_back(number)?;
        }
        Ok(Some(action))
    }
}
