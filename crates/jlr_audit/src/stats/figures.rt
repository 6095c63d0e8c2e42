//! The figures of a history, taken while it is audited.
ghost use Rattle.std.specs.Prelude.{IfOk, IfErr};
ghost use Rattle.jlr_audit.specs.Streams.{IsStreamVerdict};
ghost use Rattle.jlr_trace.specs.Streams.{FailsOn};

use crate::stats::asks::AskCounts;
pub use crate::stats::collections::Collection;
use crate::stats::collections::{collection_of, mark};
use crate::stats::kinds::Sample;
use crate::streamed::audit_streamed;
use crate::verdict::Verdict;
use crate::watch::Watch;
use jlr_machine::ask::{Answer, Ask, Handed, Outcome};
use jlr_machine::entry::{Collected, Entry};
use jlr_machine::machine::Machine;
use jlr_machine::object::Object;
use jlr_plain_asks::lookups::named_reference;
use jlr_trace::file::TraceFault;
use jlr_trace::streamed::StreamedTrace;
use jlr_trace::window::StreamFault;
use jlr_types::{Fault, Slot};
use std::alloc::{AllocError, Global};
use std::io::Read;

/// How many times the objects are counted on the way.
const SAMPLES: u64 = 20;

/// How many collections are told one by one.
const MOST_COLLECTIONS: usize = 1_000;

/// How many cleaning actions ended how.
#[derive(Clone, Copy, Debug, Default)]
pub struct Outcomes {
    pub ok: u64,
    pub not_found: u64,
    pub denied: u64,
    pub other: u64,
}

/// The figures of a history.
#[derive(Drop)]
pub struct Figures {
    alloc: Global,
    /// How many entries were seen.
    pub entries: u64,
    /// After how many entries the objects are counted again, and at which next.
    stride: u64,
    next: u64,
    pub samples: Vec<Sample>,
    pub collections: u64,
    /// All collections together, and the first ones alone.
    pub total: Collection,
    pub each: Vec<Collection>,
    pub longest_queue: u64,
    pub most_open: u64,
    pub outcomes: Outcomes,
    pub asks: AskCounts,
    marks: Vec<bool>,
    /// Whether memory ran out on the way.
    is_short: bool,
}

impl Figures {
    fn new(alloc: Global, image: &Machine) -> Result<Figures, AllocError> {
        Ok(Figures {
            alloc,
            entries: 0,
            stride: 1,
            next: 0,
            samples: Vec::new(alloc),
            collections: 0,
            total: Collection::default(),
            each: Vec::new(alloc),
            longest_queue: 0,
            most_open: 0,
            outcomes: Outcomes::default(),
            asks: AskCounts::new(alloc)?,
            marks: vec![in alloc; false; image.objects.len()]?,
            is_short: false,
        })
    }

    /// Counts the objects of a machine.
    fn sample(&mut self, machine: &Machine) {
        let sample = Sample::of(machine, self.entries);
        if self.samples.push(sample).is_err() {
            self.is_short = true;
        }
    }

    fn see_open(&mut self, machine: &Machine) {
        self.most_open = self.most_open.max(machine.resources.len() as u64);
    }

    /// Counts what a collection does.
    fn see_collection(&mut self, machine: &Machine, collected: &Collected) {
        let Ok(kept) = collected.kept.to_vec(self.alloc) else {
            self.is_short = true;
            return;
        };
        mark(&mut self.marks, kept.as_slice());
        drop(kept);
        let pending = collected.pending.len() as u64;
        let number = self.entries.saturating_add(1);
        let collection = collection_of(machine, self.marks.as_slice(), number, pending);
        self.collections = self.collections.saturating_add(1);
        self.total = self.total.with(&collection);
        if self.each.len() < MOST_COLLECTIONS && self.each.push(collection).is_err() {
            self.is_short = true;
        }
    }

    /// Counts how an action ended.
    fn see_end(&mut self, answer: &Answer) {
        let count = match answer {
            Answer::Done => &mut self.outcomes.ok,
            Answer::Faulted(Fault::NotFound) => &mut self.outcomes.not_found,
            Answer::Faulted(Fault::Denied) => &mut self.outcomes.denied,
            Answer::Faulted(Fault::Other) => &mut self.outcomes.other,
            _ => return,
        };
        *count = count.saturating_add(1);
    }

    /// Takes the length of the queue to which an entry adds.
    fn see_queue(&mut self, machine: &Machine, entry: &Entry) {
        if let Some(queue) = queue_of(machine, entry) {
            self.longest_queue = self
                .longest_queue
                .max(length_of(machine, queue).saturating_add(1));
        }
    }
}

/// The queue to which an entry adds, if it does.
fn queue_of(machine: &Machine, entry: &Entry) -> Option<Slot> {
    match (&entry.ask, &entry.answer) {
        (Ask::HandOver, Answer::Handed(Handed::Queued)) => {
            let first = machine.pending.as_slice().first()?;
            match machine.objects.get(first.number() as usize) {
                Some(Object::Reference(reference)) => reference.queue,
                _ => None,
            }
        }
        (Ask::Enqueue { mutator, reference }, Answer::Truth(true)) => {
            named_reference(machine, *mutator, *reference)?.queue
        }
        _ => None,
    }
}

/// How many members a queue has.
fn length_of(machine: &Machine, queue: Slot) -> u64 {
    match machine.objects.get(queue.number() as usize) {
        Some(Object::Queue(members)) => members.len() as u64,
        _ => 0,
    }
}

impl Watch for Figures {
    fn told(&mut self, _legal: usize) {}

    fn counts(&mut self, entries: u64) {
        self.stride = (entries / SAMPLES).max(1);
    }

    fn sees(&mut self, machine: &Machine, entry: &Entry) {
        if self.entries == self.next {
            self.sample(machine);
            self.next = self.next.saturating_add(self.stride);
        }
        self.see_open(machine);
        if let Some(collected) = entry.choice.collected() {
            self.see_collection(machine, collected);
        }
        if let Ask::Finish { .. } = &entry.ask {
            self.see_end(&entry.answer);
        }
        self.see_queue(machine, entry);
        self.asks.count(entry);
        self.entries = self.entries.saturating_add(1);
    }

    fn leaves(&mut self, machine: &Machine) {
        self.see_open(machine);
        self.sample(machine);
    }
}

/// A history's verdict, and its figures up to the first entry that is not legal.
#[derive(Drop)]
pub struct Judged {
    pub verdict: Verdict,
    pub figures: Figures,
}

/// Audits a history as it is read, and takes its figures on the way.
///
/// # Errors
/// As for an audit: `Unread` where a read fails, and `Damaged` with the first fault of the bytes, or where there is no
/// memory.
pub fn figures_of<R: Read + Drop>(
    alloc: Global,
    trace: StreamedTrace<R>,
) -> Result<Judged, StreamFault>
    ensures verdict { IfOk result (λ judged. IsStreamVerdict trace.strays trace.image
        trace.entries.entries judged.verdict) }
    ensures fault { IfErr result (λ f. FailsOn f trace.entries.entries) }
{
    let Ok(mut figures) = Figures::new(alloc, &trace.image) else {
        drop(trace);
        return Err(StreamFault::Damaged(TraceFault::NoMemory));
    };
    let verdict = match audit_streamed(alloc, trace, &mut figures) {
        Ok(verdict) => verdict,
        Err(fault) => {
            drop(figures);
            return Err(fault);
        }
    };
    if figures.is_short {
        drop(figures);
        return Err(StreamFault::Damaged(TraceFault::NoMemory));
    }
    Ok(Judged { verdict, figures })
}
