//! How often each seat asked what.
use crate::names::{NAMES, place_of};
use crate::stats::kinds::count_one;
use jlr_machine::entry::Entry;
use std::alloc::{AllocError, Global};

/// How many seats there may be.
pub(crate) const SEATS: usize = 256;

/// How often each seat asked each kind of ask.
#[derive(Drop)]
pub struct AskCounts {
    counts: Vec<u64>,
}

impl AskCounts {
    pub(crate) fn new(alloc: Global) -> Result<AskCounts, AllocError> {
        Ok(AskCounts {
            counts: vec![in alloc; 0u64; NAMES.len() * SEATS]?,
        })
    }

    /// One ask more.
    pub(crate) fn count(&mut self, entry: &Entry) {
        let place = place_of(&entry.ask)
            .saturating_mul(SEATS)
            .saturating_add(entry.seat as usize);
        count_one(&mut self.counts, place);
    }

    /// How often a seat asked one kind.
    pub(crate) fn of(&self, kind: usize, seat: usize) -> u64 {
        let place = kind.saturating_mul(SEATS).saturating_add(seat);
        match self.counts.get(place) {
            Some(count) => *count,
            None => 0,
        }
    }

    /// How often a seat asked anything.
    pub(crate) fn of_seat(&self, seat: usize) -> u64 {
        let mut sum = 0u64;
        for kind in 0..NAMES.len() {
            sum = sum.saturating_add(self.of(kind, seat));
        }
        sum
    }

    /// How often anybody asked one kind.
    pub(crate) fn of_kind(&self, kind: usize) -> u64 {
        let mut sum = 0u64;
        for seat in 0..SEATS {
            sum = sum.saturating_add(self.of(kind, seat));
        }
        sum
    }
}
