//! The sentence on the first entry of a history that is not legal, made while the history is audited: it is read once,
//! and one entry is in memory at a time.
ghost use Rattle.jlr_machine.specs.WellFormed.{IsWellFormed};

use crate::explain::history::{image_said, said_of};
use crate::watch::Watch;
use jlr_machine::entry::Entry;
use jlr_machine::machine::Machine;
use jlr_plain::entry::legal_plain;
use jlr_trace_fields::parts::record::Placed;
use std::alloc::{AllocError, Global};

/// Watches an audit for why a history is not legal. Each entry is judged once more for it.
#[derive(Drop)]
pub struct Explainer<W: Watch> {
    alloc: Global,
    watch: W,
    /// How many entries were found legal.
    legal: u64,
    said: Option<String>,
    /// Whether memory ran out on the way.
    is_short: bool,
}

impl<W: Watch> Explainer<W> {
    /// One that tells another how far the audit is.
    pub fn new(alloc: Global, watch: W) -> Explainer<W> {
        Explainer {
            alloc,
            watch,
            legal: 0,
            said: None,
            is_short: false,
        }
    }

    /// Why the history is not legal, in one sentence; none where it is.
    ///
    /// # Errors
    /// `AllocError` where there was no memory for it.
    pub fn said(self) -> Result<Option<String>, AllocError>
    where
        W: Drop,
    {
        let Explainer {
            alloc: _,
            watch,
            legal: _,
            said,
            is_short,
        } = self;
        drop(watch);
        if is_short {
            drop(said);
            return Err(AllocError);
        }
        Ok(said)
    }

    fn keep(&mut self, said: Result<Option<String>, AllocError>) {
        match said {
            Ok(said) => self.said = said,
            Err(_) => self.is_short = true,
        }
    }
}

/// What is wrong with the entry that follows so many legal ones; none where it is legal.
fn said_of_next(
    alloc: Global,
    machine: &Machine,
    legal: u64,
    entry: &Entry,
) -> Result<Option<String>, AllocError>
    requires { IsWellFormed machine.now }
{
    if legal_plain(alloc, machine, entry)? {
        return Ok(None);
    }
    Ok(Some(said_of(alloc, machine, legal.saturating_add(1), entry)?))
}

impl<W: Watch> Watch for Explainer<W> {
    fn told(&mut self, legal: usize) {
        self.legal = legal as u64;
        self.watch.told(legal);
    }

    fn sees_image(&mut self, image: &Machine, strays: &[Placed]) {
        let said = image_said(self.alloc, image, strays);
        self.keep(said);
        self.watch.sees_image(image, strays);
    }

    fn counts(&mut self, entries: u64) {
        self.watch.counts(entries);
    }

    fn sees(&mut self, machine: &Machine, entry: &Entry) {
        let said = said_of_next(self.alloc, machine, self.legal, entry);
        self.keep(said);
        self.watch.sees(machine, entry);
    }

    fn leaves(&mut self, machine: &Machine) {
        self.watch.leaves(machine);
    }
}
