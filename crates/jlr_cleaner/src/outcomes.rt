//! What became of the jobs that are over.
ghost use Rattle.std.specs.Prelude.{◌≡◌, ◌+◌, ◌^◌, ◌<◌, IfOk};
ghost use Rattle.jlr_machine.specs.Calls.{noted};
ghost use Rattle.jlr_cleaner.specs.Outcomes.{no_outcomes, recorded};

use crate::latest::Latest;
use jlr_machine::ask::Outcome;
use jlr_machine::machine::Failure;
use jlr_types::{ActionNo, Work};
use std::alloc::{AllocError, Global};

/// How many jobs ended well and how many failed, and the last notes and faults.
#[derive(Drop)]
pub(crate) struct Outcomes {
    pub(crate) ok: u64,
    pub(crate) failed: u64,
    pub(crate) notes: Latest<u32>,
    pub(crate) faults: Latest<Failure>,
}

impl Outcomes {
    /// No job is over.
    pub(crate) fn new(alloc: Global) -> Result<Self, AllocError>
        ensures { IfOk result (λ outcomes. outcomes ≡ no_outcomes) }
    {
        Ok(Outcomes {
            ok: 0,
            failed: 0,
            notes: Latest::new(alloc)?,
            faults: Latest::new(alloc)?,
        })
    }

    /// A job is over.
    pub(crate) fn record(&mut self, action: ActionNo, work: Work, outcome: Outcome)
        requires ok_fits { self.old.ok + 1 < 2 ^ 64 }
        requires failed_fits { self.old.failed + 1 < 2 ^ 64 }
        ensures { self.new ≡ recorded self.old action work outcome }
    {
        match outcome {
            Outcome::Ok => {
                self.ok += 1;
                note(&mut self.notes, work);
            }
            Outcome::Failed(fault) => {
                self.failed += 1;
                self.faults.add(Failure { action, fault });
            }
        }
    }
}

/// Adds the note, where the work is one.
fn note(notes: &mut Latest<u32>, work: Work)
    ensures { notes.new ≡ noted notes.old work }
{
    match work {
        Work::Note(number) => notes.add(number),
        Work::Resource(_) => {}
    }
}
