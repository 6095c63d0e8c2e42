//! How far a long audit is.
use jlr_audit::watch::Watch;
use std::io::IsTerminal;

/// After how many entries more it is said how far an audit is.
const STRIDE: usize = 100_000;

/// Says on the standard error how far an audit is, if that is a terminal.
#[derive(Drop)]
pub struct Progress {
    rt: HostRuntime,
    is_told: bool,
    /// A hundredth of the entries, and at least one.
    part: usize,
}

impl Progress {
    pub fn new(rt: HostRuntime) -> Self {
        Progress {
            rt,
            is_told: rt.stderr().is_terminal(),
            part: 1,
        }
    }
}

impl Watch for Progress {
    fn counts(&mut self, entries: u64) {
        self.part = (entries / 100) as usize;
    }

    fn told(&mut self, legal: usize) {
        if self.is_told && legal > 0 && legal % STRIDE == 0 {
            let share = if self.part == 0 {
                100
            } else {
                legal / self.part
            };
            let _ = eprintln!(self.rt;
                "refheap: {share} % of the entries, {legal}, are legal so far"
            );
        }
    }
}
