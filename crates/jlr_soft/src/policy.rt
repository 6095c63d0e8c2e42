//! Whether a soft reference is kept.
ghost use Rattle.std.specs.Prelude.{◌≡◌};
ghost use Rattle.jlr_soft.specs.Keeping.{is_kept_in};

/// Which soft references a collection keeps.
#[derive(Clone, Copy, PartialEq, Eq, Debug)]
pub enum Mode {
    /// Those that are younger than the soft age.
    Policy,
    /// None: all soft references to softly reachable objects are cleared.
    ClearAll,
}

/// A soft age, and the mode of a collection.
#[derive(Clone, Copy, PartialEq, Eq, Debug)]
pub struct Policy {
    /// How many collections a soft reference outlives that does not give its referent, 0 to 1,000. At 0 none is kept.
    pub soft_age: u32,
    /// Which soft references the collection keeps.
    pub mode: Mode,
}

impl Policy {
    /// The policy of this soft age, in collections, in this mode.
    pub fn new(soft_age: u32, mode: Mode) -> Self
        ensures soft_age { result.soft_age ≡ soft_age }
        ensures mode { result.mode ≡ mode }
    {
        Policy { soft_age, mode }
    }

    /// Whether a soft reference keeps its referent in a collection.
    ///
    /// `cycle` is how many collections have finished so far, and `last_get` is that number when the reference was made
    /// or last gave its referent, so it is at most `cycle`.
    pub fn keeps(&self, last_get: u64, cycle: u64) -> bool
        ensures { result ≡ is_kept_in self.now.mode self.now.soft_age last_get cycle }
    {
        match self.mode {
            Mode::Policy => cycle.saturating_sub(last_get) < u64::from(self.soft_age),
            Mode::ClearAll => false,
        }
    }
}
