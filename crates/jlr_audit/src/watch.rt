//! Who is told how far an audit is, and may look at the history on the way.
ghost use Rattle.jlr_machine.specs.WellFormed.{IsWellFormed};

use jlr_machine::entry::Entry;
use jlr_machine::machine::Machine;
use jlr_trace_fields::parts::record::Placed;

/// Is told how far an audit is. What it does with that changes nothing in the verdict.
pub trait Watch {
    /// So many entries were found legal.
    fn told(&mut self, legal: usize);

    /// This is the image, with the objects in slots that are no cells. It is told first.
    fn sees_image(&mut self, _image: &Machine, _strays: &[Placed]) {}

    /// So many entries there are. It is told before the first.
    fn counts(&mut self, _entries: u64) {}

    /// This entry is next, in this machine.
    fn sees(&mut self, _machine: &Machine, _entry: &Entry)
        requires { IsWellFormed _machine.now }
    {}

    /// All entries are legal, and leave this machine.
    fn leaves(&mut self, _machine: &Machine) {}
}

/// Does nothing with it.
#[derive(Clone, Copy, Debug, Drop)]
pub struct Unwatched;

impl Watch for Unwatched {
    fn told(&mut self, _legal: usize) {}
}
