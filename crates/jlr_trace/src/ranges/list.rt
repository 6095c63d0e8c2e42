//! Lists, item by item.
ghost use Rattle.std.specs.Prelude.{◌<◌};
ghost use Rattle.std.specs.List.{AllByRecursion};

use jlr_types::Slot;

/// What the type of a value says of the numbers in it.
pub trait Ranged: Sized {
    ghost Range: { Self → Type 0 };

    /// What its type says of it.
    fn in_range(&self)
        ensures { Range self.now };
}

/// What the types of the items say of each.
pub(crate) fn all_in_range<T: Ranged>(items: &[T])
    ensures { AllByRecursion T.Range items.now }
{
    for item in items {
        item.in_range();
    }
}

impl Ranged for Slot {
    ghost use Rattle.jlr_trace_entries.specs.Choices.{SlotIs};

    ghost Range = { SlotIs };

    fn in_range(&self) {
        let _number = self.number();
    }
}

impl Ranged for u32 {
    ghost use Rattle.jlr_trace.specs.Ranges.{NoteIs};

    ghost Range = { NoteIs };

    fn in_range(&self) {
        let _number = *self;
    }
}

impl Ranged for Option<Slot> {
    ghost use Rattle.jlr_trace.specs.Ranges.{HandleRange};

    ghost Range = { HandleRange };

    fn in_range(&self) {
        if let Some(slot) = self {
            let _number = slot.number();
        }
    }
}
