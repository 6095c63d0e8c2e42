//! How many objects of each kind a machine has.
use jlr_machine::machine::Machine;
use jlr_machine::object::{Contents, Object};
use jlr_types::RefKind;

/// How many kinds of objects are told apart.
pub(crate) const KIND_COUNT: usize = 9;

/// The names of the kinds.
pub(crate) const KIND_NAMES: [&str; KIND_COUNT] = [
    "plain",
    "array",
    "soft",
    "weak",
    "phantom",
    "queue",
    "cleaner",
    "cleanable",
    "guard",
];

/// How many objects of each kind there were before an entry, or at the end.
#[derive(Clone, Copy, Debug)]
pub struct Sample {
    /// So many entries were before.
    pub entry: u64,
    pub counts: [u64; KIND_COUNT],
    pub open: u64,
}

fn kind_of(object: &Object) -> usize {
    match object {
        Object::Plain(Contents::Typed(_)) => 0,
        Object::Plain(Contents::Elements(_)) => 1,
        Object::Reference(reference) => strength(reference.kind),
        Object::Queue(_) => 5,
        Object::Cleaner => 6,
        Object::Cleanable(_) => 7,
        Object::Guard(_) => 8,
    }
}

fn strength(kind: RefKind) -> usize {
    match kind {
        RefKind::Soft => 2,
        RefKind::Weak => 3,
        RefKind::Phantom => 4,
    }
}

/// One more at a place, if there is one.
pub(crate) fn count_one(counts: &mut [u64], place: usize) {
    if let Some(count) = counts.get_mut(place) {
        *count = count.saturating_add(1);
    }
}

impl Sample {
    /// What a machine has.
    pub(crate) fn of(machine: &Machine, entry: u64) -> Sample {
        let mut counts = [0u64; KIND_COUNT];
        for place in machine.objects.as_slice() {
            if let Some(object) = place {
                count_one(&mut counts, kind_of(object));
            }
        }
        Sample {
            entry,
            counts,
            open: machine.resources.len() as u64,
        }
    }
}
