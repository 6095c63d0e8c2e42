//! What collections clear and free.
use jlr_machine::machine::Machine;
use jlr_machine::object::{Object, Reference};
use jlr_types::{RefKind, Slot};

/// What a collection did, or all of them together.
#[derive(Clone, Copy, Debug, Default)]
pub struct Collection {
    /// The number of its entry, counted from 1.
    pub entry: u64,
    /// How many objects it found, and how many of them it freed.
    pub found: u64,
    pub freed: u64,
    /// How many soft references kept their referents, and how many references of each kind were cleared.
    pub soft_kept: u64,
    pub soft_cleared: u64,
    pub weak_cleared: u64,
    pub phantom_cleared: u64,
    /// How many references and cleanables were set aside for the handler.
    pub pending: u64,
}

impl Collection {
    /// Both together, with the later one's entry.
    pub(crate) fn with(self, other: &Collection) -> Collection {
        Collection {
            entry: other.entry,
            found: self.found.saturating_add(other.found),
            freed: self.freed.saturating_add(other.freed),
            soft_kept: self.soft_kept.saturating_add(other.soft_kept),
            soft_cleared: self.soft_cleared.saturating_add(other.soft_cleared),
            weak_cleared: self.weak_cleared.saturating_add(other.weak_cleared),
            phantom_cleared: self.phantom_cleared.saturating_add(other.phantom_cleared),
            pending: self.pending.saturating_add(other.pending),
        }
    }
}

/// Marks the slots that a collection kept, and no others.
pub(crate) fn mark(marks: &mut [bool], kept: &[Slot]) {
    for mark in &mut *marks {
        *mark = false;
    }
    for slot in kept {
        if let Some(mark) = marks.get_mut(slot.number() as usize) {
            *mark = true;
        }
    }
}

fn is_marked(marks: &[bool], place: usize) -> bool {
    match marks.get(place) {
        Some(mark) => *mark,
        None => false,
    }
}

/// Counts a reference that is kept: where its referent is not, it is cleared.
fn count_reference(collection: &mut Collection, marks: &[bool], reference: &Reference) {
    let Some(referent) = reference.referent else {
        return;
    };
    let keeps = is_marked(marks, referent.number() as usize);
    let count = match reference.kind {
        RefKind::Soft if keeps => &mut collection.soft_kept,
        RefKind::Soft => &mut collection.soft_cleared,
        RefKind::Weak if !keeps => &mut collection.weak_cleared,
        RefKind::Phantom if !keeps => &mut collection.phantom_cleared,
        _ => return,
    };
    *count = count.saturating_add(1);
}

/// What a collection does that keeps the marked slots.
pub(crate) fn collection_of(
    machine: &Machine,
    marks: &[bool],
    entry: u64,
    pending: u64,
) -> Collection {
    let mut collection = Collection {
        entry,
        pending,
        ..Collection::default()
    };
    for (place, object) in machine.objects.as_slice().iter().enumerate() {
        let Some(object) = object else {
            continue;
        };
        collection.found = collection.found.saturating_add(1);
        if !is_marked(marks, place) {
            collection.freed = collection.freed.saturating_add(1);
        } else if let Object::Reference(reference) = object {
            count_reference(&mut collection, marks, reference);
        }
    }
    collection
}
