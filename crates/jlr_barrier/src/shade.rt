//! Shading: what links, queues, roots, names and lists lead to is marked, and grey if it was not marked before.
ghost use Rattle.std.specs.Prelude.{◌≡◌, ◌⊎◌, ℕ, ◌+◌, ◌-◌, ◌^◌, ◌<◌, ◌≤◌, ◌++◌, ◌∷◌, [], IsTrue, Some, cond, drop};
ghost use Rattle.std.specs.Prelude.{false, is_some, length, option_and_then, take};
ghost use Rattle.jlr_machine.specs.Objects.{any_referent, at, queue_ahead, some_and, ◌∈◌};
ghost use Rattle.jlr_machine.specs.Refusals.{is_record, is_reference};
ghost use Rattle.jlr_machine.specs.Edges.{active_cleanables, edges_from, is_active, is_own_root};
ghost use Rattle.jlr_machine.specs.Edges.Chain.{Strong};
ghost use Rattle.jlr_roots.specs.Naming.{named};
ghost use Rattle.jlr_roots.specs.Walk.{slots_held};
ghost use Rattle.jlr_cells.specs.Contents.{members_in, next_in};
ghost use Rattle.jlr_cells.specs.Links.{linked, linked_in};
ghost use Rattle.jlr_machine.specs.declared.object.Contents.TheVariants.{Elements as ElementsOf};
ghost use Rattle.jlr_marks.specs.Marking.{IsMarked, Shaded, marked, upcoming};
ghost use Rattle.jlr_barrier.specs.Snapshots.{RefersTo};
ghost use Rattle.jlr_barrier.specs.Parts.{next_at, part_at, parts_of, place_after, ticks_at};
ghost use Rattle.jlr_barrier.specs.Scans.{Scanned, awaits};

use jlr_cells::objects::Objects;
use jlr_cells::{Elements, Kind, Links, Visited};
use jlr_machine::object::{CleanState, RefState, Reference};
use jlr_marks::Marks;
use jlr_roots::{Names, Roots};
use jlr_types::{FieldValue, Meter, Slot};

/// How many elements of an array are followed at one tick.
const PART: usize = 64;

pub(crate) fn shade_target(target: Option<Slot>, marks: &mut Marks)
    requires { (x : ℕ) → target ≡ Some x → x < length marks.old.bits }
    ensures { Shaded (λ x. target ≡ Some x) marks.old marks.new }
{
    if let Some(slot) = target {
        marks.shade(slot);
    }
}

/// Shades what the value of a field refers to.
pub(crate) fn shade_value(value: FieldValue, marks: &mut Marks)
    requires { (x : ℕ) → value ≡ FieldValue.Ref (Some x) → x < length marks.old.bits }
    ensures { Shaded (λ x. value ≡ FieldValue.Ref (Some x)) marks.old marks.new }
{
    match value {
        FieldValue::Int(_) => {}
        FieldValue::Ref(target) => shade_target(target, marks),
    }
}

/// Shades the queue that the reference at a slot may still be added to.
#[inline(always)]
pub(crate) fn shade_ahead(cells: &Objects, slot: Slot, marks: &mut Marks)
    requires reference { IsTrue (some_and is_reference (at cells.now.objects slot)) }
    requires within { (x : ℕ) → next_in (at cells.now.objects slot) ≡ Some x → x < length marks.old.bits }
    ensures { Shaded (λ x. next_in (at cells.now.objects slot) ≡ Some x) marks.old marks.new }
{
    shade_target(queue_ahead(cells.reference(slot)), marks);
}

/// The queue that a reference may still be added to.
fn queue_ahead(reference: Option<Reference>) -> Option<Slot>
    ensures { result ≡ option_and_then queue_ahead reference }
{
    let reference = reference?;
    match reference.state {
        RefState::Fresh | RefState::Pending => reference.queue,
        RefState::Queued | RefState::Removed => None,
    }
}

/// Shades what links refer to.
fn shade_links(links: &Links, marks: &mut Marks)
    requires { (x : ℕ) → x ∈ linked links.now → x < length marks.old.bits }
    ensures { Shaded (λ x. x ∈ linked links.now) marks.old marks.new }
{
    for place in 0..links.count() {
        shade_target(links.get(place), marks);
    }
}

/// Shades what links refer to, if there are any.
fn shade_far(links: Option<&Links>, marks: &mut Marks)
    requires { (x : ℕ) → x ∈ linked_in links → x < length marks.old.bits }
    ensures { Shaded (λ x. x ∈ linked_in links.entry) marks.old marks.new }
{
    if let Some(links) = links {
        shade_links(links, marks);
    }
}

/// How many elements from a place on, at most `count`, refer to nothing or to what is marked, up to the first that does
/// not; of the first `known` nothing is asked. It writes nothing: in a heap of arrays nearly all elements lead to what
/// is marked.
fn marked_run(elements: &Elements, from: usize, known: usize, count: usize, marks: &Marks) -> usize
    requires few { length elements.now ≤ 4096 }
    requires there { (known ≤ count) × (count ≤ length elements.now - from) }
    requires within { (x : ℕ) → x ∈ linked elements.now → x < length marks.now.bits }
    ensures few { (known ≤ result) × (result ≤ count) }
    ensures more { (x : ℕ) → x ∈ linked (take known (drop from elements.now))
        → x ∈ linked (take result (drop from elements.now)) }
    ensures marked { (x : ℕ) → x ∈ linked (take result (drop from elements.now))
        → (x ∈ linked (take known (drop from elements.now))) ⊎ IsMarked marks.now x }
{
    let mut run = known;
    while run < count {
        if let Some(slot) = elements.get(from + run) {
            if !marks.is_marked(slot) {
                return run;
            }
        }
        run += 1;
    }
    run
}

/// Shades what so many elements of an array refer to, from a place on.
fn shade_elements(elements: &Elements, from: usize, count: usize, marks: &mut Marks)
    requires few { length elements.now ≤ 4096 }
    requires there { count ≤ length elements.now - from }
    requires within { (x : ℕ) → x ∈ linked elements.now → x < length marks.old.bits }
    ensures { Shaded (λ x. x ∈ linked (take count (drop from elements.now))) marks.old marks.new }
{
    let mut step = marked_run(elements, from, 0, count, marks);
    while step < count {
        shade_target(elements.get(from + step), marks);
        step = marked_run(elements, from, step + 1, count, marks);
    }
}

/// Shades what at most 64 elements of an array refer to, from a place on. Answers the place behind them, if there are
/// more.
#[inline(never)]
fn shade_part(elements: &Elements, from: u16, marks: &mut Marks) -> Option<u16>
    requires { (x : ℕ) → x ∈ linked elements.now → x < length marks.old.bits }
    ensures shaded { Shaded (λ x. x ∈ linked (take 64 (drop from elements.now))) marks.old marks.new }
    ensures next { result ≡ place_after from (ElementsOf elements.now) }
    ensures few { parts_of (ElementsOf elements.now) ≤ 64 }
{
    let count = elements.count();
    let first = from as usize;
    if first + PART < count {
        shade_elements(elements, first, PART, marks);
        return Some(from + PART as u16);
    }
    shade_elements(elements, first, count.saturating_sub(first), marks);
    None
}

/// What was found where a part of the strong edges was followed.
#[derive(Drop)]
struct Found {
    /// Whether it is a plain object with fields: it refers to nothing, and all its edges were followed.
    plain: bool,
    /// From which place on an array has more elements.
    next: Option<u16>,
}

/// Shades what a part of the strong edges of the object at a slot leads to, from a place on: one tick. Of an array
/// these are at most 64 elements, of any other object all. No object takes more than 64 ticks.
#[inline(always)]
fn follow(cells: &Objects, slot: Slot, from: u16, meter: &mut Meter, marks: &mut Marks) -> Found
    requires object { IsTrue (is_some (at cells.now.objects slot)) }
    requires ticks { meter.old + 1 < 2 ^ 64 }
    requires within { (x : ℕ) → x ∈ edges_from Strong cells.now.objects slot → x < length marks.old.bits }
    ensures shaded { Shaded (λ x. x ∈ part_at cells.now.objects from slot) marks.old marks.new }
    ensures plain { result.plain ≡ some_and is_record (at cells.now.objects slot) }
    ensures next { result.next ≡ next_at cells.now.objects from slot }
    ensures few { ticks_at cells.now.objects slot ≤ 64 }
    ensures ticked { meter.new ≡ meter.old + 1 }
{
    match cells.visit(slot, meter) {
        Some((near, far)) => {
            shade_links(near, marks);
            shade_far(far, marks);
            Found {
                plain: true,
                next: None,
            }
        }
        None => Found {
            plain: false,
            next: follow_other(cells, slot, from, marks),
        },
    }
}

/// Shades what a part of the strong edges of an object that is no plain one with fields leads to, from a place on, and
/// answers from which place on an array has more. It stands apart from the following of plain objects with fields,
/// which are nearly all that a heap holds.
#[inline(never)]
fn follow_other(cells: &Objects, slot: Slot, from: u16, marks: &mut Marks) -> Option<u16>
    requires object { IsTrue (is_some (at cells.now.objects slot)) }
    requires other { some_and is_record (at cells.now.objects slot) ≡ false }
    requires within { (x : ℕ) → x ∈ edges_from Strong cells.now.objects slot → x < length marks.old.bits }
    ensures shaded { Shaded (λ x. x ∈ part_at cells.now.objects from slot) marks.old marks.new }
    ensures next { result ≡ next_at cells.now.objects from slot }
    ensures few { ticks_at cells.now.objects slot ≤ 64 }
{
    match cells.visit_other(slot) {
        Visited::Array(elements) => shade_part(elements, from, marks),
        Visited::Other { next } => {
            shade_target(next, marks);
            shade_members(cells, slot, marks);
            None
        }
    }
}

/// Follows a part of the strong edges of the object at the grey slot that comes next: one tick. Where there is more to
/// follow, it is grey again and comes next. Otherwise it is black, and discovered, if it refers to an object that is
/// not marked. Answers whether it is a plain object with fields.
#[inline(always)]
pub(crate) fn scan_part(cells: &Objects, slot: Slot, meter: &mut Meter, marks: &mut Marks) -> bool
    requires next { upcoming marks.old ≡ Some slot }
    requires marked { IsMarked marks.old slot }
    requires object { IsTrue (is_some (at cells.now.objects slot)) }
    requires ticks { meter.old + 1 < 2 ^ 64 }
    requires within { (x : ℕ) → x ∈ edges_from Strong cells.now.objects slot → x < length marks.old.bits }
    requires refers { (x : ℕ) → RefersTo cells.now.objects slot x → x < length marks.old.bits }
    ensures scanned { Scanned cells.now.objects slot marks.old marks.new }
    ensures few { ticks_at cells.now.objects slot ≤ 64 }
    ensures plain { result ≡ some_and is_record (at cells.now.objects slot) }
    ensures ticked { meter.new ≡ meter.old + 1 }
{
    let from = marks.place(slot);
    let _ = marks.take_grey();
    let found = follow(cells, slot, from, meter, marks);
    match found.next {
        Some(place) => marks.resume_at(slot, place),
        None => note(cells, slot, found.plain, marks),
    }
    found.plain
}

/// A reference or a cleanable at a slot is discovered, if what it refers to is not marked. Of a plain object with
/// fields nothing is asked.
#[inline(always)]
fn note(cells: &Objects, slot: Slot, plain: bool, marks: &mut Marks)
    requires kind { plain ≡ some_and is_record (at cells.now.objects slot) }
    requires room { length marks.old.grey + length marks.old.discovered < marked marks.old }
    requires within { (x : ℕ) → RefersTo cells.now.objects slot x → x < length marks.old.bits }
    ensures bits { marks.new.bits ≡ marks.old.bits }
    ensures grey { marks.new.grey ≡ marks.old.grey }
    ensures discovered { marks.new.discovered ≡ marks.old.discovered
        ++ cond (some_and (awaits marks.old) (at cells.now.objects slot)) (slot ∷ []) [] }
    ensures part { marks.new.part ≡ marks.old.part }
{
    if !plain {
        note_referent(cells, slot, marks);
    }
}

/// An object at a slot is discovered, if it refers to one that is not marked. It stands apart from the following of
/// plain objects with fields, which are nearly all that a heap holds.
#[inline(never)]
fn note_referent(cells: &Objects, slot: Slot, marks: &mut Marks)
    requires room { length marks.old.grey + length marks.old.discovered < marked marks.old }
    requires within { (x : ℕ) → RefersTo cells.now.objects slot x → x < length marks.old.bits }
    ensures bits { marks.new.bits ≡ marks.old.bits }
    ensures grey { marks.new.grey ≡ marks.old.grey }
    ensures discovered { marks.new.discovered
        ≡ marks.old.discovered ++ cond (some_and (awaits marks.old) (at cells.now.objects slot)) (slot ∷ []) [] }
    ensures part { marks.new.part ≡ marks.old.part }
{
    let Some(referent) = any_referent(cells, slot) else {
        return;
    };
    if !marks.is_marked(referent) {
        marks.discover(slot);
    }
}

/// What the reference or the cleanable at a slot refers to, if there is one and it was not cleared. It reads the cells
/// of those alone.
fn any_referent(cells: &Objects, slot: Slot) -> Option<Slot>
    ensures { result ≡ option_and_then any_referent (at cells.now.objects slot) }
{
    match cells.kind(slot) {
        Some(Kind::Reference(_)) => cells.referent(slot),
        Some(Kind::Cleanable) => match cells.cleanable(slot) {
            Some(cleanable) => cleanable.referent,
            None => None,
        },
        _ => None,
    }
}

/// Shades the members of a queue, if there is one at the slot.
#[inline(never)]
fn shade_members(cells: &Objects, queue: Slot, marks: &mut Marks)
    requires { (x : ℕ) → x ∈ members_in (at cells.now.objects queue) → x < length marks.old.bits }
    ensures { Shaded (λ x. x ∈ members_in (at cells.now.objects queue)) marks.old marks.new }
{
    let mut next = cells.first_member(queue);
    for _place in 0..cells.member_count(queue) {
        match next {
            Some(member) => {
                shade_target(Some(member), marks);
                next = cells.next_member(queue, member);
            }
            None => unreachable!(),
        }
    }
}

/// Shades what all mutators hold.
pub(crate) fn shade_roots(roots: &Roots, marks: &mut Marks)
    requires { (x : ℕ) → x ∈ slots_held roots.now → x < length marks.old.bits }
    ensures { Shaded (λ x. x ∈ slots_held roots.now) marks.old marks.new }
{
    for place in 0..roots.places() {
        shade_target(roots.root(place), marks);
    }
}

/// Shades what the names stand for.
pub(crate) fn shade_names(names: &Names, marks: &mut Marks)
    requires { (x : ℕ) → x ∈ named names.now → x < length marks.old.bits }
    ensures { Shaded (λ x. x ∈ named names.now) marks.old marks.new }
{
    for place in 0..names.len() {
        shade_target(names.slot_at(place), marks);
    }
}

/// Shades the cleanables that are roots by themselves. It goes from cleanable to cleanable, and over no other cells.
pub(crate) fn shade_cleanables(cells: &Objects, marks: &mut Marks)
    requires { length cells.now.objects ≤ length marks.old.bits }
    ensures { Shaded (λ x. x ∈ active_cleanables 0 cells.now.objects) marks.old marks.new }
{
    let count = cells.cell_count();
    let mut from = 0;
    while from < count {
        let Some(slot) = cells.next_cleanable(from) else {
            return;
        };
        shade_own_root(cells, slot, marks);
        from = slot.number() + 1;
    }
}

/// Shades a slot, if a cleanable is there that is a root by itself.
fn shade_own_root(cells: &Objects, slot: Slot, marks: &mut Marks)
    requires { slot < length marks.old.bits }
    ensures { Shaded (λ x. (x ≡ slot) × IsTrue (is_own_root (at cells.now.objects slot))) marks.old marks.new }
{
    if is_own_root(cells, slot) {
        marks.shade(slot);
    }
}

/// Whether a cleanable is at a slot that is a root by itself.
fn is_own_root(cells: &Objects, slot: Slot) -> bool
    ensures { result ≡ is_own_root (at cells.now.objects slot) }
{
    if !cells.is_cleanable(slot) {
        return false;
    }
    match cells.cleanable(slot) {
        Some(cleanable) => is_active(cleanable.state),
        None => false,
    }
}

fn is_active(state: CleanState) -> bool
    ensures { result ≡ is_active state }
{
    match state {
        CleanState::Armed | CleanState::Pending => true,
        CleanState::Lined | CleanState::Spent => false,
    }
}
