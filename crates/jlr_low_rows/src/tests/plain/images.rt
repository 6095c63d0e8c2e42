//! Small machines that are well formed, and for each part one that breaks just it.
use jlr_machine::items::Items;
use jlr_machine::machine::{Call, Machine, Resource, ResourceState, Session};
use jlr_machine::object::{CleanState, Cleanable, Contents, Fields, Object, RefState, Reference};
use jlr_machine::table::Table;
use jlr_plain_images::calls::are_calls;
use jlr_plain_images::image::{image_plain, well_formed_plain};
use jlr_plain_images::parts::actions::are_actions;
use jlr_plain_images::parts::limits::is_within_limits;
use jlr_plain_images::parts::lists::are_lists;
use jlr_plain_images::parts::references::are_references;
use jlr_plain_images::parts::sessions::are_sessions;
use jlr_plain_images::parts::slots::are_slots_named;
use jlr_plain_images::resources::are_resources;
use jlr_plain_images::unnamed::are_private;
use jlr_types::{ActionNo, RefKind, Rid, Slot, Work};
use std::alloc::{AllocError, Global};
use std::test::Fail;

#[derive(Clone, Copy)]
enum Part {
    Limits,
    Slots,
    References,
    Lists,
    Sessions,
    Actions,
    Resources,
    Calls,
    Private,
}

const PARTS: [Part; 9] = [
    Part::Limits,
    Part::Slots,
    Part::References,
    Part::Lists,
    Part::Sessions,
    Part::Actions,
    Part::Resources,
    Part::Calls,
    Part::Private,
];

fn keeps(machine: &Machine, part: Part) -> bool {
    match part {
        Part::Limits => is_within_limits(machine),
        Part::Slots => are_slots_named(machine),
        Part::References => are_references(machine),
        Part::Lists => are_lists(machine),
        Part::Sessions => are_sessions(machine),
        Part::Actions => are_actions(machine),
        Part::Resources => are_resources(machine),
        Part::Calls => are_calls(machine),
        Part::Private => are_private(machine),
    }
}

/// How many parts it keeps.
fn kept_parts(machine: &Machine) -> u8 {
    let mut kept: u8 = 0;
    for part in PARTS {
        kept = kept.saturating_add(u8::from(keeps(machine, part)));
    }
    kept
}

/// Whether it keeps all parts but this one, and so is not well formed.
fn breaks_just(machine: &Machine, part: Part) -> bool {
    kept_parts(machine) == 8 && !keeps(machine, part) && !well_formed_plain(machine)
}

/// These objects and mutators, no names.
fn made_of(alloc: Global, objects: Vec<Option<Object>>, mutators: Vec<Option<Session>>) -> Machine {
    Machine {
        objects: Table::from_vec(objects),
        mutators: Table::from_vec(mutators),
        names: Items::new(alloc),
        pending: Items::new(alloc),
        line: Items::new(alloc),
        jobs: Items::new(alloc),
        resources: Items::new(alloc),
        resource_limit: 16,
        faults: Items::new(alloc),
        notes: Items::new(alloc),
        next_action: 1,
        taken: 0,
        ok: 0,
        failed: 0,
        cycle_open: false,
        seen: Items::new(alloc),
    }
}

/// What is in cell 1.
#[derive(Clone, Copy)]
enum Second {
    Nothing,
    QueuedReferenceToTheFirst,
    CleanableOfAResource,
}

/// A small machine: a plain object in cell 0, an empty cell 2, a mutator, and what else there is.
#[derive(Clone, Copy)]
struct Shape {
    second: Second,
    /// In place of the mutator.
    empty_seats: u8,
    /// What handle 1 of the mutator holds.
    held: u32,
    /// Handle 2 holds what is in cell 1.
    holds_second: bool,
    places: usize,
    /// A fence of the first object, with no call.
    has_fence: bool,
    /// The first object is pending.
    is_pending: bool,
    /// The first object is seen.
    is_seen: bool,
    cycle_open: bool,
    /// A resource that is idle, with action 1.
    has_resource: bool,
    next_action: u64,
    taken: u64,
}

/// The plain object is held by handle 1.
const SMALL: Shape = Shape {
    second: Second::Nothing,
    empty_seats: 0,
    held: 0,
    holds_second: false,
    places: 251,
    has_fence: false,
    is_pending: false,
    is_seen: false,
    cycle_open: false,
    has_resource: false,
    next_action: 1,
    taken: 0,
};

fn held(shape: Shape, place: usize) -> Option<Slot> {
    match place {
        1 => Some(Slot::new(shape.held)),
        2 if shape.holds_second => Some(Slot::new(1)),
        _ => None,
    }
}

fn session(alloc: Global, shape: Shape) -> Result<Session, AllocError> {
    let mut handles = Vec::new(alloc);
    for place in 0..shape.places {
        handles.push(held(shape, place))?;
    }
    let fence = if shape.has_fence {
        Some(Slot::new(0))
    } else {
        None
    };
    Ok(Session {
        handles: Table::from_vec(handles),
        fence,
        call: Call::Free,
    })
}

fn seats(alloc: Global, shape: Shape) -> Result<Vec<Option<Session>>, AllocError> {
    let mut seats = Vec::new(alloc);
    for _seat in 0..shape.empty_seats {
        seats.push(None)?;
    }
    if shape.empty_seats == 0 {
        seats.push(Some(session(alloc, shape)?))?;
    }
    Ok(seats)
}

fn plain(fields: Fields) -> Object {
    Object::Plain(Contents::Typed(fields))
}

fn object(second: Second) -> Option<Object> {
    match second {
        Second::Nothing => None,
        Second::QueuedReferenceToTheFirst => Some(Object::Reference(Reference {
            kind: RefKind::Weak,
            referent: Some(Slot::new(0)),
            queue: None,
            state: RefState::Queued,
        })),
        Second::CleanableOfAResource => Some(Object::Cleanable(Cleanable {
            referent: None,
            action: ActionNo::new(1),
            work: Work::Resource(Rid::new(0)),
            state: CleanState::Spent,
        })),
    }
}

fn cells(alloc: Global, second: Second) -> Result<Vec<Option<Object>>, AllocError> {
    let mut objects = Vec::new(alloc);
    objects.push(Fields::from_vec(Vec::new(alloc)).map(plain))?;
    objects.push(object(second))?;
    objects.push(None)?;
    Ok(objects)
}

/// The cells and the seats of a machine of this shape.
fn small(alloc: Global, shape: Shape) -> Result<Machine, AllocError> {
    let objects = cells(alloc, shape.second)?;
    let mutators = seats(alloc, shape)?;
    Ok(made_of(alloc, objects, mutators))
}

/// Puts in what is beside them.
fn fill(machine: &mut Machine, shape: Shape) -> Result<(), AllocError> {
    if shape.is_pending {
        machine.pending.push(Slot::new(0))?;
    }
    if shape.is_seen {
        machine.seen.push(Slot::new(0))?;
    }
    if shape.has_resource {
        machine.resources.push(Resource {
            rid: Rid::new(0),
            action: ActionNo::new(1),
            state: ResourceState::Idle,
        })?;
    }
    machine.cycle_open = shape.cycle_open;
    machine.next_action = shape.next_action;
    machine.taken = shape.taken;
    Ok(())
}

// The shape of a machine that breaks just this part.
fn broken(part: Part) -> Shape {
    let mut shape = SMALL;
    match part {
        Part::Limits => shape.empty_seats = 65,
        // A handle of an empty cell.
        Part::Slots => shape.held = 2,
        // A queued reference with its referent.
        Part::References => {
            shape.second = Second::QueuedReferenceToTheFirst;
            shape.held = 1;
        }
        // A plain object pending.
        Part::Lists => shape.is_pending = true,
        // A handle too few.
        Part::Sessions => shape.places = 250,
        // An action taken from nowhere.
        Part::Actions => {
            shape.next_action = 3;
            shape.taken = 1;
        }
        // A resource of nobody.
        Part::Resources => {
            shape.next_action = 2;
            shape.has_resource = true;
        }
        // A fence with no call.
        Part::Calls => shape.has_fence = true,
        // A handle of the cleanable of a resource.
        Part::Private => {
            shape.second = Second::CleanableOfAResource;
            shape.holds_second = true;
            shape.next_action = 2;
        }
    }
    shape
}

// Well formed, but with an open cycle, and so no image.
fn is_in_a_cycle(machine: &Machine) -> bool {
    well_formed_plain(machine) && !image_plain(machine)
}

// What a small machine is.
#[derive(Clone, Copy)]
enum Kind {
    Image,
    InACycle,
    Wrong,
    Breaking(Part),
}

fn is_of(machine: &Machine, kind: Kind) -> bool {
    match kind {
        Kind::Image => image_plain(machine),
        Kind::InACycle => is_in_a_cycle(machine),
        Kind::Wrong => !well_formed_plain(machine),
        Kind::Breaking(part) => breaks_just(machine, part),
    }
}

fn is_of_filled(machine: &mut Machine, shape: Shape, kind: Kind) -> Result<bool, AllocError> {
    fill(machine, shape)?;
    Ok(is_of(machine, kind))
}

// Whether the machine of a shape is of this kind.
fn is(alloc: Global, shape: Shape, kind: Kind) -> Result<bool, AllocError> {
    let mut machine = small(alloc, shape)?;
    let so = is_of_filled(&mut machine, shape, kind);
    drop(machine);
    so
}

// The machine with no objects, no mutators and no names is an image.
fn nothing_is_an_image(alloc: Global) -> bool {
    let machine = made_of(alloc, Vec::new(alloc), Vec::new(alloc));
    let so = image_plain(&machine);
    drop(machine);
    so
}

fn one_handle_is_an_image(alloc: Global) -> Result<bool, AllocError> {
    is(alloc, SMALL, Kind::Image)
}

fn a_cycle_is_no_image(alloc: Global) -> Result<bool, AllocError> {
    let shape = Shape {
        is_seen: true,
        cycle_open: true,
        ..SMALL
    };
    is(alloc, shape, Kind::InACycle)
}

fn what_is_seen_in_no_cycle_is_wrong(alloc: Global) -> Result<bool, AllocError> {
    let shape = Shape {
        is_seen: true,
        ..SMALL
    };
    is(alloc, shape, Kind::Wrong)
}

#[test]
fn small_machines_are_well_formed(rt: HostRuntime) -> Result<(), Fail> {
    assert!(rt; nothing_is_an_image(rt.alloc()));
    assert!(rt; one_handle_is_an_image(rt.alloc())?);
    assert!(rt; a_cycle_is_no_image(rt.alloc())?);
    assert!(rt; what_is_seen_in_no_cycle_is_wrong(rt.alloc())?);
    Ok(())
}

#[test]
fn what_breaks_one_part_is_not_well_formed(rt: HostRuntime) -> Result<(), Fail> {
    for part in PARTS {
        assert!(rt; is(rt.alloc(), broken(part), Kind::Breaking(part))?);
    }
    Ok(())
}
