//! Objects, handles and what the core shows of them.
use super::script::{events_of, play_all, shape_of};
use super::{image_after, replies_to};
use jlr_event::event::Reply;
use jlr_machine::machine::Machine;
use jlr_machine::object::{Contents, Object, RefState, Reference};
use jlr_types::{FieldValue, RefKind, Slot};
use std::alloc::{AllocError, Global};
use std::test::Fail;

const LISTS: &str = "
== objects are made and read
    join -> done
    new ri -> handle 1
    new ri -> handle 2
    put 1 0 2 -> done
    get 1 0 -> handle 3
    same 2 3 -> yes
    same 1 2 -> no
    dup 1 -> handle 4
    same 1 4 -> yes
    drop 1 -> done
    get 4 0 -> handle 1
    same 1 2 -> yes
    new ri -> handle 5
    get 5 0 -> handle 0

== sixteen objects fill the heap
    join -> done
    new -> handle 1 up to 16
    new -> refused HeapFull
    drop 1 -> done
    new -> handle 1

== two hundred and fifty handles are all
    join -> done
    new -> handle 1
    dup 1 -> handle 2 up to 250
    dup 1 -> refused HandlesFull
    new -> refused HandlesFull
    weak 1 0 -> refused HandlesFull
    same 1 250 -> yes

== an array is made, written and read
    join -> done
    array 3 -> handle 1
    new -> handle 2
    put 1 2 2 -> done
    drop 2 -> done
    full -> done
    get 1 2 -> handle 2
    get 1 0 -> handle 0
    int 1 0 -> refused WrongKind
    set_int 1 0 5 -> refused WrongKind
    get 1 3 -> refused NoField
    put 1 3 0 -> refused NoField

== an outcome hands its resource back
    opened 5 -> refused NoSession 5
    join -> done
    opened 7 -> refused NotOut 7
    opened Denied -> refused NotOut

== marking is idle without a cycle
    join -> done
    mark -> marked idle
";

#[test]
fn lists_of_objects(rt: HostRuntime) -> Result<(), Fail> {
    play_all(rt.alloc(), LISTS)
}

// An object with a field that refers to a weak reference to it.
fn shows_a_pair(image: &Machine) -> bool {
    let pair = [FieldValue::Ref(Some(Slot::new(1))), FieldValue::Int(0)];
    matches!(image.objects.get(0), Some(Object::Plain(Contents::Typed(fields))) if fields.as_slice() == pair.as_slice())
}

fn shows_its_reference(image: &Machine) -> bool {
    let reference = Reference {
        kind: RefKind::Weak,
        referent: Some(Slot::new(0)),
        queue: None,
        state: RefState::Fresh,
    };
    matches!(image.objects.get(1), Some(Object::Reference(found)) if *found == reference)
}

// The first of two sessions holds both, and the second has not joined.
fn shows_their_handles(image: &Machine) -> bool {
    let Some(session) = image.mutators.get(0) else {
        return false;
    };
    let handles = [1usize, 2, 3].map(|number| session.handles.get(number).copied());
    handles == [Some(Slot::new(0)), Some(Slot::new(1)), None]
        && image.mutators.len() == 2
        && image.mutators.get(1).is_none()
}

fn shows_nothing_else(image: &Machine) -> bool {
    image.objects.len() == 16
        && image.objects.get(2).is_none()
        && (image.resource_limit, image.next_action, image.taken) == (3, 1, 0)
        && image.pending.len() == 0
        && image.seen.len() == 0
        && !image.cycle_open
}

fn shows_the_two(image: &Machine) -> bool {
    shows_a_pair(image)
        && shows_its_reference(image)
        && shows_their_handles(image)
        && shows_nothing_else(image)
}

const TWO: &str = "
    join
    new ri
    weak 1 0
    put 1 0 2
";

fn is_shown(alloc: Global) -> Result<bool, Fail> {
    let limits = shape_of("sessions 2, resources 3")?.limits;
    let image = image_after(alloc, limits, TWO)?;
    let shows = shows_the_two(&image);
    drop(image);
    Ok(shows)
}

#[test]
fn an_image_shows_what_the_core_holds(rt: HostRuntime) -> Result<(), Fail> {
    assert!(rt; is_shown(rt.alloc())?);
    Ok(())
}

fn shows_a_queue(image: &Machine) -> bool {
    let members = [Slot::new(2)];
    matches!(image.objects.get(0), Some(Object::Queue(found)) if found.as_slice() == members.as_slice())
}

fn shows_a_cleanable(image: &Machine) -> bool {
    matches!(image.objects.get(3), Some(Object::Cleaner))
        && matches!(image.objects.get(4), Some(Object::Cleanable(_)))
}

fn shows_a_guard(image: &Machine) -> bool {
    let places = image.objects.as_slice();
    let guards = places
        .iter()
        .filter(|place| matches!(place, Some(Object::Guard(_))))
        .count();
    guards == 1 && image.names.len() == 1 && image.resources.len() == 1
}

fn shows_each_kind(image: &Machine) -> bool {
    shows_a_queue(image) && shows_a_cleanable(image) && shows_a_guard(image)
}

const EACH_KIND: &str = "
    join
    queue
    new
    weak 2 1
    enqueue 3
    cleaner
    register 4 2 7
    prepare
    opened 9
    bind x 2
";

fn is_each_kind_shown(alloc: Global) -> Result<bool, Fail> {
    let limits = shape_of("")?.limits;
    let image = image_after(alloc, limits, EACH_KIND)?;
    let shows = shows_each_kind(&image);
    drop(image);
    Ok(shows)
}

#[test]
fn an_image_shows_each_kind_of_object(rt: HostRuntime) -> Result<(), Fail> {
    assert!(rt; is_each_kind_shown(rt.alloc())?);
    Ok(())
}

// The resources that the replies hand out, each let go.
fn handed_out(alloc: Global, replies: Vec<Reply<u32>>) -> Result<Vec<Option<u32>>, AllocError> {
    let mut resources = Vec::new(alloc);
    for reply in replies {
        resources.push(reply.plain().1)?;
    }
    Ok(resources)
}

const OUTCOMES: &str = "
    opened 5
    join
    opened 7
    opened Denied
";

fn outcomes_hand_back(alloc: Global) -> Result<bool, Fail> {
    let events = events_of(alloc, OUTCOMES)?;
    let replies = replies_to(alloc, shape_of("")?.limits, events)?;
    let resources = handed_out(alloc, replies)?;
    Ok(resources.as_slice() == [Some(5), None, Some(7), None].as_slice())
}

#[test]
fn an_outcome_hands_its_resource_back(rt: HostRuntime) -> Result<(), Fail> {
    assert!(rt; outcomes_hand_back(rt.alloc())?);
    Ok(())
}
