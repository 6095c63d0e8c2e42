//! A queue with 60,000 members, taken apart in the order in which they came to it.
ghost use Rattle.std.specs.Prelude.{length, ◌≤◌};

use super::script::{is_answered, ready, shape_of};
use super::{let_go, me};
use jlr_event::event::Event;
use jlr_machine::ask::Ask;
use jlr_machine::choice::Choice;
use jlr_steps::engine::Core;
use jlr_types::{Handle, RefKind};
use jlr_words::{handle_in, is_reply};
use std::alloc::Global;
use std::test::Fail;

// Of each 300 members the first keeps its handle, by which it is known again. With handles from 3 to 202 that are
// 60,000.
const FIRST_KEPT: u8 = 3;

const LAST_KEPT: u8 = 202;

const OTHERS: u32 = 299;

// A heap with a queue at handle 1, and an object at handle 2.
fn begins(alloc: Global, core: &mut Core<u32>, choice: &mut Choice) -> bool
    requires { length core.old.machine.objects ≤ choice.old.cells }
    ensures { length core.new.machine.objects ≤ choice.new.cells }
{
    is_answered(alloc, core, choice, "join", "done")
        && is_answered(alloc, core, choice, "queue", "handle 1")
        && is_answered(alloc, core, choice, "new", "handle 2")
}

fn is_told(core: &mut Core<u32>, choice: &mut Choice, event: Event<u32>, wanted: &str) -> bool
    requires { length core.old.machine.objects ≤ choice.old.cells }
    ensures { length core.new.machine.objects ≤ choice.new.cells }
{
    is_reply(&core.step(event, choice), wanted)
}

fn is_dropped(core: &mut Core<u32>, choice: &mut Choice, object: u8) -> bool
    requires { length core.old.machine.objects ≤ choice.old.cells }
    ensures { length core.new.machine.objects ≤ choice.new.cells }
{
    let drop = Event::ask(Ask::Drop {
        mutator: me(),
        object: Handle::new(object),
    });
    is_told(core, choice, drop, "done")
}

// A new reference that goes to the queue. The handle that it has.
fn put(core: &mut Core<u32>, choice: &mut Choice) -> Option<u8>
    requires { length core.old.machine.objects ≤ choice.old.cells }
    ensures { length core.new.machine.objects ≤ choice.new.cells }
{
    let weak = Event::ask(Ask::MakeRef {
        mutator: me(),
        kind: RefKind::Weak,
        referent: Handle::new(2),
        queue: Handle::new(1),
    });
    let made = handle_in(&core.step(weak, choice))?;
    let enqueue = Event::ask(Ask::Enqueue {
        mutator: me(),
        reference: Handle::new(made),
    });
    if !is_told(core, choice, enqueue, "yes") {
        return None;
    }
    Some(made)
}

// One more, of which only the queue knows.
fn puts_another(core: &mut Core<u32>, choice: &mut Choice) -> bool
    requires { length core.old.machine.objects ≤ choice.old.cells }
    ensures { length core.new.machine.objects ≤ choice.new.cells }
{
    match put(core, choice) {
        Some(made) => is_dropped(core, choice, made),
        None => false,
    }
}

// One that keeps this handle, and 299 others.
fn puts_some(core: &mut Core<u32>, choice: &mut Choice, kept: u8) -> bool
    requires { length core.old.machine.objects ≤ choice.old.cells }
    ensures { length core.new.machine.objects ≤ choice.new.cells }
{
    if put(core, choice) != Some(kept) {
        return false;
    }
    for _other in 0..OTHERS {
        if !puts_another(core, choice) {
            return false;
        }
    }
    true
}

fn puts_all(core: &mut Core<u32>, choice: &mut Choice) -> bool
    requires { length core.old.machine.objects ≤ choice.old.cells }
    ensures { length core.new.machine.objects ≤ choice.new.cells }
{
    for kept in FIRST_KEPT..=LAST_KEPT {
        if !puts_some(core, choice, kept) {
            return false;
        }
    }
    true
}

// Whether the front of the queue, which leaves it, is the one with this handle is answered so.
fn takes_one(core: &mut Core<u32>, choice: &mut Choice, kept: u8, wanted: &str) -> bool
    requires { length core.old.machine.objects ≤ choice.old.cells }
    ensures { length core.new.machine.objects ≤ choice.new.cells }
{
    let poll = Event::ask(Ask::Poll {
        mutator: me(),
        queue: Handle::new(1),
    });
    let Some(front) = handle_in(&core.step(poll, choice)) else {
        return false;
    };
    let same = Event::ask(Ask::Same {
        mutator: me(),
        left: Handle::new(front),
        right: Handle::new(kept),
    });
    if !is_told(core, choice, same, wanted) {
        return false;
    }
    is_dropped(core, choice, front)
}

fn takes_some(core: &mut Core<u32>, choice: &mut Choice, kept: u8) -> bool
    requires { length core.old.machine.objects ≤ choice.old.cells }
    ensures { length core.new.machine.objects ≤ choice.new.cells }
{
    if !takes_one(core, choice, kept, "yes") {
        return false;
    }
    for _other in 0..OTHERS {
        if !takes_one(core, choice, kept, "no") {
            return false;
        }
    }
    true
}

fn takes_all(core: &mut Core<u32>, choice: &mut Choice) -> bool
    requires { length core.old.machine.objects ≤ choice.old.cells }
    ensures { length core.new.machine.objects ≤ choice.new.cells }
{
    for kept in FIRST_KEPT..=LAST_KEPT {
        if !takes_some(core, choice, kept) {
            return false;
        }
    }
    true
}

// Whether all members come out as they came in, and nothing after them. The core is let go.
fn come_out_in_their_order(alloc: Global, made: (Core<u32>, Choice)) -> bool
    requires { length made.0.machine.objects ≤ made.1.cells }
{
    let (mut core, mut choice) = made;
    let in_order = begins(alloc, &mut core, &mut choice)
        && puts_all(&mut core, &mut choice)
        && takes_all(&mut core, &mut choice)
        && is_answered(alloc, &mut core, &mut choice, "poll 1", "handle 0");
    let_go(core);
    in_order
}

#[test]
fn sixty_thousand_members_come_out_in_their_order(rt: HostRuntime) -> Result<(), Fail> {
    let made = ready(rt.alloc(), shape_of("cells 65536")?)?;
    assert!(rt; come_out_in_their_order(rt.alloc(), made));
    Ok(())
}
