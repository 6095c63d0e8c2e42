//! Lists of rows of words: an ask, an arrow, and what it is answered. What is expected comes from the description of
//! the asks.
//!
//! `weak 2 1 -> handle 3` asks for a weak reference to what handle 2 holds, on the queue that handle 1 holds, and wants
//! handle 3 for an answer. The words of asks and answers are those of `jlr_words`. A row whose answer is `handle 2 up
//! to 16` stands for fifteen rows, with handles from 2 to 16; behind `uncollected`, each is to come without a
//! collection in its choice. An ask behind `again` may be refused because memory ran out, and is then made again. A row
//! without an arrow is an ask whose answer is not looked at, or looks at the core: `objects 3` wants so many objects,
//! `rests no` that something is pending or stands in the cleaner's line.
//!
//! A text has several lists. Each begins with `== ` and its name, and has a heap of its own. Behind a colon its name
//! says what that heap has beside: `cells 32, sessions 2, resources 4, soft_age 1, first_action 9` where it is not 16,
//! 1, 1, 0 and 1. A line that begins with `-- ` is a comment.
use jlr_core::run::run;
use jlr_event::event::{Event, Reply};
use jlr_machine::machine::Machine;
use jlr_steps::engine::Core;
use jlr_types::{Limits, Mutator};
use script::events_of;
use std::alloc::{AllocError, Global};

mod cleaning;
mod cycles;
mod long_queues;
mod memory;
mod names;
mod objects;
mod queues;
mod references;
mod refusals;
mod resources;
mod script;
mod soft_references;

fn me() -> Mutator {
    Mutator::new(0)
}

// What a run gave: its replies, and the core that it left.
type Ran = (Vec<Reply<u32>>, Core<u32>);

// A core is let go. To prove that takes its time, so that it is done here alone.
fn let_go(core: Core<u32>) {
    drop(core);
}

// The replies of a run.
fn replies_of(ran: Ran) -> Vec<Reply<u32>> {
    let (replies, core) = ran;
    let_go(core);
    replies
}

// What the core of a run shows.
fn image_of(alloc: Global, ran: Ran) -> Result<Machine, AllocError> {
    let (_, core) = ran;
    let image = core.image(alloc);
    let_go(core);
    image
}

// What a run of these events is answered.
fn replies_to(
    alloc: Global,
    limits: Limits,
    events: Vec<Event<u32>>,
) -> Result<Vec<Reply<u32>>, AllocError> {
    match run(alloc, limits, events) {
        Ok(ran) => Ok(replies_of(ran)),
        Err(memory_refusal) => Err(memory_refusal),
    }
}

// What the core shows after a run of these asks.
fn image_after(alloc: Global, limits: Limits, asks: &str) -> Result<Machine, AllocError> {
    match run(alloc, limits, events_of(alloc, asks)?) {
        Ok(ran) => image_of(alloc, ran),
        Err(memory_refusal) => Err(memory_refusal),
    }
}

fn count(image: &Machine) -> usize {
    let places = image.objects.as_slice();
    places.iter().filter(|place| place.is_some()).count()
}

// How many objects there are.
fn objects_in(alloc: Global, core: &Core<u32>) -> Result<usize, AllocError> {
    let image = core.image(alloc)?;
    let objects = count(&image);
    drop(image);
    Ok(objects)
}
