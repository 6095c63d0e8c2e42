//! Names, and the front of a queue that is waited for.
use super::script::{play_all, shape_of};
use super::{me, replies_to};
use jlr_event::event::{Event, Reply};
use jlr_machine::ask::Ask;
use jlr_machine::text::Name;
use jlr_types::Handle;
use jlr_words::{event_of, is_reply};
use std::alloc::{AllocError, Global};
use std::test::Fail;

const LISTS: &str = "
== names keep their places and their objects
    join -> done
    new -> handle 1
    find x -> refused NoName
    unbind x -> refused NoName
    bind b 2 -> refused NoHandle
    bind b 0 -> refused Null
    bind b 1 -> done
    bind a 1 -> done
    bind b 1 -> done
    names -> names 2 b
    drop 1 -> done
    full -> done
    find a -> handle 1
    unbind b -> done
    names -> names 1 a
    drop 1 -> done
    unbind a -> done
    full -> done
    stat -> stat 0 0 0 0 0
    names -> names 0

== an empty queue would wait
    join -> done
    queue -> handle 1
    remove 1 -> refused WouldWait
    new -> handle 2
    remove 2 -> refused WrongKind
    weak 2 1 -> handle 3
    enqueue 3 -> yes
    remove 1 -> handle 4
    same 3 4 -> yes
    remove 1 -> refused WouldWait
";

#[test]
fn lists_of_names(rt: HostRuntime) -> Result<(), Fail> {
    play_all(rt.alloc(), LISTS)
}

// A name of its own for each number.
fn numbered(number: u8) -> Option<Event<u32>> {
    let name = Name::from_slice(&[b'a' + number / 16, b'a' + number % 16])?;
    Some(Event::ask(Ask::Bind {
        mutator: me(),
        name,
        object: Handle::new(1),
    }))
}

fn push(events: &mut Vec<Event<u32>>, event: Option<Event<u32>>) -> Result<(), AllocError> {
    if let Some(event) = event {
        events.push(event)?;
    }
    Ok(())
}

// The asks that give an object 256 names, then one more, and then one that it has.
fn ask_names(alloc: Global, events: &mut Vec<Event<u32>>) -> Result<(), AllocError> {
    push(events, event_of(alloc, "join"))?;
    push(events, event_of(alloc, "new"))?;
    for number in 0..=255u8 {
        push(events, numbered(number))?;
    }
    push(events, event_of(alloc, "bind x 1"))?;
    push(events, event_of(alloc, "bind ab 1"))
}

// What the ask of this number is answered.
fn wanted(number: usize) -> &'static str {
    match number {
        1 => "handle 1",
        258 => "refused NamesFull",
        _ => "done",
    }
}

fn all_but_one_bound(replies: &[Reply<u32>]) -> bool {
    for (number, reply) in replies.iter().enumerate() {
        if !is_reply(reply, wanted(number)) {
            return false;
        }
    }
    replies.len() == 260
}

fn names_end(alloc: Global) -> Result<bool, Fail> {
    let mut events = Vec::new(alloc);
    ask_names(alloc, &mut events)?;
    let replies = replies_to(alloc, shape_of("")?.limits, events)?;
    Ok(all_but_one_bound(replies.as_slice()))
}

#[test]
fn there_are_at_most_256_names(rt: HostRuntime) -> Result<(), Fail> {
    assert!(rt; names_end(rt.alloc())?);
    Ok(())
}
