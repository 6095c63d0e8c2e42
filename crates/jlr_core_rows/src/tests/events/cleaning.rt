//! Cleaning actions: registered, taken up once, by hand or by the cleaner, and what became of them.
use super::script::{play_all, shape_of};
use super::{me, replies_to};
use jlr_event::event::{Event, Reply};
use jlr_machine::ask::{Ask, Outcome};
use jlr_types::{ActionNo, Handle};
use jlr_words::is_reply;
use std::alloc::{AllocError, Global};
use std::test::Fail;

const LISTS: &str = "
== an action is run once its object is gone
    join -> done
    cleaner -> handle 1
    new -> handle 2
    register 1 2 7 -> handle 3
    full -> done
    hand_over -> nothing
    take_up -> nothing
    drop 2 -> done
    full -> done
    stat -> stat 2 0 0 0 0
    hand_over -> lined
    take_up -> job 1
    stat -> stat 2 0 1 0 0
    notes -> notes 0
    finish 255 1 ok -> done
    stat -> stat 2 0 1 1 0
    notes -> notes 1 7
    clean 3 -> already_done
    notes -> notes 1 7
    faults -> faults 0

== the cleaner runs one job at a time
    join -> done
    cleaner -> handle 1
    new -> handle 2
    register 1 2 7 -> handle 3
    register 1 2 8 -> handle 4
    drop 2 -> done
    full -> done
    hand_over -> lined
    hand_over -> lined
    take_up -> job 1
    take_up -> refused Busy
    finish 255 1 Denied -> fault Denied
    take_up -> job 2
    finish 255 2 ok -> done
    take_up -> nothing
    faults -> faults 1 1 Denied
    notes -> notes 1 8
    stat -> stat 3 0 2 1 1

== the cleaner goes on after a job that ended well
    join -> done
    cleaner -> handle 1
    new -> handle 2
    register 1 2 7 -> handle 3
    register 1 2 8 -> handle 4
    drop 2 -> done
    full -> done
    hand_over -> lined
    hand_over -> lined
    take_up -> job 1
    take_up -> refused Busy
    finish 255 1 ok -> done
    take_up -> job 2
    finish 255 2 ok -> done
    notes -> notes 2 8
    stat -> stat 3 0 2 2 0

-- What is done by hand is not done again, whenever that was.
== an action by hand is not run again, before
    join -> done
    cleaner -> handle 1
    new -> handle 2
    register 1 2 7 -> handle 3
    clean 3 -> job 1
    finish 0 1 ok -> done
    clean 3 -> already_done
    drop 2 -> done
    full -> done
    hand_over -> nothing
    take_up -> nothing

== an action by hand is not run again, dropped
    join -> done
    cleaner -> handle 1
    new -> handle 2
    register 1 2 7 -> handle 3
    drop 2 -> done
    clean 3 -> job 1
    finish 0 1 ok -> done
    full -> done
    hand_over -> nothing
    take_up -> nothing

== an action by hand is not run again, pending
    join -> done
    cleaner -> handle 1
    new -> handle 2
    register 1 2 7 -> handle 3
    drop 2 -> done
    full -> done
    clean 3 -> job 1
    finish 0 1 ok -> done
    hand_over -> skipped
    take_up -> nothing

== an action by hand is not run again, lined
    join -> done
    cleaner -> handle 1
    new -> handle 2
    register 1 2 7 -> handle 3
    register 1 2 8 -> handle 4
    drop 2 -> done
    full -> done
    hand_over -> lined
    hand_over -> lined
    clean 3 -> job 1
    finish 0 1 ok -> done
    take_up -> job 2
    finish 255 2 ok -> done
    take_up -> nothing
    notes -> notes 2 8

== an action may be for its own cleaner
    join -> done
    cleaner -> handle 1
    register 1 1 5 -> handle 2
    drop 1 -> done
    drop 2 -> done
    full -> done
    stat -> stat 1 0 0 0 0
    hand_over -> lined
    take_up -> job 1
    finish 255 1 ok -> done
    full -> done
    stat -> stat 0 0 1 1 0

-- An armed cleanable is kept by nobody else, and its cleaner need not be.
== an action outlives its cleaner
    join -> done
    cleaner -> handle 1
    new -> handle 2
    register 1 2 9 -> handle 3
    drop 1 -> done
    drop 3 -> done
    full -> done
    stat -> stat 2 0 0 0 0
    drop 2 -> done
    full -> done
    hand_over -> lined
    take_up -> job 1
    finish 255 1 ok -> done
    notes -> notes 1 9

== a job is its mutators call
    join -> done
    cleaner -> handle 1
    register 1 1 5 -> handle 2
    register 2 1 5 -> refused WrongKind
    register 1 0 5 -> refused Null
    register 3 1 5 -> refused NoHandle
    clean 1 -> refused WrongKind
    clean 0 -> refused Null
    finish 0 1 ok -> refused NotOut
    clean 2 -> job 1
    clean 2 -> refused Busy
    stat -> refused Busy
    leave -> refused Busy
    finish 1 1 ok -> refused NoSession
    finish 255 1 ok -> refused NotOut
    finish 0 2 ok -> refused NotOut
    finish 0 1 Other -> fault Other
    finish 0 1 ok -> refused NotOut
    faults -> faults 1 1 Other
    stat -> stat 2 0 1 0 1
    leave -> done

-- It does not rest while something is pending or in the line.
== a core rests until there is something to hand over or to clean
    join -> done
    rests yes
    cleaner -> handle 1
    rests yes
    new -> handle 2
    rests yes
    register 1 2 7 -> handle 3
    rests yes
    drop 2 -> done
    rests yes
    full -> done
    rests no
    hand_over -> lined
    rests no
    take_up -> job 1
    rests yes
    finish 255 1 ok -> done
    rests yes

-- The last number, 2^64 - 1, is never given.
== no action number is left at the end: first_action 18446744073709551614
    join -> done
    cleaner -> handle 1
    register 1 1 5 -> handle 2
    register 1 1 5 -> refused Exhausted
    prepare -> refused Exhausted
    clean 2 -> job 18446744073709551614

== no action is registered without a number: first_action 18446744073709551615
    join -> done
    cleaner -> handle 1
    register 1 1 5 -> refused Exhausted
    prepare -> refused Exhausted
";

#[test]
fn lists_of_cleaning(rt: HostRuntime) -> Result<(), Fail> {
    play_all(rt.alloc(), LISTS)
}

// The asks by which an action with this note is registered and carried out, and its cleanable let go.
fn push_noted(events: &mut Vec<Event<u32>>, note: u32) -> Result<(), AllocError> {
    events.push(Event::ask(Ask::Register {
        mutator: me(),
        cleaner: Handle::new(1),
        object: Handle::new(1),
        note,
    }))?;
    events.push(Event::ask(Ask::Clean {
        mutator: me(),
        cleanable: Handle::new(2),
    }))?;
    events.push(Event::ask(Ask::Finish {
        by: 0,
        action: ActionNo::new(u64::from(note) + 1),
        outcome: Outcome::Ok,
    }))?;
    events.push(Event::ask(Ask::Drop {
        mutator: me(),
        object: Handle::new(2),
    }))?;
    Ok(())
}

// The asks that record the notes from 0 to 256, and ask for them.
fn ask_notes(events: &mut Vec<Event<u32>>) -> Result<(), AllocError> {
    events.push(Event::ask(Ask::Join { mutator: me() }))?;
    events.push(Event::ask(Ask::MakeCleaner { mutator: me() }))?;
    for note in 0u32..257 {
        push_noted(events, note)?;
    }
    events.push(Event::ask(Ask::Notes { mutator: me() }))?;
    Ok(())
}

fn ends_with_notes(replies: &[Reply<u32>]) -> bool {
    match replies.last() {
        Some(reply) => is_reply(reply, "notes 256 256 1"),
        None => false,
    }
}

fn last_notes_are_kept(alloc: Global) -> Result<bool, Fail> {
    let mut events = Vec::new(alloc);
    ask_notes(&mut events)?;
    let replies = replies_to(alloc, shape_of("")?.limits, events)?;
    Ok(ends_with_notes(replies.as_slice()))
}

#[test]
fn the_last_256_notes_are_kept(rt: HostRuntime) -> Result<(), Fail> {
    assert!(rt; last_notes_are_kept(rt.alloc())?);
    Ok(())
}
