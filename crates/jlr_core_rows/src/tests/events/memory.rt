//! Which events take memory. The core is made again where memory was refused once, and no event is but those whose rows
//! begin with `again`: an event that took memory would be answered otherwise in the run in which it is refused.
//! `checks/failing.sh` runs this test once for each of its allocations.
use super::script::play_all;
use std::test::Fail;

const LISTS: &str = "
== no event takes memory
    join -> done
    new ri -> handle 1
    weak 1 0 -> handle 2
    weak 1 0 -> handle 3
    put 1 0 1 -> done
    get 1 0 -> handle 4
    same 1 4 -> yes
    drop 4 -> done
    full -> done
    deref 2 -> handle 4
    dup 4 -> handle 5
    drop 5 -> done
    drop 4 -> done
    drop 1 -> done
    full -> done
    deref 2 -> handle 0
    deref 3 -> handle 0
    put 9 0 1 -> refused NoHandle
    queue -> handle 1
    new -> handle 4
    weak 4 1 -> handle 5
    refers 5 4 -> yes
    enqueued 5 -> no
    soft 4 0 -> handle 6
    phantom 4 0 -> handle 7
    deref 7 -> handle 0
    clear 6 -> done
    drop 4 -> done
    full_clearing -> done
    refers 5 0 -> yes
    refers 7 0 -> yes
    poll 1 -> handle 0
    new ri -> handle 4
    set_int 4 1 7 -> done
    int 4 1 -> int 7
    begin -> yes
    abandon -> yes
    begin -> yes
    mark -> marked done
    collect -> yes
    stat -> stat 7 0 0 0 0
    leave -> done
    full -> refused NoSession
    opened 1 -> refused NoSession 1

-- The handler's step lines up a cleanable, and takes no memory for that.
== no event of a cleaner takes memory
    join -> done
    cleaner -> handle 1
    new -> handle 2
    register 1 2 7 -> handle 3
    register 1 2 8 -> handle 4
    clean 3 -> job 1
    finish 0 1 ok -> done
    clean 3 -> already_done
    drop 2 -> done
    full -> done
    hand_over -> lined
    take_up -> job 2
    take_up -> refused Busy
    finish 255 2 Denied -> fault Denied
    take_up -> nothing
    queue -> handle 2
    remove 2 -> refused WouldWait

== no event of queues takes memory
    join -> done
    queue -> handle 1
    queue -> handle 2
    new -> handle 3
    weak 3 1 -> handle 4
    weak 3 2 -> handle 5
    enqueue 4 -> yes
    refers 5 3 -> yes
    drop 3 -> done
    full -> done
    hand_over -> queued
    hand_over -> nothing
    poll 1 -> handle 3
    same 3 4 -> yes
    poll 2 -> handle 6
    same 6 5 -> yes
    poll 1 -> handle 0
    poll 2 -> handle 0
    enqueue 4 -> no

== a pending reference that the program enqueues takes no memory
    join -> done
    queue -> handle 1
    new -> handle 2
    weak 2 1 -> handle 3
    drop 2 -> done
    full -> done
    enqueue 3 -> yes
    poll 1 -> handle 2
    hand_over -> skipped
    poll 1 -> handle 0

-- Those events for which the table grows may be refused, those that bind a new name, and those that copy a list that is
-- not empty, and are asked again then: nothing has changed.
== a table that cannot grow is left as it was
    join -> done
    new -> handle 1
    again prepare -> prepared
    opened 5 -> handle 2
    check_out 2 -> out 5
    check_in 3 6 -> wrote 3
    close 2 -> job 1 6
    finish 0 1 Other -> fault Other
    again faults -> faults 1 1 Other
    notes -> notes 0
    again prepare -> prepared
    opened NotFound -> fault NotFound
    again bind x 1 -> done
    bind x 2 -> done
    find x -> handle 3
    same 2 3 -> yes
    again names -> names 1 x
    unbind x -> done
    find x -> refused NoName
    queue -> handle 4
    weak 1 4 -> handle 5
    enqueue 5 -> yes
    remove 4 -> handle 6
";

#[test]
fn a_refused_growth_changes_nothing(rt: HostRuntime) -> Result<(), Fail> {
    play_all(rt.alloc(), LISTS)
}

// What takes memory at all: the heap, and the table's one place.
const BEFORE: &str = "
== a heap with a resource: sessions 2
    join -> done
    prepare -> prepared
    opened 5 -> handle 1
";

#[test]
fn a_heap_and_its_table_are_made(rt: HostRuntime) -> Result<(), Fail> {
    play_all(rt.alloc(), BEFORE)
}

// The same, and then each event that takes no memory. `checks/starved.sh` runs this test with all refused that the one
// above does not take.
const AFTER: &str = "
== a heap with a resource, and each event that takes no memory: sessions 2
    join -> done
    prepare -> prepared
    opened 5 -> handle 1

    by 1 join -> done
    by 1 leave -> done
    names -> names 0
    notes -> notes 0
    faults -> faults 0
    check_out 1 -> out 5
    check_in 3 6 -> wrote 3
    close 1 -> job 1 6
    finish 0 1 ok -> done
    drop 1 -> done
    full -> done
    prepare -> prepared
    opened NotFound -> fault NotFound
    new ri -> handle 1
    put 1 0 1 -> done
    get 1 0 -> handle 2
    same 1 2 -> yes
    set_int 1 1 7 -> done
    int 1 1 -> int 7
    dup 1 -> handle 3
    drop 2 -> done
    drop 3 -> done
    bind x 1 -> done
    find x -> handle 2
    unbind x -> done
    drop 2 -> done
    queue -> handle 2
    weak 1 2 -> handle 3
    weak 1 2 -> handle 4
    refers 3 1 -> yes
    deref 3 -> handle 5
    drop 5 -> done
    soft 1 0 -> handle 5
    clear 5 -> done
    enqueue 3 -> yes
    enqueued 3 -> yes
    poll 2 -> handle 6
    drop 6 -> done
    drop 1 -> done
    begin -> yes
    mark -> marked done
    collect -> yes
    hand_over -> queued
    remove 2 -> handle 1
    begin -> yes
    abandon -> yes
    cleaner -> handle 6
    new -> handle 7
    register 6 7 8 -> handle 8
    register 6 7 9 -> handle 9
    clean 8 -> job 3
    finish 0 3 ok -> done
    drop 7 -> done
    full_clearing -> done
    hand_over -> lined
    take_up -> job 4
    finish 255 4 ok -> done
    hand_over -> nothing
    take_up -> nothing
    stat -> stat 7 0 3 3 0
    leave -> done
";

#[test]
fn each_other_event_takes_no_memory(rt: HostRuntime) -> Result<(), Fail> {
    play_all(rt.alloc(), AFTER)
}
