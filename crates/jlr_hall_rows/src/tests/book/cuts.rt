//! What is an entry, and what a cut leaves.
use super::play::play_all;
use std::test::Fail;

const LISTS: &str = "
== an ask at the limit cuts
    trace 0 0
    join -> done
    63 times stat -> stat 0
    trace 0 64
    stat -> stat 0
    trace 64 1
    6 times stat -> stat 0
    leave -> done
    trace 64 8
    last 72

== an ask at the limit gives an open cycle up
    join -> done
    62 times stat -> stat 0
    begin -> yes
    trace 0 64
    stat -> stat 0
    trace 65 1
    collect -> no
    trace 65 2

== an end is written behind the limit, and a refused end is no entry
    join -> done
    62 times stat -> stat 0
    prepare -> prepared
    trace 0 64
    opened 5 -> handle 1
    trace 0 65
    stat -> stat 2
    trace 65 1
    image 2
    by 1 leave -> refused NoSession
    trace 65 1
    opened 6 -> refused NotOut 6
    trace 65 1
    last 66

== what a call read is told in its entry, and a refused end is none
    join -> done
    prepare -> prepared
    opened 5 -> handle 1
    check_out 1 -> out 5
    check_in data 00ff 6 -> data 00ff
    check_in data 00ff 7 -> refused NotOut 7
    check_out 1 -> out 6
    check_in data - 6 -> data -
    trace 0 7

-- The list answers are copied into the trace, and so are new objects and what a collection did.
== lists, new objects and collections are entries
    join -> done
    cleaner -> handle 1
    new -> handle 2
    new -> handle 3
    bind a 1 -> done
    names -> names 1
    register 1 2 7 -> handle 4
    register 1 3 7 -> handle 5
    drop 2 -> done
    drop 3 -> done
    pending no
    full -> done
    pending yes
    line no
    seat 2 hand_over -> lined
    seat 2 hand_over -> lined
    pending no
    line yes
    seat 3 take_up -> job 1
    seat 3 finish 255 1 ok -> done
    seat 3 take_up -> job 2
    seat 3 finish 255 2 Other -> fault Other
    line no
    notes -> notes 1
    faults -> faults 1
    trace 0 19
    drop 4 -> done
    drop 5 -> done
    begin -> yes
    mark done
    collect -> yes
    stat -> stat 1
    trace 0 24

== a new object that finds no room collects
    join -> done
    queue -> handle 1
    new -> handle 2
    weak 2 1 -> handle 3
    new -> handle 4
    new -> handle 5
    new -> handle 6
    new -> handle 7
    new -> handle 8
    new -> handle 9
    new -> handle 10
    new -> handle 11
    new -> handle 12
    new -> handle 13
    new -> handle 14
    new -> handle 15
    new -> handle 16
    new -> refused HeapFull
    waits 1 yes
    drop 2 -> done
    new -> handle 2
    pending yes
    seat 2 hand_over -> queued
    waits 1 no
    drop 16 -> done
    poll 1 -> handle 16
    waits 1 yes
    waits 2 no
    trace 0 23

-- The name keeps the guard, and the resource is idle: the next session takes it out.
== a session that leaves after a call leaves its resource idle
    join -> done
    prepare -> prepared
    opened 5 -> handle 1
    bind f 1 -> done
    check_out 1 -> out 5
    check_in 2 6 -> wrote 2
    leave -> done
    trace 0 7
    join -> done
    find f -> handle 1
    check_out 1 -> out 6

== an open that failed lets its mutator leave
    join -> done
    prepare -> prepared
    leave -> refused Busy
    trace 0 2
    opened Denied -> fault Denied
    leave -> done
    trace 0 4

== a cut by hand gives an open cycle up, and marking is no entry
    join -> done
    new -> handle 1
    mark idle
    mark -> marked idle
    begin -> yes
    mark done
    mark -> marked done
    trace 0 3
    cut
    trace 4 0
    image 1
    abandon -> no
    trace 4 1
    cut
    trace 5 0
    cut
    trace 5 0
    last 5
";

// Lists over more cells than a cut copies. After a cut the image is asked for while its entries are followed, as a save
// does.
const WIDE: &str = "
== the image of a cut is followed
    join -> done
    queue -> handle 1
    cleaner -> handle 2
    new -> handle 3
    array 8 -> handle 4
    put 4 3 3 -> done
    weak 3 1 -> handle 5
    register 2 3 7 -> handle 6
    bind a 4 -> done
    image 0
    cut
    trace 9 0
    image 6
    stat -> stat 6
    image 6
    put 4 3 0 -> done
    drop 3 -> done
    new -> handle 3
    full -> done
    pending yes
    image 6
    cut
    trace 14 0
    image 6
    seat 2 hand_over -> queued
    seat 2 hand_over -> lined
    seat 3 take_up -> job 1
    image 6
    seat 3 finish 255 1 ok -> done
    20 times stat -> stat 6
    poll 1 -> handle 7
    image 6
    cut
    30 times stat -> stat 6
    image 6
    last 69

== a cut follows what is left before
    join -> done
    new r -> handle 1
    begin -> yes
    new -> handle 2
    put 1 0 2 -> done
    cut
    trace 6 0
    image 2
    drop 2 -> done
    cut
    trace 7 0
    image 2
    put 1 0 0 -> done
    full -> done
    cut
    image 1
    cut
    image 1
    prepare -> prepared
    opened 5 -> handle 2
    cut
    check_out 2 -> out 5
    cut
    check_in data 00ff 6 -> data 00ff
    cut
    image 3

== where following takes long the next cut copies
    join -> done
    new -> handle 1
    cut
    40 times full -> done
    cut
    image 1
    40 times full -> done
    new -> handle 2
    image 1
    cut
    image 2
    60 times stat -> stat 2
    cut
    image 2

== cuts follow one upon another
    join -> done
    cleaner -> handle 1
    array 16 -> handle 2
    200 times stat -> stat 2
    image 2
    array 16 -> handle 3
    put 2 0 3 -> done
    drop 3 -> done
    200 times stat -> stat 3
    image 3
    put 2 0 0 -> done
    full -> done
    300 times stat -> stat 2
    image 2
";

#[test]
fn entries_are_numbered_through_cuts(rt: HostRuntime) -> Result<(), Fail> {
    play_all(rt.alloc(), 16, LISTS)
}

#[test]
fn images_are_followed_in_a_wide_heap(rt: HostRuntime) -> Result<(), Fail> {
    play_all(rt.alloc(), 4_096, WIDE)
}

#[test]
fn images_are_followed_where_the_trace_is_short(rt: HostRuntime) -> Result<(), Fail> {
    play_all(rt.alloc(), 65, WIDE)
}
