//! Background cycles, integers and counts.
use super::script::play_all;
use std::test::Fail;

const LISTS: &str = "
== cycles are opened once and closed once: soft_age 4
    join -> done
    collect -> no
    abandon -> no
    begin -> yes
    begin -> no
    abandon -> yes
    abandon -> no
    mark -> marked idle
    begin -> yes
    mark -> marked done
    collect -> yes
    collect -> no
    mark -> marked idle

-- What was read out of a field in a cycle is not collected by it.
== what a get gave in a cycle is kept: soft_age 4
    join -> done
    new ri -> handle 1
    new -> handle 2
    put 1 0 2 -> done
    drop 2 -> done
    begin -> yes
    get 1 0 -> handle 2
    put 1 0 0 -> done
    mark -> marked done
    collect -> yes
    stat -> stat 2 0 0 0 0

-- Nor is what a weak reference gave in it, after all was marked.
== what a weak reference gave in a cycle is kept: soft_age 4
    join -> done
    new -> handle 1
    weak 1 0 -> handle 2
    drop 1 -> done
    begin -> yes
    mark -> marked done
    deref 2 -> handle 1
    mark -> marked done
    collect -> yes
    deref 2 -> handle 3

-- A reference that was a root when the cycle began is kept by it, though it was dropped since. What it refers to was
-- not marked.
== a reference that was dropped in a cycle is kept: soft_age 4
    join -> done
    queue -> handle 1
    new -> handle 2
    weak 2 1 -> handle 3
    drop 2 -> done
    begin -> yes
    drop 3 -> done
    mark -> marked done
    collect -> yes
    hand_over -> queued
    poll 1 -> handle 2

-- A piece of marking ends where its ticks are spent or no cell is grey, and a cycle is collected only then.
== a cycle is marked in pieces: soft_age 4
    join -> done
    new ri -> handle 1
    new ri -> handle 2
    put 1 0 2 -> done
    drop 2 -> done
    begin -> yes
    mark 1 -> marked more
    collect -> no
    mark 1 -> marked done
    mark 1 -> marked done
    collect -> yes

-- An array takes a tick for each 64 elements, and is grey until the last; it comes before what its parts lead to.
== an array is followed part by part: soft_age 4
    join -> done
    array 129 -> handle 1
    new -> handle 2
    put 1 0 2 -> done
    put 1 128 2 -> done
    drop 2 -> done
    begin -> yes
    mark 2 -> marked more
    collect -> no
    mark 1 -> marked more
    collect -> no
    mark 1 -> marked done
    collect -> yes
    stat -> stat 2 0 0 0 0
    begin -> yes
    mark 3 -> marked more
    mark 1 -> marked done
    abandon -> yes
    array 128 -> handle 2
    drop 1 -> done
    begin -> yes
    mark 1 -> marked more
    mark 1 -> marked done
    collect -> yes
    stat -> stat 1 0 0 0 0

-- An object is carried from the part ahead into the part that was followed, and back.
== an array is written while it is followed: soft_age 4
    join -> done
    array 100 -> handle 1
    new -> handle 2
    new -> handle 3
    put 1 99 2 -> done
    put 1 3 3 -> done
    drop 2 -> done
    drop 3 -> done
    begin -> yes
    mark 1 -> marked more
    get 1 99 -> handle 2
    put 1 5 2 -> done
    put 1 99 0 -> done
    drop 2 -> done
    get 1 3 -> handle 2
    put 1 70 2 -> done
    put 1 3 0 -> done
    drop 2 -> done
    abandon -> yes
    begin -> yes
    mark 1 -> marked more
    get 1 5 -> handle 2
    put 1 80 2 -> done
    put 1 5 0 -> done
    drop 2 -> done
    mark -> marked done
    collect -> yes
    stat -> stat 3 0 0 0 0
    get 1 80 -> handle 2
    get 1 70 -> handle 3

-- A heap that is full in the middle of a cycle makes a full collection, which closes the cycle. It is full exactly
-- where that leaves no room.
== a heap is full in the middle of a cycle: soft_age 4
    join -> done
    new -> handle 1 up to 16
    begin -> yes
    mark 1 -> marked more
    new -> refused HeapFull
    mark 1 -> marked idle
    collect -> no
    drop 1 -> done
    new -> handle 1

-- What is made in a cycle is kept by it, without a tick; what was dropped before it began is not.
== what is made in a cycle is black: soft_age 4
    join -> done
    new -> handle 1
    new -> handle 2
    drop 2 -> done
    begin -> yes
    new -> handle 2
    drop 2 -> done
    mark 1 -> marked done
    collect -> yes
    stat -> stat 2 0 0 0 0

-- A piece of marking without ticks does nothing; and a cycle that is given up leaves no marks to the next.
== marks of a cycle that was given up: soft_age 4
    join -> done
    new -> handle 1
    new -> handle 2
    begin -> yes
    mark 0 -> marked more
    mark 2 -> marked done
    mark 0 -> marked done
    abandon -> yes
    mark 2 -> marked idle
    drop 2 -> done
    begin -> yes
    mark 1 -> marked done
    collect -> yes
    stat -> stat 1 0 0 0 0

-- An array is followed 64 elements a tick, and is grey until its last.
== an array of three parts is marked in three ticks: soft_age 4
    join -> done
    array 130 -> handle 1
    new -> handle 2
    put 1 129 2 -> done
    drop 2 -> done
    begin -> yes
    mark 2 -> marked more
    collect -> no
    mark 2 -> marked done
    collect -> yes
    get 1 129 -> handle 2

== elements move between the parts of an array in progress: soft_age 4
    join -> done
    array 130 -> handle 1
    new -> handle 2
    put 1 129 2 -> done
    drop 2 -> done
    begin -> yes
    mark 1 -> marked more
    get 1 129 -> handle 2
    put 1 0 2 -> done
    put 1 129 0 -> done
    drop 2 -> done
    mark 64 -> marked done
    collect -> yes
    get 1 0 -> handle 2
    stat -> stat 2 0 0 0 0

-- 64 elements are one part, one more is two, and 4,096 are 64; of what an array refers to each takes its own ticks.
== ticks of arrays: soft_age 4
    join -> done
    array 64 -> handle 1
    begin -> yes
    mark 1 -> marked done
    collect -> yes
    array 65 -> handle 2
    drop 1 -> done
    begin -> yes
    mark 1 -> marked more
    mark 1 -> marked done
    collect -> yes
    array 4096 -> handle 1
    drop 2 -> done
    begin -> yes
    mark 63 -> marked more
    mark 1 -> marked done
    collect -> yes
    array 65 -> handle 2
    put 1 0 2 -> done
    drop 2 -> done
    begin -> yes
    mark 65 -> marked more
    mark 1 -> marked done
    collect -> yes

-- What an array referred to when a cycle began is kept by it, whether it stood in the part that was followed or in the
-- rest; and a cycle begins anew with each array.
== a cycle is given up in the middle of an array: soft_age 4
    join -> done
    array 130 -> handle 1
    new -> handle 2
    put 1 100 2 -> done
    drop 2 -> done
    begin -> yes
    mark 1 -> marked more
    put 1 100 0 -> done
    abandon -> yes
    mark 64 -> marked idle
    begin -> yes
    mark 2 -> marked more
    mark 1 -> marked done
    collect -> yes
    stat -> stat 1 0 0 0 0

-- A full collection in the middle of an array closes the cycle, and leaves nothing of it.
== a full collection in the middle of an array: soft_age 4
    join -> done
    array 4096 -> handle 1
    new -> handle 2
    put 1 4095 2 -> done
    drop 2 -> done
    begin -> yes
    mark 10 -> marked more
    full -> done
    mark 1 -> marked idle
    stat -> stat 2 0 0 0 0
    begin -> yes
    mark 64 -> marked more
    mark 1 -> marked done
    collect -> yes
    get 1 4095 -> handle 2

-- The collection of a cycle goes by the soft policy.
== a collect keeps what the policy keeps, cleared
    join -> done
    new -> handle 1
    soft 1 0 -> handle 2
    drop 1 -> done
    begin -> yes
    mark -> marked done
    collect -> yes
    deref 2 -> handle 0

== a collect keeps what the policy keeps, kept: soft_age 1
    join -> done
    new -> handle 1
    soft 1 0 -> handle 2
    drop 1 -> done
    begin -> yes
    mark -> marked done
    collect -> yes
    deref 2 -> handle 1

-- A full collection, and one for an allocation, give an open cycle up; the heap is full exactly where its objects are.
== full collections close a cycle: soft_age 4
    join -> done
    begin -> yes
    full -> done
    abandon -> no
    new -> handle 1 up to 16
    begin -> yes
    new -> refused HeapFull
    mark -> marked idle
    collect -> no
    begin -> yes
    drop 1 -> done
    new -> handle 1
    collect -> no
    stat -> stat 16 0 0 0 0

== integers are set and read: soft_age 4
    join -> done
    new ri -> handle 1
    int 1 1 -> int 0
    set_int 1 1 -9223372036854775808 -> done
    int 1 1 -> int -9223372036854775808
    set_int 1 1 9223372036854775807 -> done
    int 1 1 -> int 9223372036854775807
    set_int 1 0 5 -> refused WrongType
    int 1 0 -> refused WrongType
    put 1 1 1 -> refused WrongType
    get 1 1 -> refused WrongType
    int 1 2 -> refused NoField
    set_int 1 2 0 -> refused NoField
    queue -> handle 2
    int 2 0 -> refused WrongKind
    set_int 0 0 0 -> refused Null
    int 3 0 -> refused NoHandle
    stat -> stat 2 0 0 0 0
    drop 1 -> done
    stat -> stat 2 0 0 0 0
    full -> done
    stat -> stat 1 0 0 0 0
    leave -> done
    stat -> refused NoSession

-- What was polled in a cycle is held by its handle alone, and no more by its queue.
== what a poll gave in a cycle is kept: soft_age 4
    join -> done
    queue -> handle 1
    new -> handle 2
    weak 2 1 -> handle 3
    enqueue 3 -> yes
    drop 3 -> done
    drop 2 -> done
    begin -> yes
    poll 1 -> handle 2
    mark -> marked done
    collect -> yes
    enqueued 2 -> no
    stat -> stat 2 0 0 0 0

-- The cells of what a cycle left over are free at once.
== a cycle gives its cells back: soft_age 4
    join -> done
    new -> handle 1 up to 16
    drop 1 -> done
    drop 2 -> done
    drop 3 -> done
    drop 4 -> done
    drop 5 -> done
    drop 6 -> done
    drop 7 -> done
    drop 8 -> done
    begin -> yes
    mark -> marked done
    collect -> yes
    stat -> stat 8 0 0 0 0
    mark -> marked idle
    new -> handle 1 up to 8
    stat -> stat 16 0 0 0 0

-- What a cycle left over is swept in steps, and where an allocation finds no free cell: without a collection.
== what a cycle left over is taken again: soft_age 4
    join -> done
    new -> handle 1 up to 16
    drop 1 -> done
    drop 2 -> done
    drop 3 -> done
    drop 4 -> done
    drop 5 -> done
    drop 6 -> done
    drop 7 -> done
    drop 8 -> done
    begin -> yes
    mark 64 -> marked done
    collect -> yes
    stat -> stat 8 0 0 0 0
    mark 3 -> marked idle
    uncollected new -> handle 1 up to 8
    stat -> stat 16 0 0 0 0

-- The same, with a look in between.
== a cycle's cells are swept in steps: soft_age 4
    join -> done
    new -> handle 1 up to 16
    drop 1 -> done
    drop 2 -> done
    drop 3 -> done
    drop 4 -> done
    drop 5 -> done
    drop 6 -> done
    drop 7 -> done
    drop 8 -> done
    begin -> yes
    mark 8 -> marked done
    collect -> yes
    stat -> stat 8 0 0 0 0
    mark 3 -> marked idle
    stat -> stat 8 0 0 0 0
    new -> handle 1
    new -> handle 2
    new -> handle 3
    new -> handle 4
    stat -> stat 12 0 0 0 0
    new -> handle 5
    new -> handle 6
    new -> handle 7
    new -> handle 8
    stat -> stat 16 0 0 0 0

-- A cell that a cycle left over is taken in the middle of the next, which keeps what is made there.
== a cell is taken again in the middle of the next cycle: soft_age 4
    join -> done
    new -> handle 1 up to 16
    drop 1 -> done
    begin -> yes
    mark -> marked done
    collect -> yes
    begin -> yes
    mark 1 -> marked more
    new -> handle 1
    drop 1 -> done
    mark -> marked done
    collect -> yes
    stat -> stat 16 0 0 0 0
";

#[test]
fn lists_of_cycles(rt: HostRuntime) -> Result<(), Fail> {
    play_all(rt.alloc(), LISTS)
}
