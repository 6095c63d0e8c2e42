//! Queues: what the handler and the program put on them, and what comes out.
use super::script::{first_wrong_of, play_all, shape_of};
use std::test::Fail;

const LISTS: &str = "
== a cleared reference comes out of its queue once: soft_age 4
    join -> done
    queue -> handle 1
    new -> handle 2
    weak 2 1 -> handle 3
    drop 2 -> done
    full -> done
    hand_over -> queued
    hand_over -> nothing
    enqueued 3 -> yes
    poll 1 -> handle 2
    same 2 3 -> yes
    poll 1 -> handle 0
    enqueue 3 -> no
    enqueued 3 -> no

== a reference that dies with its referent is not enqueued: soft_age 4
    join -> done
    queue -> handle 1
    new ri -> handle 2
    weak 2 1 -> handle 3
    put 2 0 3 -> done
    drop 3 -> done
    drop 2 -> done
    full -> done
    hand_over -> nothing
    poll 1 -> handle 0

== a reference that the program cleared is not enqueued by a collection: soft_age 4
    join -> done
    queue -> handle 1
    new -> handle 2
    weak 2 1 -> handle 3
    clear 3 -> done
    drop 2 -> done
    full -> done
    hand_over -> nothing
    poll 1 -> handle 0
    enqueued 3 -> no
    enqueue 3 -> yes
    poll 1 -> handle 2
    enqueue 3 -> no

== a pending reference that the program enqueues is skipped: soft_age 4
    join -> done
    queue -> handle 1
    new -> handle 2
    weak 2 1 -> handle 3
    drop 2 -> done
    full -> done
    enqueue 3 -> yes
    poll 1 -> handle 2
    hand_over -> skipped
    poll 1 -> handle 0

== a pending reference is skipped while it is in its queue: soft_age 4
    join -> done
    queue -> handle 1
    new -> handle 2
    weak 2 1 -> handle 3
    drop 2 -> done
    full -> done
    enqueued 3 -> no
    enqueue 3 -> yes
    enqueued 3 -> yes
    hand_over -> skipped
    hand_over -> nothing
    poll 1 -> handle 2
    poll 1 -> handle 0

-- The pending list and the queue go on by links of their own.
== references stand in the pending list and in their queue at once: soft_age 4
    join -> done
    queue -> handle 1
    new -> handle 2
    weak 2 1 -> handle 3
    weak 2 1 -> handle 4
    weak 2 1 -> handle 5
    phantom 2 1 -> handle 6
    drop 2 -> done
    full -> done
    enqueue 5 -> yes
    enqueue 3 -> yes
    enqueued 5 -> yes
    enqueued 3 -> yes
    hand_over
    hand_over
    hand_over
    hand_over
    hand_over -> nothing
    poll 1 -> handle 2
    same 2 5 -> yes
    poll 1 -> handle 7
    same 7 3 -> yes
    poll 1 -> handle 8
    same 8 3 -> no
    same 8 5 -> no
    poll 1 -> handle 9
    same 9 8 -> no
    same 9 3 -> no
    same 9 5 -> no
    poll 1 -> handle 0

== a queue that another stands beside keeps its order: soft_age 4
    join -> done
    queue -> handle 1
    queue -> handle 2
    new -> handle 3
    weak 3 1 -> handle 4
    weak 3 2 -> handle 5
    weak 3 1 -> handle 6
    weak 3 2 -> handle 7
    enqueue 6 -> yes
    enqueue 5 -> yes
    enqueue 4 -> yes
    enqueue 7 -> yes
    poll 2 -> handle 8
    same 8 5 -> yes
    poll 1 -> handle 9
    same 9 6 -> yes
    poll 1 -> handle 10
    same 10 4 -> yes
    poll 1 -> handle 0
    poll 2 -> handle 11
    same 11 7 -> yes
    poll 2 -> handle 0

-- The slot of a queue that died with a member is taken again, by a queue that has none.
== a queue in the place of another begins without members: soft_age 4
    join -> done
    queue -> handle 1
    new -> handle 2
    weak 2 1 -> handle 3
    enqueue 3 -> yes
    drop 1 -> done
    full -> done
    queue -> handle 1
    poll 1 -> handle 0
    weak 2 1 -> handle 4
    enqueue 4 -> yes
    poll 1 -> handle 5
    same 5 4 -> yes
    poll 1 -> handle 0

== enqueueing clears a reference and puts it on its queue once: soft_age 4
    join -> done
    queue -> handle 1
    new -> handle 2
    weak 2 1 -> handle 3
    enqueued 3 -> no
    enqueue 3 -> yes
    enqueued 3 -> yes
    refers 3 0 -> yes
    deref 3 -> handle 0
    enqueue 3 -> no
    poll 1 -> handle 4
    same 3 4 -> yes
    enqueued 3 -> no
    enqueue 3 -> no
    drop 2 -> done
    full -> done
    hand_over -> nothing
    poll 1 -> handle 0

== enqueueing without a queue clears and answers no: soft_age 4
    join -> done
    new -> handle 1
    weak 1 0 -> handle 2
    enqueue 2 -> no
    enqueued 2 -> no
    refers 2 0 -> yes
    deref 2 -> handle 0

== references of two collections come out in their order: soft_age 4
    join -> done
    queue -> handle 1
    new -> handle 2
    weak 2 1 -> handle 3
    new -> handle 4
    weak 4 1 -> handle 5
    drop 4 -> done
    full -> done
    drop 2 -> done
    full -> done
    hand_over -> queued
    hand_over -> queued
    hand_over -> nothing
    poll 1 -> handle 2
    same 2 5 -> yes
    poll 1 -> handle 4
    same 4 3 -> yes
    poll 1 -> handle 0

== references come out in the order of their enqueueing: soft_age 4
    join -> done
    queue -> handle 1
    new -> handle 2
    weak 2 1 -> handle 3
    weak 2 1 -> handle 4
    soft 2 1 -> handle 5
    enqueue 5 -> yes
    enqueue 3 -> yes
    enqueue 4 -> yes
    poll 1 -> handle 6
    same 5 6 -> yes
    poll 1 -> handle 7
    same 3 7 -> yes
    poll 1 -> handle 8
    same 4 8 -> yes
    poll 1 -> handle 0

== references go to the queue that each is registered with: soft_age 4
    join -> done
    queue -> handle 1
    queue -> handle 2
    new -> handle 3
    weak 3 1 -> handle 4
    phantom 3 2 -> handle 5
    drop 3 -> done
    full -> done
    hand_over -> queued
    hand_over -> queued
    hand_over -> nothing
    poll 1 -> handle 3
    same 3 4 -> yes
    poll 2 -> handle 6
    same 5 6 -> yes
    poll 1 -> handle 0
    poll 2 -> handle 0

== a queue holds what is in it: soft_age 4
    join -> done
    queue -> handle 1
    new -> handle 2
    weak 2 1 -> handle 3
    drop 2 -> done
    full -> done
    drop 3 -> done
    full -> done
    hand_over -> queued
    full -> done
    poll 1 -> handle 2
    refers 2 0 -> yes
    enqueued 2 -> no

== a reference outlives the queue that it is in: soft_age 4
    join -> done
    queue -> handle 1
    new -> handle 2
    weak 2 1 -> handle 3
    drop 1 -> done
    drop 2 -> done
    full -> done
    hand_over -> queued
    full -> done
    enqueued 3 -> yes
    enqueue 3 -> no

-- A reference holds its queue, and a queue does not hold the references that are registered with it.
== a queue dies with its references: soft_age 4
    join
    queue
    new
    weak 2 1
    drop 1
    full
    objects 3

== a queue dies with its references: soft_age 4
    join
    queue
    new
    weak 2 1
    drop 1
    drop 3
    full
    drop 2
    hand_over
    objects 1

== what is pending lives until it is handed over: soft_age 4
    join
    queue
    new
    weak 2 1
    drop 2
    full
    drop 1
    drop 3
    full
    objects 2

== what is pending lives until it is handed over: soft_age 4
    join
    queue
    new
    weak 2 1
    drop 2
    full
    drop 1
    drop 3
    full
    hand_over
    full
    objects 0
";

#[test]
fn lists_of_queues(rt: HostRuntime) -> Result<(), Fail> {
    play_all(rt.alloc(), LISTS)
}

// The lists differ in which of the two references comes out first, which is open.
const EITHER: &str = "
    join -> done
    queue -> handle 1
    new -> handle 2
    weak 2 1 -> handle 3
    weak 2 1 -> handle 4
    drop 2 -> done
    full -> done
    hand_over -> queued
    hand_over -> queued
    hand_over -> nothing
    poll 1 -> handle 2
    poll 1 -> handle 5
    poll 1 -> handle 0
    same 2 3 -> yes
    same 2 4 -> no
    same 5 3 -> no
    same 5 4 -> yes
";

const OR: &str = "
    join -> done
    queue -> handle 1
    new -> handle 2
    weak 2 1 -> handle 3
    weak 2 1 -> handle 4
    drop 2 -> done
    full -> done
    hand_over -> queued
    hand_over -> queued
    hand_over -> nothing
    poll 1 -> handle 2
    poll 1 -> handle 5
    poll 1 -> handle 0
    same 2 3 -> no
    same 2 4 -> yes
    same 5 3 -> yes
    same 5 4 -> no
";

#[test]
fn two_references_of_one_collection_come_out_once_each(rt: HostRuntime) -> Result<(), Fail> {
    let shape = shape_of("soft_age 4")?;
    let either = first_wrong_of(rt.alloc(), shape, EITHER)?.is_none();
    let or = first_wrong_of(rt.alloc(), shape, OR)?.is_none();
    assert!(rt; either != or);
    Ok(())
}
