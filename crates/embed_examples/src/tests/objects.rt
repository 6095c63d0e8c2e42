//! Objects, references, queues and names.
use super::play::{Guarded, play_all};
use std::test::Fail;

const LISTS: &str = "
== fields and elements
    new ri -> handle 1
    get 1 0 -> handle 0
    int 1 1 -> int 0
    set_int 1 1 -7 -> done
    int 1 1 -> int -7
    put 1 0 1 -> done
    get 1 0 -> handle 2
    same 1 2 -> yes
    put 1 1 1 -> refused WrongType
    get 1 2 -> refused NoField
    array 2 -> handle 3
    put 3 1 1 -> done
    get 3 1 -> handle 4
    get 3 2 -> refused NoField
    dup 1 -> handle 5
    drop 5 -> done
    drop 5 -> refused NoHandle
    stat -> stat 2 0 0 0 0

== references come to their queue by themselves
    queue -> handle 1
    new -> handle 2
    weak 2 1 -> handle 3
    refers 3 2 -> yes
    poll 1 -> handle 0
    remove 1 -> refused WouldWait
    drop 2 -> done
    full -> done
    deref 3 -> handle 0
    refers 3 0 -> yes
    enqueued 3 -> yes
    remove 1 -> handle 2
    same 2 3 -> yes
    enqueued 3 -> no
    new -> handle 4
    phantom 4 1 -> handle 5
    deref 5 -> handle 0
    drop 4 -> done
    full -> done
    poll 1 -> handle 4
    same 4 5 -> yes
    poll 1 -> handle 0

== they do not where the program settles
    by_hand
    queue -> handle 1
    new -> handle 2
    weak 2 1 -> handle 3
    drop 2 -> done
    full -> done
    deref 3 -> handle 0
    enqueued 3 -> no
    poll 1 -> handle 0
    settle
    enqueued 3 -> yes
    poll 1 -> handle 2
    by_itself
    new -> handle 4
    weak 4 1 -> handle 5
    drop 4 -> done
    full -> done
    enqueued 5 -> yes

== one settling hands over all that is pending
    by_hand
    queue -> handle 1
    new -> handle 2
    weak 2 1 -> handle 3
    weak 2 1 -> handle 4
    drop 2 -> done
    full -> done
    enqueued 3 -> no
    enqueued 4 -> no
    settle
    enqueued 3 -> yes
    enqueued 4 -> yes

== a reference is cleared and enqueued by hand
    queue -> handle 1
    new -> handle 2
    soft 2 1 -> handle 3
    enqueue 3 -> yes
    enqueue 3 -> no
    deref 3 -> handle 0
    weak 2 0 -> handle 4
    clear 4 -> done
    refers 4 0 -> yes
    enqueue 4 -> no

== soft references go where all are to be cleared
    new -> handle 1
    soft 1 0 -> handle 2
    drop 1 -> done
    full_clearing -> done
    deref 2 -> handle 0

== names hold objects
    new -> handle 1
    bind a 1 -> done
    drop 1 -> done
    full -> done
    find a -> handle 1
    names -> names 1 a
    unbind a -> done
    find a -> refused NoName
    names -> names 0
";

#[test]
fn calls_on_objects_give_what_the_rows_say(rt: HostRuntime) -> Result<(), Fail> {
    play_all(rt.alloc(), &Guarded::Numbers, LISTS)
}
