//! Refusals: each ask for each of its reasons, in their order.
use super::script::play_all;
use std::test::Fail;

const LISTS: &str = "
== nobody asks before joining
    leave -> refused NoSession
    new -> refused NoSession
    put 1 0 1 -> refused NoSession
    get 1 0 -> refused NoSession
    dup 1 -> refused NoSession
    drop 1 -> refused NoSession
    same 1 1 -> refused NoSession
    weak 1 0 -> refused NoSession
    deref 1 -> refused NoSession
    full -> refused NoSession
    opened Other -> refused NoSession
    by 1 join -> refused NoSession

== each ask is refused for its reasons
    join -> done
    join -> refused NoSession
    new ri -> handle 1
    weak 1 0 -> handle 2
    put 3 0 1 -> refused NoHandle
    put 1 0 3 -> refused NoHandle
    put 0 0 1 -> refused Null
    put 2 0 1 -> refused WrongKind
    put 1 2 1 -> refused NoField
    put 1 1 1 -> refused WrongType
    get 3 0 -> refused NoHandle
    get 0 0 -> refused Null
    get 2 0 -> refused WrongKind
    get 1 2 -> refused NoField
    get 1 1 -> refused WrongType
    dup 3 -> refused NoHandle
    dup 0 -> refused Null
    drop 3 -> refused NoHandle
    drop 0 -> refused Null
    same 1 3 -> refused NoHandle
    same 0 0 -> yes
    weak 3 0 -> refused NoHandle
    weak 0 0 -> refused Null
    weak 1 3 -> refused NoHandle
    weak 0 1 -> refused Null
    weak 1 1 -> refused WrongKind
    deref 3 -> refused NoHandle
    deref 0 -> refused Null
    deref 1 -> refused WrongKind
    opened 1 -> refused NotOut 1
    get 1 0 -> handle 0
    same 1 2 -> no
    leave -> done
    leave -> refused NoSession

== reading needs a free handle
    join -> done
    new ri -> handle 1
    weak 1 0 -> handle 2
    put 1 0 2 -> done
    dup 1 -> handle 3 up to 250
    get 1 0 -> refused HandlesFull
    deref 2 -> refused HandlesFull
    drop 9 -> done
    deref 2 -> handle 9

-- The handler is no mutator.
== nobody asks for references before joining: soft_age 4
    weak 1 2 -> refused NoSession
    refers 1 2 -> refused NoSession
    clear 1 -> refused NoSession
    enqueue 1 -> refused NoSession
    enqueued 1 -> refused NoSession
    queue -> refused NoSession
    poll 1 -> refused NoSession
    full_clearing -> refused NoSession
    hand_over -> nothing

== asks on references are refused for their reasons: soft_age 4
    join -> done
    new -> handle 1
    queue -> handle 2
    weak 1 2 -> handle 3
    refers 9 1 -> refused NoHandle
    refers 3 9 -> refused NoHandle
    refers 0 9 -> refused NoHandle
    refers 1 9 -> refused NoHandle
    refers 0 1 -> refused Null
    refers 1 1 -> refused WrongKind
    refers 2 0 -> refused WrongKind
    clear 9 -> refused NoHandle
    clear 0 -> refused Null
    clear 1 -> refused WrongKind
    clear 2 -> refused WrongKind
    enqueue 9 -> refused NoHandle
    enqueue 0 -> refused Null
    enqueue 1 -> refused WrongKind
    enqueue 2 -> refused WrongKind
    enqueued 9 -> refused NoHandle
    enqueued 0 -> refused Null
    enqueued 1 -> refused WrongKind
    enqueued 2 -> refused WrongKind
    deref 2 -> refused WrongKind
    refers 3 1 -> yes
    enqueued 3 -> no

== asks on queues are refused for their reasons: soft_age 4
    join -> done
    new -> handle 1
    queue -> handle 2
    weak 1 2 -> handle 3
    poll 9 -> refused NoHandle
    poll 0 -> refused Null
    poll 1 -> refused WrongKind
    poll 3 -> refused WrongKind
    weak 9 2 -> refused NoHandle
    weak 1 9 -> refused NoHandle
    weak 0 9 -> refused NoHandle
    weak 0 2 -> refused Null
    weak 0 1 -> refused Null
    weak 1 1 -> refused WrongKind
    weak 1 3 -> refused WrongKind
    put 2 0 1 -> refused WrongKind
    get 2 0 -> refused WrongKind
    poll 2 -> handle 0

-- A null result needs no handle.
== queues and what they give need a free handle: soft_age 4
    join -> done
    queue -> handle 1
    new -> handle 2
    weak 2 1 -> handle 3
    enqueue 3 -> yes
    dup 2 -> handle 4 up to 250
    poll 1 -> refused HandlesFull
    poll 2 -> refused WrongKind
    queue -> refused HandlesFull
    weak 2 1 -> refused HandlesFull
    weak 2 2 -> refused WrongKind
    deref 3 -> handle 0
    enqueued 3 -> yes
    drop 77 -> done
    poll 1 -> handle 77
    same 77 3 -> yes
    poll 1 -> handle 0

-- Where no handle is free and no cell either, there is no collection: the handle is looked for first.
== queues and references need a free cell: soft_age 4
    join -> done
    queue -> handle 1
    new -> handle 2 up to 16
    queue -> refused HeapFull
    weak 2 1 -> refused HeapFull
    dup 2 -> handle 17 up to 250
    queue -> refused HandlesFull
    weak 2 1 -> refused HandlesFull
    drop 16 -> done
    weak 2 1 -> handle 16
    refers 16 2 -> yes
    poll 1 -> handle 0

== nobody asks for files cleaners or names before joining
    set_int 1 1 4 -> refused NoSession
    int 1 1 -> refused NoSession
    remove 1 -> refused NoSession
    cleaner -> refused NoSession
    register 1 1 5 -> refused NoSession
    clean 1 -> refused NoSession
    finish 0 1 ok -> refused NoSession
    prepare -> refused NoSession
    opened 8 -> refused NoSession 8
    check_out 1 -> refused NoSession
    check_in 2 9 -> refused NoSession 9
    close 1 -> refused NoSession
    bind x 1 -> refused NoSession
    find x -> refused NoSession
    unbind x -> refused NoSession
    names -> refused NoSession
    stat -> refused NoSession
    notes -> refused NoSession
    faults -> refused NoSession
    take_up -> nothing

== what is asked for has to be named
    join -> done
    new ri -> handle 1
    set_int 9 1 4 -> refused NoHandle
    int 9 1 -> refused NoHandle
    remove 9 -> refused NoHandle
    remove 0 -> refused Null
    register 9 1 5 -> refused NoHandle
    clean 9 -> refused NoHandle
    check_out 9 -> refused NoHandle
    close 9 -> refused NoHandle
    close 0 -> refused Null
    bind x 9 -> refused NoHandle

== cleaners files and names need a free handle
    join -> done
    queue -> handle 1
    new -> handle 2
    weak 2 1 -> handle 3
    enqueue 3 -> yes
    cleaner -> handle 4
    bind x 2 -> done
    dup 2 -> handle 5 up to 250
    remove 1 -> refused HandlesFull
    cleaner -> refused HandlesFull
    register 4 2 5 -> refused HandlesFull
    prepare -> refused HandlesFull
    find x -> refused HandlesFull
    find y -> refused NoName
    drop 77 -> done
    remove 1 -> handle 77
    same 77 3 -> yes
    remove 1 -> refused WouldWait
    drop 78 -> done
    find x -> handle 78

== cleaners and actions need a free cell
    join -> done
    cleaner -> handle 1
    new -> handle 2 up to 16
    cleaner -> refused HeapFull
    register 1 2 5 -> refused HeapFull
    drop 16 -> done
    register 1 2 5 -> handle 16
    stat -> stat 16 0 0 0 0

-- A mutator whose call is in flight may only end it, unless a refusal that comes first in the order holds.
== a mutator in a call may only end it: resources 4
    join -> done
    new ri -> handle 1
    queue -> handle 2
    weak 1 2 -> handle 3
    cleaner -> handle 4
    register 4 1 7 -> handle 5
    prepare -> prepared
    opened 6 -> handle 6
    close 6 -> job 2 6
    finish 0 2 ok -> done
    prepare -> prepared
    opened 7 -> handle 7
    bind x 1 -> done
    prepare -> prepared
    leave -> refused Busy
    new -> refused Busy
    put 1 0 2 -> refused Busy
    get 1 0 -> refused Busy
    set_int 1 1 4 -> refused Busy
    int 1 1 -> refused Busy
    dup 1 -> refused Busy
    drop 1 -> refused Busy
    same 1 2 -> refused Busy
    weak 1 2 -> refused Busy
    deref 3 -> refused Busy
    refers 3 1 -> refused Busy
    clear 3 -> refused Busy
    enqueue 3 -> refused Busy
    enqueued 3 -> refused Busy
    queue -> refused Busy
    poll 2 -> refused Busy
    remove 2 -> refused Busy
    cleaner -> refused Busy
    register 4 1 8 -> refused Busy
    clean 5 -> refused Busy
    prepare -> refused Busy
    check_out 7 -> refused Busy
    close 7 -> refused Busy
    close 6 -> refused Busy
    bind y 1 -> refused Busy
    find x -> refused Busy
    unbind x -> refused Busy
    names -> refused Busy
    full -> refused Busy
    full_clearing -> refused Busy
    stat -> refused Busy
    notes -> refused Busy
    faults -> refused Busy
    join -> refused NoSession
    drop 9 -> refused NoHandle
    dup 0 -> refused Null
    poll 1 -> refused WrongKind
    get 1 2 -> refused NoField
    get 1 1 -> refused WrongType
    find y -> refused NoName
    check_out 6 -> refused Closed
    check_in 2 9 -> refused NotOut 9
    finish 0 1 ok -> refused NotOut
    opened 8 -> handle 8
    get 1 0 -> handle 0
    refers 3 1 -> yes
    clean 5 -> job 1
";

#[test]
fn lists_of_refusals(rt: HostRuntime) -> Result<(), Fail> {
    play_all(rt.alloc(), LISTS)
}
