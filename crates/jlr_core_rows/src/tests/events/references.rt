//! References: which of them a collection clears, and what they answer.
use super::script::play_all;
use std::test::Fail;

const LISTS: &str = "
== weak references to a dropped object are cleared
    join -> done
    new ri -> handle 1
    weak 1 0 -> handle 2
    weak 1 0 -> handle 3
    full -> done
    deref 2 -> handle 4
    same 1 4 -> yes
    drop 4 -> done
    drop 1 -> done
    full -> done
    deref 2 -> handle 0
    deref 3 -> handle 0

== a weak reference is cleared by a collection
    join -> done
    new -> handle 1
    weak 1 0 -> handle 2
    drop 1 -> done
    full -> done
    deref 2 -> handle 0

== both weak references are cleared together
    join -> done
    new -> handle 1
    weak 1 0 -> handle 2
    weak 1 0 -> handle 3
    drop 1 -> done
    full -> done
    deref 2 -> handle 0
    deref 3 -> handle 0

== a phantom reference never gives its referent: soft_age 4
    join -> done
    new -> handle 1
    phantom 1 0 -> handle 2
    deref 2 -> handle 0
    refers 2 1 -> yes
    refers 2 0 -> no
    drop 1 -> done
    full -> done
    refers 2 0 -> yes

== a reference refers to one object: soft_age 4
    join -> done
    new -> handle 1
    new -> handle 2
    weak 1 0 -> handle 3
    dup 1 -> handle 4
    refers 3 1 -> yes
    refers 3 4 -> yes
    refers 3 2 -> no
    refers 3 3 -> no
    refers 3 0 -> no
    clear 3 -> done
    refers 3 1 -> no
    refers 3 0 -> yes
    deref 3 -> handle 0
    clear 3 -> done

== references of all kinds lose an object together: soft_age 4
    join -> done
    new -> handle 1
    soft 1 0 -> handle 2
    weak 1 0 -> handle 3
    phantom 1 0 -> handle 4
    drop 1 -> done
    full -> done
    refers 2 0 -> no
    refers 3 0 -> no
    refers 4 0 -> no
    full_clearing -> done
    refers 2 0 -> yes
    refers 3 0 -> yes
    refers 4 0 -> yes

== weak references to an object and to what holds it are cleared together: soft_age 4
    join -> done
    new ri -> handle 1
    new -> handle 2
    put 1 0 2 -> done
    weak 1 0 -> handle 3
    weak 2 0 -> handle 4
    drop 2 -> done
    full -> done
    refers 4 0 -> no
    drop 1 -> done
    full -> done
    deref 3 -> handle 0
    deref 4 -> handle 0

== a weak reference keeps what is held by a softly reachable object: soft_age 4
    join -> done
    new ri -> handle 1
    new -> handle 2
    put 1 0 2 -> done
    soft 1 0 -> handle 3
    weak 2 0 -> handle 4
    drop 1 -> done
    drop 2 -> done
    full -> done
    refers 4 0 -> no
    full_clearing -> done
    refers 4 0 -> yes
    refers 3 0 -> yes

== a reference to a reference is cleared: soft_age 4
    join -> done
    new -> handle 1
    weak 1 0 -> handle 2
    weak 2 0 -> handle 3
    drop 2 -> done
    full -> done
    deref 3 -> handle 0
    refers 3 0 -> yes

== a reference holds the queue that it refers to and is registered with: soft_age 4
    join -> done
    queue -> handle 1
    weak 1 1 -> handle 2
    drop 1 -> done
    full -> done
    deref 2 -> handle 1
    poll 1 -> handle 0

== half of a cycle through weak references dies: soft_age 4
    join -> done
    new ri -> handle 1
    new ri -> handle 2
    weak 1 0 -> handle 3
    weak 2 0 -> handle 4
    put 1 0 4 -> done
    put 2 0 3 -> done
    drop 3 -> done
    drop 4 -> done
    drop 1 -> done
    full -> done
    get 2 0 -> handle 1
    deref 1 -> handle 0
    refers 1 0 -> yes

== cycles of weak references and objects die: soft_age 4
    join
    new ri
    new ri
    weak 1 0
    weak 2 0
    put 1 0 4
    put 2 0 3
    drop 3
    drop 4
    full
    objects 4

== cycles of weak references and objects die: soft_age 4
    join
    new ri
    new ri
    weak 1 0
    weak 2 0
    put 1 0 4
    put 2 0 3
    drop 3
    drop 4
    drop 1
    full
    objects 2

== cycles of weak references and objects die: soft_age 4
    join
    new ri
    new ri
    weak 1 0
    weak 2 0
    put 1 0 4
    put 2 0 3
    leave
    join
    full
    objects 0

-- The soft age would keep a soft reference; but nothing reaches it.
== cycles through soft and phantom references die: soft_age 4
    join
    new ri
    soft 1 0
    put 1 0 2
    leave
    join
    full
    objects 0

== cycles through soft and phantom references die: soft_age 4
    join
    queue
    new ri
    phantom 2 1
    put 2 0 3
    leave
    join
    full
    hand_over
    objects 0
";

#[test]
fn lists_of_references(rt: HostRuntime) -> Result<(), Fail> {
    play_all(rt.alloc(), LISTS)
}
