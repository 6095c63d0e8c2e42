//! Soft references: how long a collection keeps what they refer to.
use super::script::play_all;
use std::test::Fail;

const LISTS: &str = "
== at soft age 0 a collection clears a soft reference
    join -> done
    new -> handle 1
    soft 1 0 -> handle 2
    deref 2 -> handle 3
    drop 3 -> done
    drop 1 -> done
    full -> done
    deref 2 -> handle 0

== at soft age 1 the second collection clears a soft reference: soft_age 1
    join -> done
    new -> handle 1
    soft 1 0 -> handle 2
    drop 1 -> done
    full -> done
    full -> done
    deref 2 -> handle 0

== a soft reference that gives its referent is kept again: soft_age 1
    join -> done
    new -> handle 1
    soft 1 0 -> handle 2
    drop 1 -> done
    full -> done
    deref 2 -> handle 1
    drop 1 -> done
    full -> done
    deref 2 -> handle 1

-- Asking what it refers to is no use of it.
== at soft age 4 the fifth collection clears a soft reference: soft_age 4
    join -> done
    new -> handle 1
    soft 1 0 -> handle 2
    drop 1 -> done
    full -> done
    full -> done
    full -> done
    full -> done
    refers 2 0 -> no
    full -> done
    refers 2 0 -> yes

== a soft reference to a held object is not cleared
    join -> done
    new -> handle 1
    soft 1 0 -> handle 2
    full -> done
    full_clearing -> done
    deref 2 -> handle 3

== soft references to an object and to what holds it are cleared together: soft_age 4
    join -> done
    new ri -> handle 1
    new -> handle 2
    put 1 0 2 -> done
    soft 1 0 -> handle 3
    soft 2 0 -> handle 4
    drop 1 -> done
    drop 2 -> done
    full -> done
    deref 3 -> handle 1
    deref 4 -> handle 2
    drop 1 -> done
    drop 2 -> done
    full_clearing -> done
    deref 3 -> handle 0
    deref 4 -> handle 0

-- Only the reference to the holder gave its referent, and the other one is too old: they stay together, and go
-- together.
== a soft reference keeps what its referent holds: soft_age 1
    join -> done
    new ri -> handle 1
    new -> handle 2
    put 1 0 2 -> done
    soft 1 0 -> handle 3
    soft 2 0 -> handle 4
    drop 1 -> done
    drop 2 -> done
    full -> done
    deref 3 -> handle 1
    drop 1 -> done
    full -> done
    refers 3 0 -> no
    refers 4 0 -> no
    full -> done
    refers 3 0 -> yes
    refers 4 0 -> yes

== what holds an object may go first: soft_age 1
    join -> done
    new ri -> handle 1
    new -> handle 2
    put 1 0 2 -> done
    soft 1 0 -> handle 3
    soft 2 0 -> handle 4
    drop 1 -> done
    drop 2 -> done
    full -> done
    deref 4 -> handle 1
    drop 1 -> done
    full -> done
    refers 3 0 -> yes
    refers 4 0 -> no
    full -> done
    refers 4 0 -> yes

== an allocation clears a heap full of softly reachable objects: soft_age 4
    join -> done
    new -> handle 1
    soft 1 0 -> handle 2
    drop 1 -> done
    new -> handle 1
    soft 1 0 -> handle 3
    drop 1 -> done
    new -> handle 1
    soft 1 0 -> handle 4
    drop 1 -> done
    new -> handle 1
    soft 1 0 -> handle 5
    drop 1 -> done
    new -> handle 1
    soft 1 0 -> handle 6
    drop 1 -> done
    new -> handle 1
    soft 1 0 -> handle 7
    drop 1 -> done
    new -> handle 1
    soft 1 0 -> handle 8
    drop 1 -> done
    new -> handle 1
    soft 1 0 -> handle 9
    drop 1 -> done
    new -> handle 1
    deref 2 -> handle 0
    deref 3 -> handle 0
    deref 4 -> handle 0
    deref 5 -> handle 0
    deref 6 -> handle 0
    deref 7 -> handle 0
    deref 8 -> handle 0
    deref 9 -> handle 0

-- The collection before the refusal counts, but clears no soft reference to an object that is held.
== a full heap keeps what is held: soft_age 4
    join -> done
    new -> handle 1
    soft 1 0 -> handle 2
    new -> handle 3 up to 16
    new -> refused HeapFull
    soft 1 0 -> refused HeapFull
    queue -> refused HeapFull
    deref 2 -> handle 17
    drop 17 -> done
    drop 1 -> done
    queue -> handle 1
    deref 2 -> handle 0
";

#[test]
fn lists_of_soft_references(rt: HostRuntime) -> Result<(), Fail> {
    play_all(rt.alloc(), LISTS)
}
