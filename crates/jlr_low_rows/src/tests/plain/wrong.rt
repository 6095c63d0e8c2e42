//! Entries that a wrong heap would write: each row that begins with `wrong` is no legal entry behind those before it.
use super::play::play_all;
use std::test::Fail;

const LISTS: &str = "
-- After `new -; weak 1 0; drop 1`: a `gc` that clears and removes nothing
== a collection clears and removes nothing
    join -> done
    new -> handle 1, in 0
    weak 1 0 -> handle 2, in 1
    drop 1 -> done
    wrong full -> done, keeps 0 1

-- After `new -; weak 1 0; weak 1 0; drop 1; gc; deref 2`, which gave null: the second reference still gives the object
== the second weak reference gives the object
    join -> done
    new -> handle 1, in 0
    weak 1 0 -> handle 2, in 1
    weak 1 0 -> handle 3, in 2
    drop 1 -> done
    full -> done, keeps 1 2
    deref 2 -> handle 0
    wrong deref 3 -> handle 1

-- After `new r; new -; put 1 0 2; soft 1 0; soft 2 0; drop 1; drop 2`: a `gc` that clears the soft reference to the
-- second object, while the first, which holds it by a field, keeps its own
== a soft reference is cleared whose object is held softly
    join -> done
    new r -> handle 1, in 0
    new -> handle 2, in 1
    put 1 0 2 -> done
    soft 1 0 -> handle 3, in 2
    soft 2 0 -> handle 4, in 3
    drop 1 -> done
    drop 2 -> done
    wrong full -> done, keeps 0 2 3

-- And one that keeps both, after which the reference to the second gives null
== a kept soft reference gives null
    join -> done
    new r -> handle 1, in 0
    new -> handle 2, in 1
    put 1 0 2 -> done
    soft 1 0 -> handle 3, in 2
    soft 2 0 -> handle 4, in 3
    drop 1 -> done
    drop 2 -> done
    full -> done, keeps 0 1 2 3
    wrong deref 4 -> handle 0

-- After `queue; new -; weak 2 1; clear 3; drop 2`: a `gc` puts the reference, which the program cleared, on the pending
-- list
== what the program cleared is put on the pending list
    join -> done
    queue -> handle 1, in 0
    new -> handle 2, in 1
    weak 2 1 -> handle 3, in 2
    clear 3 -> done
    drop 2 -> done
    wrong full -> done, keeps 0 2, pends 2

-- After `queue; new -; weak 2 1; drop 2; gc; enqueue 3`: the handler too appends the reference
== the handler appends what the program appended
    join -> done
    queue -> handle 1, in 0
    new -> handle 2, in 1
    weak 2 1 -> handle 3, in 2
    drop 2 -> done
    full -> done, keeps 0 2, pends 2
    enqueue 3 -> yes
    wrong hand_over -> queued

-- After `cleaner; new -; register 1 2 7; drop 2; gc` and the cleaner's take-up: the program takes the action up again
== an action is taken up again
    join -> done
    cleaner -> handle 1, in 0
    new -> handle 2, in 1
    register 1 2 7 -> handle 3, in 2
    drop 2 -> done
    full -> done, keeps 0 2, pends 2
    hand_over -> lined
    take_up -> job 1 note 7
    wrong clean 3 -> job 1 note 7

-- After `open w f; close 1; open w g`, where the second file has the Rid of the first: the closed guard gives the
-- second file
== a closed guard gives another file
    join -> done
    prepare -> prepared 0, in 0 1
    opened 0 -> handle 1
    close 1 -> job 1 resource 0
    finish 0 1 ok -> done
    prepare -> prepared 0, in 2 3
    opened 0 -> handle 2
    wrong check_out 1 -> out 0

== a full heap without a collection, or with room: two cells
    join -> done
    new -> handle 1, in 0
    new -> handle 2, in 1
    drop 1 -> done
    wrong new -> refused HeapFull
    wrong new -> refused HeapFull, keeps 1
";

#[test]
fn wrong_entries_are_refused(rt: HostRuntime) -> Result<(), Fail> {
    play_all(rt.alloc(), LISTS)
}
