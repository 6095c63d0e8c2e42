//! References, queues and soft references.
use super::play::play_all;
use std::test::Fail;

const LISTS: &str = "
-- `new -; weak 1 0; drop 1; gc; deref 2` is answered `= 1; = 2; ok; ok; = 0`
== weak
    join -> done
    new -> handle 1, in 0
    weak 1 0 -> handle 2, in 1
    drop 1 -> done
    full -> done, keeps 1
    deref 2 -> handle 0
    leave -> done

-- `new -; weak 1 0; weak 1 0; drop 1; gc; deref 2; deref 3`
== two weak
    join -> done
    new -> handle 1, in 0
    weak 1 0 -> handle 2, in 1
    weak 1 0 -> handle 3, in 2
    drop 1 -> done
    full -> done, keeps 1 2
    deref 2 -> handle 0
    deref 3 -> handle 0
    leave -> done

-- `queue; new -; weak 2 1; drop 2; gc; enqueued 3; poll 1; same 2 3; poll 1; enqueue 3`
== queue
    join -> done
    queue -> handle 1, in 0
    new -> handle 2, in 1
    weak 2 1 -> handle 3, in 2
    drop 2 -> done
    full -> done, keeps 0 2, pends 2
    hand_over -> queued
    enqueued 3 -> yes
    poll 1 -> handle 2
    same 2 3 -> yes
    poll 1 -> handle 0
    enqueue 3 -> no
    leave -> done

-- `queue; new r; weak 2 1; put 2 0 3; drop 3; drop 2; gc; poll 1`
== self reference
    join -> done
    queue -> handle 1, in 0
    new r -> handle 2, in 1
    weak 2 1 -> handle 3, in 2
    put 2 0 3 -> done
    drop 3 -> done
    drop 2 -> done
    full -> done, keeps 0
    poll 1 -> handle 0
    leave -> done

-- `queue; new -; weak 2 1; clear 3; drop 2; gc; poll 1; enqueued 3; enqueue 3; poll 1; enqueue 3`
== clear
    join -> done
    queue -> handle 1, in 0
    new -> handle 2, in 1
    weak 2 1 -> handle 3, in 2
    clear 3 -> done
    drop 2 -> done
    full -> done, keeps 0 2
    poll 1 -> handle 0
    enqueued 3 -> no
    enqueue 3 -> yes
    poll 1 -> handle 2
    enqueue 3 -> no
    leave -> done

-- `new -; phantom 1 0; deref 2; refers 2 1; refers 2 0; drop 1; gc; refers 2 0`
== phantom
    join -> done
    new -> handle 1, in 0
    phantom 1 0 -> handle 2, in 1
    deref 2 -> handle 0
    refers 2 1 -> yes
    refers 2 0 -> no
    drop 1 -> done
    full -> done, keeps 1
    refers 2 0 -> yes
    leave -> done

-- `Join, MakeQueue, New -, MakeRef weak 2 1, Drop 2, Full 0, Enqueue 3, Poll 1, HandOver, Poll 1`
== program first
    join -> done
    queue -> handle 1, in 0
    new -> handle 2, in 1
    weak 2 1 -> handle 3, in 2
    drop 2 -> done
    full -> done, keeps 0 2, pends 2
    enqueue 3 -> yes
    poll 1 -> handle 2
    hand_over -> skipped
    poll 1 -> handle 0

-- `new r; new -; put 1 0 2; soft 1 0; soft 2 0; drop 1; drop 2; gc; deref 3; deref 4; drop 1; drop 2; gc soft; deref 3;
-- deref 4`
== soft chain
    join -> done
    new r -> handle 1, in 0
    new -> handle 2, in 1
    put 1 0 2 -> done
    soft 1 0 -> handle 3, in 2
    soft 2 0 -> handle 4, in 3
    drop 1 -> done
    drop 2 -> done
    full -> done, keeps 0 1 2 3
    deref 3 -> handle 1
    deref 4 -> handle 2
    drop 1 -> done
    drop 2 -> done
    full_clearing -> done, keeps 2 3
    deref 3 -> handle 0
    deref 4 -> handle 0
    leave -> done

-- With a soft age of 1: `new -; soft 1 0; drop 1; gc; gc; deref 2`
== soft age
    join -> done
    new -> handle 1, in 0
    soft 1 0 -> handle 2, in 1
    drop 1 -> done
    full -> done, keeps 0 1
    full -> done, keeps 1
    deref 2 -> handle 0
    leave -> done

-- With a soft age of 1: `new -; soft 1 0; drop 1; gc; deref 2; drop 1; gc; deref 2`
== soft used
    join -> done
    new -> handle 1, in 0
    soft 1 0 -> handle 2, in 1
    drop 1 -> done
    full -> done, keeps 0 1
    deref 2 -> handle 1
    drop 1 -> done
    full -> done, keeps 0 1
    deref 2 -> handle 1
    leave -> done

-- `array 3; new -; put 1 2 2; drop 2; gc; get 1 2; get 1 3; put 1 3 0; int 1 0; stat; get 1 4095`
== array
    join -> done
    array 3 -> handle 1, in 0
    new -> handle 2, in 1
    put 1 2 2 -> done
    drop 2 -> done
    full -> done, keeps 0 1
    get 1 2 -> handle 2
    get 1 3 -> refused NoField
    put 1 3 0 -> refused NoField
    int 1 0 -> refused WrongKind
    stat -> stat 2 0 0 0 0
    get 1 4095 -> refused NoField
    leave -> done
";

#[test]
fn rows_of_references_are_runs(rt: HostRuntime) -> Result<(), Fail> {
    play_all(rt.alloc(), LISTS)
}
