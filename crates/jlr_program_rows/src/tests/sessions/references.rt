//! References and queues.
use super::player::play;
use std::test::Fail;

const SESSIONS: &str = "
    queues give what was enqueued:
    queue; new -; weak 2 1; drop 2; gc; enqueued 3; poll 1; same 2 3; poll 1; enqueue 3
        -> = 1; = 2; = 3; ok; ok; yes; = 2; yes; = 0; no
    # A reference that goes with its referent is never enqueued.
    queue; new r; weak 2 1; put 2 0 3; drop 3; drop 2; gc; poll 1
        -> = 1; = 2; = 3; ok; ok; ok; ok; = 0
    # Nor is one that the program cleared; but the program may enqueue it.
    queue; new -; weak 2 1; clear 3; drop 2; gc; poll 1; enqueued 3; enqueue 3; poll 1; enqueue 3
        -> = 1; = 2; = 3; ok; ok; ok; = 0; no; yes; = 2; no
    queue; new -; phantom 2 1; drop 2; gc; poll 1; deref 2; refers 2 0; same 2 3
        -> = 1; = 2; = 3; ok; ok; = 2; = 0; yes; yes
    queue; new -; soft 2 1; enqueue 3; enqueued 3; deref 3; enqueue 3; poll 1; same 3 4; enqueued 3; enqueue 3; poll 1
        -> = 1; = 2; = 3; yes; yes; = 0; no; = 4; yes; no; no; = 0
    # Without a queue it is cleared all the same.
    new -; weak 1 0; enqueue 2; enqueued 2; deref 2
        -> = 1; = 2; no; no; = 0

    references of two collections come out in order:
    queue; new -; new -; weak 2 1; weak 3 1; drop 2; gc; drop 3; gc; poll 1; same 2 4; poll 1; same 3 5; poll 1
        -> = 1; = 2; = 3; = 4; = 5; ok; ok; ok; ok; = 2; yes; = 3; yes; = 0
    queue; new -; new -; weak 2 1; weak 3 1; drop 3; gc; drop 2; gc; poll 1; same 2 5; poll 1; same 3 4; poll 1
        -> = 1; = 2; = 3; = 4; = 5; ok; ok; ok; ok; = 2; yes; = 3; yes; = 0

    references of one collection come out once each:
    queue; new -; weak 2 1; weak 2 1; drop 2; gc; poll 1; poll 1; poll 1; same 2 3; same 2 4; same 5 3; same 5 4
        -> = 1; = 2; = 3; = 4; ok; ok; = 2; = 5; = 0; yes; no; no; yes or = 1; = 2; = 3; = 4; ok; ok; = 2; = 5; = 0; no; yes; yes; no

    queues live by their references:
    # The queue goes with its only reference, and the next one is empty.
    queue; new -; weak 2 1; drop 1; drop 3; gc; drop 2; gc; queue; poll 1
        -> = 1; = 2; = 3; ok; ok; ok; ok; ok; = 1; = 0
    # A reference keeps its queue until it is enqueued; that it was enqueued stays true when the queue is gone.
    queue; new -; weak 2 1; drop 1; gc; drop 2; gc; enqueued 3; gc; enqueued 3; enqueue 3
        -> = 1; = 2; = 3; ok; ok; ok; ok; yes; ok; yes; no
    # And the queue keeps what is in it.
    queue; new -; weak 2 1; enqueue 3; drop 3; gc; poll 1; enqueued 3
        -> = 1; = 2; = 3; yes; ok; ok; = 3; no

    phantoms and cycles:
    new -; phantom 1 0; deref 2; refers 2 1; refers 2 0; drop 1; gc; refers 2 0
        -> = 1; = 2; = 0; yes; no; ok; ok; yes
    # An object, its reference, the referent, and back to the object.
    new r; new r; weak 2 0; put 1 0 3; put 2 0 1; drop 3; drop 2; gc; get 1 0; deref 2
        -> = 1; = 2; = 3; ok; ok; ok; ok; ok; = 2; = 0
    # A reference to an object that leads to it.
    new r; weak 1 0; put 1 0 2; drop 1; gc; deref 2; refers 2 0
        -> = 1; = 2; ok; ok; ok; = 0; yes
    new r; soft 1 0; put 1 0 2; drop 1; gc; deref 2; get 1 0; same 2 3
        -> = 1; = 2; ok; ok; ok; = 1; = 3; yes
    # A reference to a reference.
    new -; weak 1 0; weak 2 0; drop 2; gc; deref 3; refers 3 0
        -> = 1; = 2; = 3; ok; ok; = 0; yes

    soft references go by their age:
    soft_age 1 | new -; soft 1 0; drop 1; gc; gc; deref 2
        -> = 1; = 2; ok; ok; ok; = 0
    soft_age 1 | new -; soft 1 0; drop 1; gc; deref 2; drop 1; gc; deref 2
        -> = 1; = 2; ok; ok; = 1; ok; ok; = 1
    soft_age 0 | new -; soft 1 0; drop 1; gc; deref 2
        -> = 1; = 2; ok; ok; = 0
    # An object that is kept keeps its part, also where the reference to the part is old.
    soft_age 1 | new r; new -; put 1 0 2; soft 1 0; soft 2 0; drop 1; drop 2; gc; deref 3; drop 1; gc; deref 4; deref 3; drop 1; drop 2; gc; gc; deref 3; deref 4
        -> = 1; = 2; ok; = 3; = 4; ok; ok; ok; = 1; ok; ok; = 1; = 2; ok; ok; ok; ok; = 0; = 0
    # A part that is kept does not keep the whole.
    soft_age 1 | new r; new -; put 1 0 2; soft 1 0; soft 2 0; drop 1; drop 2; gc; deref 4; drop 1; gc; deref 3; deref 4
        -> = 1; = 2; ok; = 3; = 4; ok; ok; ok; = 1; ok; ok; = 0; = 1

    a full heap clears soft references of any age:
    2 to 9: new - / soft 1 0 / drop 1; new -; deref 2; deref 9
        -> 2 to 9: = 1 / = {} / ok; = 1; = 0; = 0

    what is no reference and no queue is refused:
    queue; new -; poll 2; weak 2 2; soft 0 1; phantom 2 9; enqueue 2; enqueued 1; deref 1; refers 2 0; clear 9; poll 0; get 1 0; put 1 0 0
        -> = 1; = 2; ! 5; ! 5; ! 8; ! 3; ! 5; ! 5; ! 5; ! 5; ! 3; ! 8; ! 5; ! 5

    a poll needs a handle for what it takes:
    queue; new -; weak 2 1; drop 2; gc; dup 1; 4 to 250: dup 1; poll 1; enqueued 3; drop 250; poll 1; same 250 3; poll 1
        -> = 1; = 2; = 3; ok; ok; = 2; 4 to 250: = {}; ! 4; yes; ok; = 250; yes; = 0
";

#[test]
fn references(rt: HostRuntime) -> Result<(), Fail> {
    play(rt.alloc(), SESSIONS)
}
