//! Arrays of references.
use super::player::play;
use std::test::Fail;

const SESSIONS: &str = "
    an array holds what its elements refer to, and no integers:
    array 3; new -; put 1 2 2; drop 2; gc; get 1 2; get 1 3; put 1 3 0; int 1 0; stat; array 0; array 4097; array 01; get 1 4095; get 1 4096
        -> = 1; = 2; ok; ok; ok; = 2; ! 6; ! 6; ! 5; stat 2 0 0 0 0; ! 15; ! 15; ! 15; ! 6; ! 15
    new -; get 1 300; array 1; setint 2 0 5; put 2 0 2; get 2 0; same 2 3
        -> = 1; ! 6; = 2; ! 5; ok; = 3; yes

    each element is written and read by its own number:
    array 4096; new -; put 1 4095 2; get 1 4094; get 1 4095; put 1 4095 0; get 1 4095; drop 2; drop 3; gc; stat
        -> = 1; = 2; ok; = 0; = 3; ok; = 0; ok; ok; ok; stat 1 0 0 0 0

    an array is one object, and goes with what it alone held:
    array 2; array 2; new -; put 1 1 2; put 2 1 3; drop 2; drop 3; gc; stat; drop 1; gc; stat
        -> = 1; = 2; = 3; ok; ok; ok; ok; ok; stat 3 0 0 0 0; ok; ok; stat 0 0 0 0 0
    queue; array 1; weak 2 1; drop 2; gc; deref 3; poll 1; same 2 3
        -> = 1; = 2; = 3; ok; ok; = 0; = 2; yes

    where no cell is free, an array is refused, and finds room again:
    ends Bye | 1 to 16: new -; array 4096; drop 1; array 4096; get 1 4095; array 1; drop 1; array 2; get 1 2; bye
        -> 1 to 16: = {}; ! 2; ok; = 1; = 0; ! 2; ok; = 1; ! 6; ok

    a handle is needed:
    new -; 2 to 250: dup 1; array 3
        -> = 1; 2 to 250: = {}; ! 4
";

#[test]
fn arrays(rt: HostRuntime) -> Result<(), Fail> {
    play(rt.alloc(), SESSIONS)
}
