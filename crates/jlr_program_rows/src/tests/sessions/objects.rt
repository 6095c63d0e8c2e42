//! Objects, their fields and their handles.
use super::player::play;
use std::test::Fail;

const SESSIONS: &str = "
    the heap answers short sessions:
    |
        ->
    new -; weak 1 0; drop 1; gc; deref 2
        -> = 1; = 2; ok; ok; = 0
    new -; weak 1 0; weak 1 0; drop 1; gc; deref 2; deref 3
        -> = 1; = 2; = 3; ok; ok; = 0; = 0
    new r; put 1 0 1; get 1 0; same 1 2; drop 1; get 2 0; same 1 2
        -> = 1; ok; = 2; yes; ok; = 1; yes
    get 9 0; dup 0; new r; deref 1; get 1 2; weak 0 1; weak 1 1; gc hard
        -> ! 3; ! 8; = 1; ! 5; ! 6; ! 8; ! 5; ! 15

    a heap of sixteen cells is full and has room again:
    ends Bye | 1 to 16: new -; new -; drop 1; new -; bye
        -> 1 to 16: = {}; ! 2; ok; = 1; ok

    two hundred and fifty handles are in use:
    new -; 2 to 250: dup 1; dup 1; new -; weak 1 0; same 1 250
        -> = 1; 2 to 250: = {}; ! 4; ! 4; ! 4; yes
";

#[test]
fn objects(rt: HostRuntime) -> Result<(), Fail> {
    play(rt.alloc(), SESSIONS)
}
