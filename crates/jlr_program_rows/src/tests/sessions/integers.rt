//! Integer fields, clearing collections and counts.
use super::player::play;
use std::test::Fail;

const SESSIONS: &str = "
    integer fields hold integers:
    new ri; setint 1 1 -9223372036854775808; int 1 1; setint 1 1 9223372036854775807; int 1 1; setint 1 1 9223372036854775808; int 1 1
        -> = 1; ok; int -9223372036854775808; ok; int 9223372036854775807; ! 15; int 9223372036854775807
    # A field is an integer or a reference, for good.
    new ri; get 1 1; put 1 1 1; int 1 0; setint 1 0 5; get 1 2; int 1 2; int 1 1; get 1 0
        -> = 1; ! 7; ! 7; ! 7; ! 7; ! 6; ! 6; int 0; = 0
    queue; weak 1 0; int 2 0; setint 2 0 1; int 0 0; int 9 0; setint 0 0 1
        -> = 1; = 2; ! 5; ! 5; ! 8; ! 3; ! 8
    # Integers stay over a collection, and hold nothing.
    new rirririi; setint 1 1 -1; setint 1 7 2; put 1 0 1; gc; int 1 1; int 1 4; int 1 7; get 1 0; same 1 2
        -> = 1; ok; ok; ok; ok; int -1; int 0; int 2; = 2; yes

    gc soft clears soft references:
    # A soft reference outlives a collection by the policy, and no clearing one.
    new r; new -; put 1 0 2; soft 1 0; soft 2 0; drop 1; drop 2; gc; deref 3; deref 4; drop 1; drop 2; gc soft; deref 3; deref 4
        -> = 1; = 2; ok; = 3; = 4; ok; ok; ok; = 1; = 2; ok; ok; ok; = 0; = 0

    stat counts what a full heap kept:
    2 to 9: new - / soft 1 0 / drop 1; new -; 2 to 9: deref {}; stat
        -> 2 to 9: = 1 / = {} / ok; = 1; 2 to 9: = 0; stat 9 0 0 0 0
";

#[test]
fn integers(rt: HostRuntime) -> Result<(), Fail> {
    play(rt.alloc(), SESSIONS)
}
