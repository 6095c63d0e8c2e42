//! Cleaners, and references that are waited for.
use super::player::play;
use std::test::Fail;

const SESSIONS: &str = "
    actions run once when their object has died:
    cleaner; new -; register 1 2 7; drop 2; gc; notes; clean 3; notes
        -> = 1; = 2; = 3; ok; ok; list 7; ok; list 7
    # The action waits neither for the cleaner's handle nor for the cleanable's.
    cleaner; new -; register 1 2 7; drop 1; drop 3; drop 2; gc; notes; stat
        -> = 1; = 2; = 3; ok; ok; ok; ok; list 7; stat 1 0 1 1 0
    # Cleaned by hand, while the object lives, and then no more.
    cleaner; new -; register 1 2 7; clean 3; notes; clean 3; drop 2; gc; notes; faults; stat
        -> = 1; = 2; = 3; ok; list 7; ok; ok; ok; list 7; list; stat 2 0 1 1 0
    # One collection, two actions; a third object lives.
    cleaner; new -; new -; new -; register 1 2 5; register 1 3 6; register 1 4 8; drop 2; drop 4; gc; stat; drop 3; gc; stat
        -> = 1; = 2; = 3; = 4; = 5; = 6; = 7; ok; ok; ok; stat 5 0 2 2 0; ok; ok; stat 4 0 3 3 0
    # What the object refers to by its fields does not die with it, where it is held otherwise.
    cleaner; new r; new -; put 2 0 3; register 1 3 9; drop 3; gc; notes; drop 2; gc; notes
        -> = 1; = 2; = 3; ok; = 4; ok; ok; list; ok; ok; list 9
    new -; register 1 1 7; clean 1; cleaner; clean 2; register 2 0 1; register 2 9 1; clean 0
        -> = 1; ! 5; ! 5; = 2; ! 5; ! 8; ! 3; ! 8

    a remove gives what is there and never waits:
    queue; remove 1
        -> = 1; ! 18
    queue; new -; weak 2 1; drop 2; gc; remove 1; remove 1; same 2 3
        -> = 1; = 2; = 3; ok; ok; = 2; ! 18; yes
";

#[test]
fn cleaners(rt: HostRuntime) -> Result<(), Fail> {
    play(rt.alloc(), SESSIONS)
}
