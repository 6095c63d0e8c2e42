//! What the book of a session shows: where its base is, and how many entries came after it.
use super::player::play;
use std::test::Fail;

const SESSIONS: &str = "
    each ask is an entry, and nothing is asked where nothing is pending:
    book 0 2 |
        ->
    book 0 2 | words; that; ask; nothing
        -> 1 to 4: ! 15
    book 0 4 | new -; get 9 0
        -> = 1; ! 3

    a trace of 64 entries is cut before the next ask:
    trace 64, book 0 65 | 1 to 63: stat
        -> 1 to 63: stat 0 0 0 0 0
    trace 64, book 64 2 | 1 to 64: stat
        -> 1 to 64: stat 0 0 0 0 0
    trace 64, book 64 8 | 1 to 70: stat
        -> 1 to 70: stat 0 0 0 0 0
    trace 65, book 65 7 | 1 to 70: stat
        -> 1 to 70: stat 0 0 0 0 0

    what is handed over is an entry of the handler's, and a job two of the cleaner's:
    # join, queue, new, weak, drop, gc, its reference handed over, poll, leave
    book 0 9 | queue; new -; weak 2 1; drop 2; gc; poll 1
        -> = 1; = 2; = 3; ok; ok; = 2
    # join, cleaner, new, register, drop, gc, its cleanable handed over, taken up and finished, leave
    book 0 10 | cleaner; new -; register 1 2 7; drop 2; gc
        -> = 1; = 2; = 3; ok; ok

    nothing is lost by a cut, be it before a collection, or before what that left pending is handed over or taken up:
    trace 64, book 64 8 | queue; new -; weak 2 1; drop 2; 1 to 59: stat; gc; poll 1; refers 3 0; poll 1; 1 to 2: stat
        -> = 1; = 2; = 3; ok; 1 to 59: stat 3 0 0 0 0; ok; = 2; yes; = 0; 1 to 2: stat 2 0 0 0 0
    trace 64, book 64 6 | queue; new -; weak 2 1; drop 2; 1 to 58: stat; gc; poll 1; refers 3 0; poll 1; stat
        -> = 1; = 2; = 3; ok; 1 to 58: stat 3 0 0 0 0; ok; = 2; yes; = 0; stat 2 0 0 0 0
    # The cleanable's hand-over is the last entry that fits, so that the cleaner's take-up cuts.
    trace 64, book 64 4 | cleaner; new -; register 1 2 7; drop 2; 1 to 57: stat; gc; notes
        -> = 1; = 2; = 3; ok; 1 to 57: stat 3 0 0 0 0; ok; list 7
";

#[test]
fn books(rt: HostRuntime) -> Result<(), Fail> {
    play(rt.alloc(), SESSIONS)
}
