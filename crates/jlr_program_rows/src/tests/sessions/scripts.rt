//! Files and sockets that follow scripts.
use super::player::play;
use std::test::Fail;

const SESSIONS: &str = "
    a fault of an action is recorded and others run:
    scripts ok unfinished | open w a; cleaner; new -; register 2 3 9; drop 1; gc; faults; drop 3; gc; notes; stat
        -> = 1; = 2; = 3; = 4; ok; ok; list 1:other; ok; ok; list 9; stat 2 0 2 1 1

    a closed guard stays closed:
    open w f; close 1; read 1 5; close 1; stat
        -> = 1; ok; ! 12; ok; stat 2 0 1 1 0
    # Though its number in the table is in use again.
    open w f; close 1; open w g; read 1 5
        -> = 1; ok; = 2; ! 12
    new -; read 1 1; close 1; read 0 1; write 9 00
        -> = 1; ! 5; ! 5; ! 8; ! 3

    resources are limited:
    resources 1 | open w f; open w g; close 1; open w g
        -> = 1; ! 19; ok; = 2

    each call may fail:
    scripts other | open w a; write 1 0102; close 1; faults; stat
        -> fault other; ! 3; ! 3; list; stat 2 0 0 0 0
    scripts ok fails | open w a; write 1 0102; close 1; faults; stat
        -> = 1; fault other; ok; list; stat 2 0 1 1 0
    scripts ok unfinished | open w a; write 1 0102; close 1; faults; stat
        -> = 1; wrote 2; fault other; list 1:other; stat 2 0 1 0 1
    scripts ok takes1 | open w a; write 1 0102; close 1; faults; stat
        -> = 1; wrote 1; ok; list; stat 2 0 1 1 0

    a read that failed is followed by others:
    scripts ok fails 0102 | open r a; read 1 4; read 1 4; read 1 4; close 1; close 1; read 1 4
        -> = 1; fault other; data 0102; end; ok; ok; ! 12

    a device whose count is full is not called:
    failures most | open r a; connect b; stat
        -> fault other; fault other; stat 4 0 0 0 0

    each call of a file that is read back may fail:
    # No call fails that need not; then each open, write, finish and read in turn.
    scripts notfound; ok; ok 00ff | open r x; stat; open w f; write 1 00ff; drop 1; gc; open r f; read 1 200; read 1 200; stat
        -> fault notfound; stat 2 0 0 0 0; = 1; wrote 2; ok; ok; = 1; data 00ff; end; stat 3 1 1 1 0
    scripts other; ok; ok 00ff | open r x; stat; open w f; write 1 00ff; drop 1; gc; open r f; read 1 200; read 1 200; stat
        -> fault other; stat 2 0 0 0 0; = 1; wrote 2; ok; ok; = 1; data 00ff; end; stat 3 1 1 1 0
    scripts notfound; other; ok 00ff | open r x; stat; open w f; write 1 00ff; drop 1; gc; open r f; read 1 200; read 1 200; stat
        -> fault notfound; stat 2 0 0 0 0; fault other; ! 3; ! 3; ok; = 1; data 00ff; end; stat 2 1 0 0 0
    scripts notfound; ok fails; ok 00ff | open r x; stat; open w f; write 1 00ff; drop 1; gc; open r f; read 1 200; read 1 200; stat
        -> fault notfound; stat 2 0 0 0 0; = 1; fault other; ok; ok; = 1; data 00ff; end; stat 3 1 1 1 0
    scripts notfound; ok unfinished; ok 00ff | open r x; stat; open w f; write 1 00ff; drop 1; gc; open r f; read 1 200; read 1 200; stat
        -> fault notfound; stat 2 0 0 0 0; = 1; wrote 2; ok; ok; = 1; data 00ff; end; stat 3 1 1 0 1
    scripts notfound; ok; other | open r x; stat; open w f; write 1 00ff; drop 1; gc; open r f; read 1 200; read 1 200; stat
        -> fault notfound; stat 2 0 0 0 0; = 1; wrote 2; ok; ok; fault other; ! 3; ! 3; stat 3 0 1 1 0
    scripts notfound; ok; ok fails | open r x; stat; open w f; write 1 00ff; drop 1; gc; open r f; read 1 200; read 1 200; stat
        -> fault notfound; stat 2 0 0 0 0; = 1; wrote 2; ok; ok; = 1; fault other; end; stat 3 1 1 1 0
    scripts notfound; ok; ok 00ff fails | open r x; stat; open w f; write 1 00ff; drop 1; gc; open r f; read 1 200; read 1 200; stat
        -> fault notfound; stat 2 0 0 0 0; = 1; wrote 2; ok; ok; = 1; data 00ff; fault other; stat 3 1 1 1 0

    each call of a file beside an action may fail:
    # That the finish fails has a list of its own.
    scripts ok | open w a; cleaner; new -; register 2 3 9; drop 1; gc; faults; drop 3; gc; notes; stat
        -> = 1; = 2; = 3; = 4; ok; ok; list; ok; ok; list 9; stat 2 0 2 2 0
    scripts other | open w a; cleaner; new -; register 2 3 9; drop 1; gc; faults; drop 3; gc; notes; stat
        -> fault other; = 1; = 2; ! 3; ok; ok; list; ! 3; ok; list; stat 1 0 0 0 0

    each call of a file that is closed may fail:
    scripts other | open w f; close 1; read 1 5; close 1; stat
        -> fault other; ! 3; ! 3; ! 3; stat 2 0 0 0 0
    scripts ok unfinished | open w f; close 1; read 1 5; close 1; stat
        -> = 1; fault other; ! 12; ok; stat 2 0 1 0 1
    scripts other | open w f; close 1; open w g; read 1 5
        -> fault other; ! 3; = 1; end
    scripts ok unfinished | open w f; close 1; open w g; read 1 5
        -> = 1; fault other; = 2; ! 12
    scripts ok; other | open w f; close 1; open w g; read 1 5
        -> = 1; ok; fault other; ! 12

    a failed open leaves its place to the next:
    scripts other, resources 1 | open w f; open w g; open w h
        -> fault other; = 1; ! 19

    a writer may fail while a file is open:
    # join, prepare, opened, bind, check out, check in, leave
    lines 2, ends WriteFault, book 0 7 | open w a; bind f 1; write 1 0102
        -> = 1; ok
";

#[test]
fn scripts(rt: HostRuntime) -> Result<(), Fail> {
    play(rt.alloc(), SESSIONS)
}
