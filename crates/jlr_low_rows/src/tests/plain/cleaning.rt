//! The cleaner, files and sockets.
use super::play::play_all;
use std::test::Fail;

const LISTS: &str = "
-- `cleaner; new -; register 1 2 7; drop 2; gc; notes; clean 3; notes`
== cleaner
    join -> done
    cleaner -> handle 1, in 0
    new -> handle 2, in 1
    register 1 2 7 -> handle 3, in 2
    drop 2 -> done
    full -> done, keeps 0 2, pends 2
    hand_over -> lined
    take_up -> job 1 note 7
    finish 255 1 ok -> done
    notes -> notes 7
    clean 3 -> already_done
    notes -> notes 7
    leave -> done

-- `open r /nowhere/x; stat; open w f; write 1 00ff; drop 1; gc; open r f; read 1 200; read 1 200; stat`
== file
    join -> done
    prepare -> prepared 0, in 0 1
    opened NotFound -> fault NotFound
    stat -> stat 2 0 0 0 0
    prepare -> prepared 0, in 2 3
    opened 0 -> handle 1
    check_out 1 -> out 0
    check_in 2 0 -> wrote 2
    drop 1 -> done
    full -> done, keeps 3, pends 3
    hand_over -> lined
    take_up -> job 2 resource 0
    finish 255 2 ok -> done
    prepare -> prepared 0, in 0 1
    opened 0 -> handle 1
    check_out 1 -> out 0
    check_in data 00ff 0 -> data 00ff
    check_out 1 -> out 0
    check_in data - 0 -> data -
    stat -> stat 3 1 1 1 0
    leave -> done

-- `open w a; cleaner; new -; register 2 3 9; drop 1; gc; faults; drop 3; gc; notes; stat`, where the finish of the file
-- fails
== failed cleaning
    join -> done
    prepare -> prepared 0, in 0 1
    opened 0 -> handle 1
    cleaner -> handle 2, in 2
    new -> handle 3, in 3
    register 2 3 9 -> handle 4, in 4
    drop 1 -> done
    full -> done, keeps 1 2 3 4, pends 1
    hand_over -> lined
    take_up -> job 1 resource 0
    finish 255 1 Other -> fault Other
    faults -> faults 1:Other
    drop 3 -> done
    full -> done, keeps 2 4, pends 4
    hand_over -> lined
    take_up -> job 2 note 9
    finish 255 2 ok -> done
    notes -> notes 9
    stat -> stat 2 0 2 1 1
    leave -> done

-- `open w f; close 1; read 1 5; close 1; stat`
== closed
    join -> done
    prepare -> prepared 0, in 0 1
    opened 0 -> handle 1
    close 1 -> job 1 resource 0
    finish 0 1 ok -> done
    check_out 1 -> refused Closed
    close 1 -> already_done
    stat -> stat 2 0 1 1 0
    leave -> done

-- `open w f; close 1; open w g; read 1 5`, where the second file has the Rid of the first
== rid again
    join -> done
    prepare -> prepared 0, in 0 1
    opened 0 -> handle 1
    close 1 -> job 1 resource 0
    finish 0 1 ok -> done
    prepare -> prepared 0, in 2 3
    opened 0 -> handle 2
    check_out 1 -> refused Closed
    leave -> done

-- With one resource: `open w f; open w g`
== one resource: one resource
    join -> done
    prepare -> prepared 0, in 0 1
    opened 0 -> handle 1
    prepare -> refused ResourcesFull
    leave -> done

-- `Join 0, Join 1, Prepare 0, Full 1, Opened 0 ok, Stat 1`
== two sessions: two sessions
    join -> done
    by 1 join -> done
    prepare -> prepared 0, in 0 1
    by 1 full -> done, keeps 0 1
    opened 0 -> handle 1
    by 1 stat -> stat 2 1 0 0 0
";

#[test]
fn rows_of_cleaning_are_runs(rt: HostRuntime) -> Result<(), Fail> {
    play_all(rt.alloc(), LISTS)
}
