//! Cleaning actions, and what guards hold.
use super::play::{Guarded, play_all};
use std::test::Fail;

const LISTS: &str = "
== an action is run once its object is gone
    cleaner -> handle 1
    new -> handle 2
    register 1 2 7 -> handle 3
    take_up -> already_done
    drop 2 -> done
    full -> done
    take_up -> job 1
    take_up -> refused Busy
    notes -> notes 0
    finish 255 1 ok -> done
    notes -> notes 1 7
    take_up -> already_done
    clean 3 -> already_done
    faults -> faults 0

== an action is taken up by hand
    cleaner -> handle 1
    new -> handle 2
    register 1 2 7 -> handle 3
    clean 3 -> job 1
    finish 0 1 Other -> done
    faults -> faults 1 1 Other
    clean 3 -> already_done

== what a guard holds is lent, and comes back once
    prepare -> done
    opened 5 -> handle 1
    check_out 1 -> out 5
    check_out 1 -> refused Busy
    check_in 0 5 -> done
    check_in 0 5 -> refused NotOut 5
    check_out 1 -> out 5
    check_in Other 5 -> done
    close 1 -> job 1 5
    close 1 -> refused Busy
    check_out 1 -> refused Closed
    finish 0 1 ok -> done
    close 1 -> already_done
    stat -> stat 2 0 1 1 0

== what was not prepared is not taken
    opened 5 -> refused NotOut 5

== what could not be opened leaves its room
    prepare -> done
    opened Denied -> done
    prepare -> done
    opened 6 -> handle 1
    prepare -> refused ResourcesFull

== what a lost guard held comes back once
    prepare -> done
    opened 5 -> handle 1
    drop 1 -> done
    full -> done
    take_up -> job 1 5
    finish 255 1 ok -> done
    take_up -> already_done
    full -> done
    stat -> stat 0 0 1 1 0
";

#[test]
fn calls_on_cleaners_and_guards_give_what_the_rows_say(rt: HostRuntime) -> Result<(), Fail> {
    play_all(rt.alloc(), &Guarded::Numbers, LISTS)
}
