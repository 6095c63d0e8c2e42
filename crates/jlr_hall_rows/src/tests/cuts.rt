//! Seats in turns, with cuts of the trace and without: what each is answered, and what is left of the history.
use super::turns::play_all;
use std::test::Fail;

const LISTS: &str = "
== a trace of 64 entries is cut before the next ask: 1 64
    join -> done
    70 times stat -> stat 0 0 0 0 0
    leave -> done
    closes 64 8

== a trace of 10,000 entries is not: 1 10000
    join -> done
    70 times stat -> stat 0 0 0 0 0
    leave -> done
    closes 0 72

-- By the marker's seat, and what a cut gives up is an entry.
== an ask at the limit gives an open cycle up: 1 64
    join -> done
    62 times stat -> stat 0 0 0 0 0
    seat 1 begin -> yes
    stat -> stat 0 0 0 0 0
    seat 1 collect -> no
    closes 65 2

== an end is written behind the limit: 1 64
    join -> done
    62 times stat -> stat 0 0 0 0 0
    prepare -> prepared
    opened 5 -> handle 1
    closes 0 65

== what a call read is answered: 1 64
    join -> done
    prepare -> prepared
    opened 5 -> handle 1
    check_out 1 -> out 5
    check_in data 00ff 6 -> data 00ff
    check_in data 00ff 7 -> refused NotOut 7
    check_out 1 -> out 6
    check_in data - 6 -> data -
    closes 0 7

-- Each session gets back what it put in, though both are open at once.
== two sessions have a file each: 2 64
    join -> done
    seat 1 by 1 join -> done
    prepare -> prepared
    seat 1 by 1 prepare -> prepared
    opened 5 -> handle 1
    seat 1 by 1 opened 6 -> handle 1
    check_out 1 -> out 5
    seat 1 by 1 check_out 1 -> out 6
    check_in 3 5 -> wrote 3
    seat 1 by 1 check_in 2 6 -> wrote 2
    seat 1 by 1 check_out 1 -> out 6
    check_out 1 -> out 5
    seat 1 by 1 check_in data 0606 6 -> data 0606
    check_in data 05 5 -> data 05
    close 1 -> job 1 5
    seat 1 by 1 close 1 -> job 2 6
    seat 1 by 1 finish 1 2 ok -> done
    finish 0 1 ok -> done
    leave -> done
    seat 1 by 1 leave -> done
    closes 0 20

-- The leave that is refused is no entry.
== the ask after it cuts: 2 64
    join -> done
    62 times stat -> stat 0 0 0 0 0
    prepare -> prepared
    opened 5 -> handle 1
    stat -> stat 2 1 0 0 0
    seat 1 by 1 leave -> refused NoSession
    closes 65 1

-- The other's last ask cuts: the entry of the call's begin is gone when it ends.
== a cut while another's call is in flight: 2 64
    join -> done
    seat 1 by 1 join -> done
    prepare -> prepared
    opened 5 -> handle 1
    check_out 1 -> out 5
    seat 1 60 times by 1 stat -> stat 2 1 0 0 0
    check_out 1 -> refused Busy
    check_in 2 6 -> wrote 2
    close 1 -> job 1 6
    seat 1 by 1 stat -> stat 2 1 1 0 0
    finish 0 1 ok -> done
    closes 64 6

== a cut while another opens: 2 64
    join -> done
    seat 1 by 1 join -> done
    prepare -> prepared
    seat 1 62 times by 1 stat -> stat 2 1 0 0 0
    opened 5 -> handle 1
    stat -> stat 2 1 0 0 0
    closes 64 3

== an open that failed lets its seat leave: 1 64
    join -> done
    prepare -> prepared
    leave -> refused Busy
    opened Denied -> fault Denied
    leave -> done
    closes 0 4

== a cut while the cleaner runs a job: 1 64
    join -> done
    cleaner -> handle 1
    new -> handle 2
    register 1 2 7 -> handle 3
    drop 2 -> done
    full -> done
    seat 2 hand_over -> lined
    seat 3 take_up -> job 1
    57 times stat -> stat 2 0 1 0 0
    seat 3 finish 255 1 ok -> done
    notes -> notes 1 7
    closes 64 3
";

#[test]
fn seats_ask_through_cuts(rt: HostRuntime) -> Result<(), Fail> {
    play_all(&rt, rt.alloc(), LISTS)
}
