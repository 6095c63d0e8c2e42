//! Files and sockets: opened, used, closed by hand or by the cleaner, each value handed out as it was put in.
use super::script::play_all;
use std::test::Fail;

const LISTS: &str = "
== a resource is used and closed
    join -> done
    check_in 2 9 -> refused NotOut 9
    opened 8 -> refused NotOut 8
    prepare -> prepared
    stat -> refused Busy
    opened 5 -> handle 1
    stat -> stat 2 1 0 0 0
    check_out 1 -> out 5
    check_out 1 -> refused Busy
    close 1 -> refused Busy
    check_in 2 6 -> wrote 2
    check_out 1 -> out 6
    check_in 0 6 -> wrote 0
    close 1 -> job 1 6
    finish 0 1 ok -> done
    close 1 -> already_done
    check_out 1 -> refused Closed
    stat -> stat 2 0 1 1 0
    check_out 0 -> refused Null
    check_out 2 -> refused NoHandle
    new -> handle 2
    check_out 2 -> refused WrongKind
    close 2 -> refused WrongKind

== what an open gave is finished once its guard is gone
    join -> done
    prepare -> prepared
    opened 5 -> handle 1
    full -> done
    hand_over -> nothing
    drop 1 -> done
    full -> done
    stat -> stat 1 1 0 0 0
    hand_over -> lined
    take_up -> job 1 5
    finish 255 1 ok -> done
    take_up -> nothing
    full -> done
    stat -> stat 0 0 1 1 0

== a failed open leaves nothing to clean
    join -> done
    prepare -> prepared
    opened NotFound -> fault NotFound
    stat -> stat 2 0 0 0 0
    opened 4 -> refused NotOut 4
    full -> done
    hand_over -> nothing
    take_up -> nothing
    stat -> stat 0 0 0 0 0

== a mutator leaves only after its open
    join -> done
    prepare -> prepared
    leave -> refused Busy
    opened Denied -> fault Denied
    leave -> done

-- The place of a closed resource is used again, and its old guard stays closed.
== an old guard does not reach a new resource
    join -> done
    prepare -> prepared
    opened 5 -> handle 1
    prepare -> refused ResourcesFull
    close 1 -> job 1 5
    finish 0 1 ok -> done
    prepare -> prepared
    opened 6 -> handle 2
    check_out 1 -> refused Closed
    close 1 -> already_done
    check_out 2 -> out 6

== an open wants two cells
    join -> done
    new -> handle 1 up to 15
    prepare -> refused HeapFull
    stat -> stat 15 0 0 0 0
    drop 15 -> done
    prepare -> prepared
    opened 5 -> handle 15

-- An open is under way while another mutator collects: its guard is held.
== a guard under way is not collected: sessions 2, resources 4
    join -> done
    by 1 join -> done
    prepare -> prepared
    by 1 full -> done
    opened 5 -> handle 1
    by 1 stat -> stat 2 1 0 0 0
    leave -> done
    by 1 full -> done
    hand_over -> lined
    take_up -> job 1 5

-- A mutator's call is in flight while the other gives up its handle and the name: the guard is held until the call
-- ends, by its fence and by the caller's handle, which the caller cannot give up before.
== a guard is not collected while its resource is out: sessions 2, resources 4
    join -> done
    by 1 join -> done
    prepare -> prepared
    opened 5 -> handle 1
    bind f 1 -> done
    by 1 find f -> handle 1
    by 1 check_out 1 -> out 5
    check_out 1 -> refused Busy
    close 1 -> refused Busy
    unbind f -> done
    drop 1 -> done
    full -> done
    hand_over -> nothing
    by 1 drop 1 -> refused Busy
    by 1 check_in 2 6 -> wrote 2
    by 1 drop 1 -> done
    full -> done
    hand_over -> lined
    take_up -> job 1 6
    finish 255 1 ok -> done
";

#[test]
fn lists_of_resources(rt: HostRuntime) -> Result<(), Fail> {
    play_all(rt.alloc(), LISTS)
}
